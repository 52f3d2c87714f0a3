//! Laws on the lines of traces and packings. These functions compute nothing: their contracts are the laws.
ghost use Rattle.std.specs.Prelude.{◌≡◌, ℕ, List, [], ◌++◌};
ghost use Rattle.std.specs.List.Sorted.{IsStrictlyIncreasing};
ghost use Rattle.fbwire.specs.Packing.{IsNarrow};
ghost use Rattle.lines.specs.PackText.{AskInTurn};
ghost use Rattle.lines.specs.ShowText.{Shows, ShowsAll};

use fbwire::{compound_is_determined, nack_is_determined, packing_is_determined};
use rtpwire::{repair_is_determined, spelling_is_determined};

/// What a trace determines, for callers of [`push_datagram`](crate::push_datagram).
pub fn traces_are_determined()
    // A datagram has one line at most, and a trace one text.
    ensures one_line { (octets a b : List ℕ) → Shows octets a → Shows octets b → a ≡ b }
    ensures one_text { (datagrams : List (List ℕ)) (a b : List ℕ) → ShowsAll datagrams a → ShowsAll datagrams b → a ≡ b }
    // Texts of traces, one after another, are the text of both.
    ensures both { (datagrams others : List (List ℕ)) (a b : List ℕ) → ShowsAll datagrams a → ShowsAll others b
        → ShowsAll (datagrams ++ others) (a ++ b) }
{
    compound_is_determined();
    spelling_is_determined();
    repair_is_determined();
}

/// What places determine, for callers of [`push_packing`](crate::push_packing): the datagrams that ask for all of them.
pub fn packings_are_determined()
    ensures { (places : List ℕ) (a b : List (List ℕ)) → IsStrictlyIncreasing places → IsNarrow places
        → AskInTurn places a [] → AskInTurn places b [] → a ≡ b }
{
    nack_is_determined();
    packing_is_determined();
}
