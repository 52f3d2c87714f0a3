//! The text of a packing: NACKs that ask for places, a line each.
ghost use Rattle.std.specs.Prelude.{ℕ, List, [], OnOk, OnErr};
ghost use Rattle.std.specs.Io.KnownBytes.{Appends};
ghost use Rattle.std.specs.List.Sorted.{IsStrictlyIncreasing};
ghost use Rattle.fbwire.specs.Packing.{IsNarrow};
ghost use Rattle.lines.specs.PackText.{AskInTurn, datagram_lines};
ghost use Rattle.lines.specs.Sink.{AppendsFront};

use crate::line::push_line;
use crate::sink::Sink;
use crate::word::Word;
use fbwire::{pack, write_nack};
use places::Place;
use world::{MEDIA_SSRC, RECEIVER_SSRC};

/// Pushes the lines of NACKs that ask for these places, in the session of every script: as few as there can be, one
/// line each in hexadecimal digits. No places are no lines.
///
/// The places rise, and the last is less than 8192 above the first, as [`can_pack`](fbwire::can_pack) tells.
pub fn push_packing<S: Sink>(sink: &mut S, places: &[Place]) -> Result<(), S::Fault>
    requires rising { IsStrictlyIncreasing places.now }
    requires narrow { IsNarrow places.now }
    // The lines of datagrams that ask for all places.
    ensures ok { OnOk result ((datagrams : List (List ℕ)) × AskInTurn places.now datagrams []
        × Appends (S.contents sink.old) (S.contents sink.new) (datagram_lines datagrams)) }
    // A beginning of the lines of datagrams that ask for some first places.
    ensures err { OnErr result ((datagrams : List (List ℕ)) × (left : List ℕ) × AskInTurn places.now datagrams left
        × AppendsFront (S.contents sink.old) (S.contents sink.new) (datagram_lines datagrams)) }
{
    let mut left = places;
    while !left.is_empty() {
        let (pairs, covered) = pack(left);
        let nack = write_nack(RECEIVER_SSRC, MEDIA_SSRC, &pairs);
        push_line(sink, &[Word::Octets(&nack)])?;
        let (_, others) = left.split_at(covered);
        left = others;
    }
    Ok(())
}
