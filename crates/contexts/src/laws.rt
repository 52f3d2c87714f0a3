//! What a key is good for. Nothing here computes.
ghost use Rattle.std.specs.Prelude.{◌⊎◌, ℕ, List, ◌++◌, Contains};
ghost use Rattle.srtp.specs.Derivation.{Keys};
ghost use Rattle.srtp.specs.Rtcp.{trailer_in};
ghost use Rattle.srtp.specs.Stream.{body_of, tag_in};
ghost use Rattle.contexts.specs.Heard.{Hears, HearsControl, IsForged, IsForgedControl, IsSealed, IsSealedControl, Sealed, WasSealed};

use srtp::packets_are_opened;

/// Whatever the other ends protected under a key, what is heard under it is one of that, as it was, or somebody forged a
/// tag of HMAC-SHA-1-80 by that key. It computes nothing.
pub fn what_is_heard_was_sealed()
    ensures heard { (keys : Keys) (made : List Sealed) (came opened : List ℕ) → ((s : Sealed) → Contains made s → IsSealed keys s)
        → Hears keys came opened → WasSealed made came opened (tag_in came) ⊎ IsForged keys made came }
    ensures heard_control { (keys : Keys) (made : List Sealed) (came opened : List ℕ) → ((s : Sealed) → Contains made s → IsSealedControl keys s)
        → HearsControl keys came opened → WasSealed made came opened (trailer_in (body_of came) ++ tag_in came) ⊎ IsForgedControl keys made came }
{
    packets_are_opened();
}
