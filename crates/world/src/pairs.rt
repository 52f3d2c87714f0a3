//! The pairs of an ask, read from its octets.
ghost use Rattle.std.specs.Prelude.{◌≡◌, ◌≤◌, length};
ghost use Rattle.fbwire.specs.Nack.{Nack, NackSpells};

use crate::event::MAX_PAIRS;
use arrayvec::ArrayVec;
use fbwire::{NackView, Pair};

/// The pairs of the NACK that the octets of an ask spell.
pub(crate) fn pairs_in(octets: &[u8]) -> ArrayVec<Pair, MAX_PAIRS>
    ensures { (nack : Nack) → NackSpells nack octets.now → length nack.pairs ≤ MAX_PAIRS → result.items ≡ nack.pairs }
{
    let mut pairs = ArrayVec::new();
    if let Ok(nack) = NackView::read(octets) {
        for pair in nack.pairs() {
            if pairs.try_push(pair).is_err() {
                break;
            }
        }
    }
    pairs
}
