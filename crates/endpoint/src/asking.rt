//! How many places an ask names.
ghost use Rattle.std.specs.Prelude.{◌≡◌, length};
ghost use Rattle.fbwire.specs.Nack.{Nack, NackSpells, numbers_of};
ghost use Rattle.endpoint.specs.Counts.{count_in_64};

use fbwire::{NackView, Pairs};

/// How many sequence numbers a NACK names.
pub(crate) fn places_in(octets: &[u8]) -> u64
    ensures { (nack : Nack) → NackSpells nack octets.now → result ≡ count_in_64 (length (numbers_of nack.pairs)) }
{
    match NackView::read(octets) {
        Ok(nack) => count(nack.pairs()),
        Err(_) => 0,
    }
}

/// How many these pairs name.
fn count(pairs: Pairs<'_>) -> u64
    ensures { result ≡ count_in_64 (length (numbers_of pairs.entry)) }
{
    let mut count = 0u64;
    for pair in pairs {
        count = count.saturating_add(u64::from(pair.count()));
    }
    count
}
