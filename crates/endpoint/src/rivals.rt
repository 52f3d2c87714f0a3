//! When the SSRC of the retransmissions that was learnt falls to another one.
ghost use Rattle.std.specs.Prelude.{◌≡◌, ℕ, Option};
ghost use Rattle.stores.specs.Span.{highest_of};
ghost use Rattle.endpoint.specs.Measuring.{IsOriginal};
ghost use Rattle.endpoint.specs.Rivals.{was_asked};

use crate::path_meter::asks_for;
use crate::standing::original_of;
use places::Place;
use receiver::Receiver;
use stores::Window;

/// Whether a datagram is a retransmission, by its payload type, of a place that is missing and was asked for: its SSRC may be the one of the
/// retransmissions, then.
pub(crate) fn would_repair<W: Window>(core: &Receiver<W>, octets: &[u8]) -> bool
    ensures { (original : Option ℕ) × IsOriginal core.now.config.session (highest_of core.now.span) octets.now original × (result ≡ was_asked core.now.span original) }
{
    was_asked(core, original_of(core, octets))
}

/// Whether this place is missing, and was asked for.
fn was_asked<W: Window>(core: &Receiver<W>, place: Option<Place>) -> bool
    ensures { result ≡ was_asked core.now.span place }
{
    match place {
        Some(place) => matches!(asks_for(core, place), Some(asks) if asks > 0),
        None => false,
    }
}
