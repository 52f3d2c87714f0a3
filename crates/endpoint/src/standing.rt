//! Where a receiver stood before a datagram came.
ghost use Rattle.std.specs.Prelude.{◌≡◌, ℕ, false, MatchOption};
ghost use Rattle.rtpwire.specs.Rtp.{RtpPacket, RtpSpells};
ghost use Rattle.stores.specs.Span.{highest_of};
ghost use Rattle.endpoint.specs.Kinds.{IsRepairOf};
ghost use Rattle.endpoint.specs.Measuring.{IsNumbered, IsOriginal, IsStanding, IsWaitedFor, least_silence};

use crate::kind::repaired;
use places::{Place, near};
use receiver::Receiver;
use rtpwire::{Session, u16_at};
use stores::{SlotRef, Window};

/// A place that is missing, and the moment at which that was noticed.
#[derive(Clone, Copy, Debug, PartialEq, Eq)]
pub struct Awaited {
    pub place: Place,
    pub noticed: u64,
}

/// The place near the highest one that the sequence number in these octets stands for, and the same place if it is missing.
fn place_of<W: Window>(core: &Receiver<W>, octets: &[u8]) -> (Option<Place>, Option<Awaited>)
    ensures place { IsNumbered (highest_of core.now.span) octets.now result.0 }
    ensures awaited { IsWaitedFor core.now.span octets.now result.1 }
{
    let Some(highest) = core.window().highest() else {
        return (None, None);
    };
    if octets.len() < 4 {
        return (None, None);
    }
    let Ok(place) = near(highest, u16_at(octets, 2)) else {
        return (None, None);
    };
    match core.window().slot(place) {
        Some(SlotRef::Missing { noticed, .. }) => (Some(place), Some(Awaited { place, noticed })),
        _ => (Some(place), None),
    }
}

/// The place of the original that a retransmission with these octets repeats.
pub(crate) fn original_of<W: Window>(core: &Receiver<W>, octets: &[u8]) -> Option<Place>
    ensures { IsOriginal core.now.config.session (highest_of core.now.span) octets.now result }
{
    match core.window().highest() {
        Some(highest) => original_near(&core.config().session(), highest, octets),
        None => None,
    }
}

/// The same, by this highest place. Media, which most is, is told by its type alone, and read no second time.
fn original_near(session: &Session, highest: Place, octets: &[u8]) -> Option<Place>
    ensures { MatchOption result ((q : ℕ) → IsRepairOf session.now highest octets.now q → ⊥) (λ q. IsRepairOf session.now highest octets.now q) }
{
    if has_type(session.repair_type(), octets) {
        repaired(session, highest, octets)
    } else {
        None
    }
}

/// Whether the octets have this payload type where a packet has it (RFC 3550, section 5.1). What hasn't is no packet of that type.
#[tactic(auto, using(crate::proofs::Typed::typed_in, crate::proofs::Typed::two_octets))]
fn has_type(payload_type: u8, octets: &[u8]) -> bool
    ensures { result ≡ false → (p : RtpPacket) → RtpSpells p octets.now → p.payload_type ≡ payload_type → ⊥ }
{
    octets.len() >= 2 && octets[1] & 0x7f == payload_type
}

/// Where a receiver stood before a datagram came, for its path to be measured by that.
#[derive(Clone, Copy, Debug, PartialEq, Eq)]
pub struct Standing {
    /// The highest place that was taken.
    pub highest: Option<Place>,
    /// The next place to play.
    pub cursor: Option<u64>,
    /// How long a silence is at least of which something is too late, in milliseconds.
    pub least: u64,
    /// The missing place that the datagram has.
    pub awaited: Option<Awaited>,
    /// The place that the datagram has, missing or not, if it is media.
    pub place: Option<Place>,
    /// The place of the original that the datagram repeats, if it is a retransmission.
    pub original: Option<Place>,
}

/// How long a silence is at least of which something is too late, where a place is waited for so long: by a quarter longer.
fn least_silence(patience: u64) -> u64
    ensures { result ≡ least_silence patience }
{
    patience.saturating_add(patience / 4)
}

impl Standing {
    /// Where a receiver stands, before a packet with these octets.
    pub fn before<W: Window>(core: &Receiver<W>, octets: &[u8]) -> Standing
        ensures { IsStanding core.now octets.now result }
    {
        let (place, awaited) = place_of(core, octets);
        Standing {
            highest: core.window().highest(),
            cursor: core.window().cursor(),
            least: least_silence(core.config().patience()),
            awaited,
            place,
            original: original_of(core, octets),
        }
    }
}
