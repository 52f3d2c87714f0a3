//! What a datagram is beside what an endpoint answers to it.
ghost use Rattle.std.specs.Prelude.{◌↔◌, ◌^◌, ◌<◌, ℕ, IsTrue, MatchOption};
ghost use Rattle.places.specs.Place.{IsNear};
ghost use Rattle.endpoint.specs.Kinds.{IsForeign, IsKind, IsKindOfRefused, IsKindOfShort, IsRepairIn, IsRepairOf, IsUnasked};

use crate::asked_places::AskedPlaces;
use crate::heard::Heard;
use crate::padding::without_padding;
use places::{Place, near, near_is_determined};
use receiver::ReceiveFault;
use rtpwire::{RtpFault, RtpView, RtxView, Session, repair_is_determined, spelling_is_determined};

/// What a datagram is: [`AskingEndpoint::on_datagram`](crate::AskingEndpoint::on_datagram) tells it.
#[derive(Clone, Copy, Debug, PartialEq, Eq)]
pub enum Kind {
    /// A packet of the retransmissions' stream that is all padding (RFC 3550, section 5.1): it has no original, and carries nothing.
    Padding,
    /// A retransmission that was refused, of a place that was not asked for, as far as is remembered.
    Unasked,
    /// Anything else: what the endpoint answered says all of it.
    Usual,
}

/// The kind of a datagram to which an endpoint of this session answered so, by the highest place before it.
pub(crate) fn kind_of(
    asked: &AskedPlaces,
    session: &Session,
    highest: Option<Place>,
    octets: &[u8],
    answer: &Result<Heard, ReceiveFault>,
) -> Kind
    ensures { IsKind asked.now session.now highest octets.now answer.now result }
{
    match answer {
        Err(ReceiveFault::Rtp(RtpFault::NoOsn)) => kind_of_short(octets),
        Err(ReceiveFault::Put(_)) | Err(ReceiveFault::Unasked) => {
            kind_of_refused(asked, session, highest, octets)
        }
        _ => Kind::Usual,
    }
}

/// The kind of a packet of the retransmissions' stream that has no number of an original.
fn kind_of_short(octets: &[u8]) -> Kind
    ensures { IsKindOfShort octets.now result }
{
    match without_padding(octets) {
        Some(_) => Kind::Padding,
        None => Kind::Usual,
    }
}

/// The kind of a packet that was refused at its place.
fn kind_of_refused(
    asked: &AskedPlaces,
    session: &Session,
    highest: Option<Place>,
    octets: &[u8],
) -> Kind
    ensures { IsKindOfRefused asked.now session.now highest octets.now result }
{
    if is_unasked(asked, session, highest, octets) {
        Kind::Unasked
    } else {
        Kind::Usual
    }
}

/// Whether a datagram is a retransmission of a place that is not remembered, once there is a highest place.
fn is_unasked(asked: &AskedPlaces, session: &Session, highest: Option<Place>, octets: &[u8]) -> bool
    ensures { IsTrue result ↔ IsUnasked asked.now session.now highest octets.now }
{
    match highest {
        Some(highest) => is_foreign(asked, session, highest, octets),
        None => false,
    }
}

/// Whether it is one, by this highest place.
fn is_foreign(asked: &AskedPlaces, session: &Session, highest: Place, octets: &[u8]) -> bool
    ensures { IsTrue result ↔ IsForeign asked.now session.now highest octets.now }
{
    spelling_is_determined();
    repair_is_determined();
    near_is_determined();
    match repaired(session, highest, octets) {
        Some(place) => !asked.remembers(place),
        None => false,
    }
}

/// The place of the original that a retransmission repeats.
pub(crate) fn repaired(session: &Session, highest: Place, octets: &[u8]) -> Option<Place>
    ensures { MatchOption result ((q : ℕ) → IsRepairOf session.now highest octets.now q → ⊥) (λ q. IsRepairOf session.now highest octets.now q) }
{
    match RtpView::read(octets) {
        Ok(view) => repaired_by(session, highest, &view),
        Err(_) => None,
    }
}

/// The same of a packet.
fn repaired_by(session: &Session, highest: Place, view: &RtpView<'_>) -> Option<Place>
    ensures { MatchOption result ((q : ℕ) → IsRepairIn session.now highest view.now q → ⊥) (λ q. IsRepairIn session.now highest view.now q) }
{
    if view.payload_type() != session.repair_type() {
        return None;
    }
    match RtxView::read(view) {
        Ok(repair) => near_to(highest, repair.original()),
        Err(_) => None,
    }
}

/// The place near this one that has this number, if there is one.
fn near_to(highest: Place, seq: u16) -> Option<Place>
    ensures { MatchOption result ((q : ℕ) → q < 2 ^ 48 → IsNear highest seq q → ⊥) (λ q. (q < 2 ^ 48) × IsNear highest seq q) }
{
    match near(highest, seq) {
        Ok(place) => Some(place),
        Err(_) => None,
    }
}
