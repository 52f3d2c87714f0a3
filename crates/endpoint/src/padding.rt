//! Packets that are all padding.
ghost use Rattle.std.specs.Prelude.{◌≡◌, ◌↔◌, ◌<◌, ◌≤◌, ℕ, List, [], length, take, slice_set, slice_index, bit_and, IsTrue, MatchOption};
ghost use Rattle.endpoint.specs.Padding.{IsStripped, IsEmptyPacket};

use rtpwire::{Datagram, MAX_DATAGRAM, RtpView};

/// The bit of the first octet that says that there is padding (RFC 3550, section 5.1).
const PADDED: u8 = 32;

/// A packet that is all padding, without it: the same packet with an empty payload. None where the octets are no such
/// packet, or its header alone is no datagram. Browsers probe for bandwidth with packets that carry nothing else; a receiver
/// that does not take them misses their sequence numbers.
pub fn without_padding(octets: &[u8]) -> Option<Datagram>
    ensures { MatchOption result ((plain : List ℕ) → IsStripped octets.now plain → ⊥) (λ plain. IsStripped octets.now plain.items) }
{
    let [first, .., count] = octets else {
        return None;
    };
    let count = usize::from(*count);
    if *first & PADDED == 0 || count == 0 || count >= octets.len() {
        return None;
    }
    let kept = octets.len() - count;
    if kept > MAX_DATAGRAM {
        return None;
    }
    stripped(octets, kept)
}

/// So many of the first octets with that bit cleared, if they are a packet with an empty payload. It stands apart, so that no other
/// packet pays for room that is blanked.
#[inline(never)]
fn stripped(octets: &[u8], kept: usize) -> Option<Datagram>
    requires some { 0 < kept }
    requires within { kept ≤ length octets.now }
    requires fits { kept ≤ MAX_DATAGRAM }
    ensures { MatchOption result
        (IsEmptyPacket (slice_set (take kept octets.now) 0 (bit_and (slice_index (take kept octets.now) 0) 223)) → ⊥)
        (λ plain. IsEmptyPacket plain.items × (plain.items ≡ slice_set (take kept octets.now) 0 (bit_and (slice_index (take kept octets.now) 0) 223))) }
{
    let plain = cleared(&octets[..kept]);
    if is_empty_packet(plain.as_slice()) {
        Some(plain)
    } else {
        None
    }
}

/// The same octets with that bit cleared.
fn cleared(octets: &[u8]) -> Datagram
    requires some { 0 < length octets.now }
    requires fits { length octets.now ≤ MAX_DATAGRAM }
    ensures { result.items ≡ slice_set octets.now 0 (bit_and (slice_index octets.now 0) 223) }
{
    let mut plain = Datagram::new();
    plain.try_extend_from_slice(octets).unwrap();
    plain[0] = octets[0] & !PADDED;
    plain
}

/// Whether octets are a packet with an empty payload and no padding.
fn is_empty_packet(octets: &[u8]) -> bool
    ensures { IsTrue result ↔ IsEmptyPacket octets.now }
{
    match RtpView::read(octets) {
        Ok(view) => is_empty(&view),
        Err(_) => false,
    }
}

/// Whether a packet has an empty payload and no padding.
fn is_empty(view: &RtpView<'_>) -> bool
    ensures { IsTrue result ↔ ((view.now.payload ≡ []) × (view.now.padding ≡ 0)) }
{
    view.payload().is_empty() && view.padding() == 0
}
