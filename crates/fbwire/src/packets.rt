//! The packets of a datagram, one after another, each by its length (RFC 3550, section 6.1).
ghost use Rattle.std.specs.Prelude.{◌≡◌, ◌<◌, length, [], Some, None, MatchOption, MatchResult};
ghost use Rattle.std.specs.Iterator.{item_count};
ghost use Rattle.fbwire.specs.Header.{packet_length};
ghost use Rattle.fbwire.specs.CompoundChecks.{packet_fault};
ghost use Rattle.fbwire.specs.CompoundWalk.{CutsPacket};

use crate::fault::FeedbackFault;
use crate::header::{FirstOctet, is_nack, length_of};
use crate::nack::HEADER;

/// The octets that are left of a datagram. Each step gives the packet at their front, or the first check that
/// it fails, and then it ends.
#[derive(Drop)]
pub(crate) struct Packets<'a> {
    pub(crate) octets: &'a [u8],
}

impl<'a> Iterator for Packets<'a> {
    type Item = Result<&'a [u8], FeedbackFault>;

    ghost next_gives = { λ old r new. MatchOption r (old.octets.now ≡ []) (λ item. MatchResult item
        (λ packet. CutsPacket old.octets.now packet.now new.octets.now)
        (λ fault. (packet_fault old.octets.now ≡ Some fault) × (0 < length old.octets.now) × (new.octets.now ≡ []))) };

    ghost remaining = { item_count (λ s. s.octets.now) };

    fn next(&mut self) -> Option<Result<&'a [u8], FeedbackFault>> {
        if self.octets.is_empty() {
            return None;
        }
        match first_packet(self.octets) {
            Ok(length) => {
                let (packet, rest) = self.octets.split_at(length);
                self.octets = rest;
                Some(Ok(packet))
            }
            Err(fault) => {
                self.octets = &self.octets[self.octets.len()..];
                Some(Err(fault))
            }
        }
    }
}

/// How many octets the packet at the front has, or the first check that it fails.
fn first_packet(octets: &[u8]) -> Result<usize, FeedbackFault>
    ensures { MatchResult result
        (λ length. (packet_fault octets.now ≡ None) × (length ≡ packet_length octets.now))
        (λ fault. packet_fault octets.now ≡ Some fault) }
{
    if octets.len() < 4 {
        return Err(FeedbackFault::Short);
    }
    let first = FirstOctet(octets[0]);
    if first.version() != 2 {
        return Err(FeedbackFault::Version);
    }
    if is_nack(octets) && first.is_padded() {
        return Err(FeedbackFault::Padded);
    }
    let length = length_of(octets);
    if octets.len() < length {
        return Err(FeedbackFault::Length);
    }
    if is_nack(octets) && length < HEADER {
        return Err(FeedbackFault::Short);
    }
    if is_nack(octets) && length == HEADER {
        return Err(FeedbackFault::Empty);
    }
    Ok(length)
}
