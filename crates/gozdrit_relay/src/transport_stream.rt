//! MPEG-TS over UDP without RTP, as encoders send it, in packets of RTP (RFC 2250, section 2; RFC 3551, section 5).
ghost use Rattle.std.specs.Prelude.{◌≡◌, ℕ, length, IfSome, None};
ghost use Rattle.rtpwire.specs.declared.limits.TheConstants.{MAX_DATAGRAM};
ghost use Rattle.gozdrit_relay.specs.TransportStream.{Packs, taken_of};

use crate::foreign::is_transport_stream;
use rtpwire::{Carried, MAX_DATAGRAM, MAX_PAYLOAD, RtpView, Words, media_len, write_media_into};

/// How many octets a packet of MPEG-TS has (ISO/IEC 13818-1, section 2.4.3.2).
const PACKET: usize = 188;

/// How many octets of such packets a payload has at most.
const MOST: usize = MAX_PAYLOAD / PACKET * PACKET;

/// The payload type of MPEG-TS, whose clock has 90,000 ticks a second (RFC 3551, table 5).
pub const MP2T: u8 = 33;

/// Makes a stream of RTP of MPEG-TS.
#[derive(Clone, Copy, Debug, PartialEq, Eq)]
pub struct Payloader {
    pub media_type: u8,
    pub ssrc: u32,
    /// The sequence number of the next packet.
    pub number: u16,
}

/// A packet that was written.
#[derive(Clone, Copy, Debug, PartialEq, Eq)]
pub struct Packed {
    /// How many octets of MPEG-TS it has.
    pub taken: usize,
    /// How many octets it has itself.
    pub len: usize,
}

impl Payloader {
    /// Writes the next packet, with what stands at the front of octets that are whole packets of MPEG-TS: as many as a payload holds.
    pub fn pack(&mut self, octets: &[u8], timestamp: u32, out: &mut [u8]) -> Option<Packed>
        requires { length out.old ≡ MAX_DATAGRAM }
        ensures some { IfSome result (λ packed. Packs self.old octets.now timestamp packed out.new self.new) }
        ensures none { result ≡ None → (taken_of octets.now ≡ 0) × (self.new ≡ self.old) }
    {
        let taken = taken_of(octets);
        if taken == 0 {
            return None;
        }
        let Ok(carried) = Carried::of_fields(
            &octets[..taken],
            timestamp,
            false,
            Words::Numbers(&[]),
            None,
        ) else {
            return None;
        };
        let len = media_len(&carried, 0);
        prove!(len <= out.len());
        let media_type = self.media_type.min(127);
        let len = write_media_into(out, &carried, 0, self.number, media_type, self.ssrc);
        self.number = self.number.wrapping_add(1);
        Some(Packed { taken, len })
    }
}

/// How many octets one packet of RTP takes from the front of some: none, where these are no whole packets of MPEG-TS.
fn taken_of(octets: &[u8]) -> usize
    ensures { result ≡ taken_of octets.now }
{
    if is_transport_stream(octets) {
        octets.len().min(MOST)
    } else {
        0
    }
}

/// What a packet of RTP carries; all of what is none.
pub fn payload_of(octets: &[u8]) -> &[u8] {
    match RtpView::read(octets) {
        Ok(view) => view.payload(),
        Err(_) => octets,
    }
}
