//! A receiver's reference time (RFC 3611, section 4.4).
ghost use Rattle.std.specs.Prelude.{◌≡◌, ◌<◌, ◌^◌, IfSome};
ghost use Rattle.liveness.specs.Reports.{IsReference, middle, reference_octets};

use byteorder::{ByteOrder, NetworkEndian};

/// How many octets it has.
pub const REFERENCE: usize = 20;

/// A receiver's reference time: an extended report under the receiver's SSRC, with the upper and the lower 32 bits of a
/// time. What the time is of is the receiver's own matter (RFC 3611, section 4.4).
#[derive(Clone, Copy, Debug, PartialEq, Eq)]
pub struct ReferenceTime {
    pub ssrc: u32,
    pub seconds: u32,
    pub fraction: u32,
}

impl ReferenceTime {
    /// Its octets.
    pub fn write(&self) -> [u8; REFERENCE]
        ensures { result ≡ reference_octets self.now }
    {
        let [a, b, c, d] = self.ssrc.to_be_bytes();
        let [e, f, g, h] = self.seconds.to_be_bytes();
        let [i, j, k, l] = self.fraction.to_be_bytes();
        [
            128, 207, 0, 4, a, b, c, d, 4, 0, 0, 2, e, f, g, h, i, j, k, l,
        ]
    }

    /// The one that octets spell, all of them. None: they spell none, or have another report beside it.
    pub fn read(octets: &[u8]) -> Option<ReferenceTime>
        // What is read is spelled so.
        ensures spelled { IfSome result (λ time. octets.now ≡ reference_octets time) }
        // What is spelled so is read.
        ensures only { (time : ReferenceTime) → IsReference time → octets.now ≡ reference_octets time → result ≡ Some time }
    {
        if octets.len() != REFERENCE {
            return None;
        }
        let time = ReferenceTime {
            ssrc: NetworkEndian::read_u32(&octets[4..]),
            seconds: NetworkEndian::read_u32(&octets[12..]),
            fraction: NetworkEndian::read_u32(&octets[16..]),
        };
        if octets == &time.write()[..] {
            Some(time)
        } else {
            None
        }
    }

    /// The middle 32 bits of the time, which an answer repeats (RFC 3611, section 4.5).
    pub fn middle(&self) -> u32
        ensures { result ≡ middle self.now }
    {
        self.seconds % 65536 * 65536 + self.fraction / 65536
    }
}
