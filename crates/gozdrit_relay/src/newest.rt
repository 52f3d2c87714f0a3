//! The newest packet of a session's media, by which a far side that moved is known under a key.
ghost use Rattle.std.specs.Prelude.{◌≡◌};
ghost use Rattle.gozdrit_relay.specs.Newest.{GoesAhead};

use byteorder::{ByteOrder, NetworkEndian};

/// The SSRC of a session's media, and the greatest sequence number that came under it.
#[derive(Clone, Copy, Debug, PartialEq, Eq)]
pub struct Newest {
    pub ssrc: u32,
    pub number: u16,
}

/// How far ahead a number lies at most, modulo 65536, that is no older one.
const HALF: u16 = 32767;

impl Newest {
    /// Whether a packet of RTP is one of the session's media that lies ahead of all that came, whose number is the
    /// greatest one from then on.
    pub fn goes_ahead(&mut self, octets: &[u8]) -> bool
        ensures { GoesAhead self.old octets.now result self.new }
    {
        if octets.len() < 12 || NetworkEndian::read_u32(&octets[8..]) != self.ssrc {
            return false;
        }
        let number = NetworkEndian::read_u16(&octets[2..]);
        let ahead = number.wrapping_sub(self.number);
        let is_ahead = 0 < ahead && ahead <= HALF;
        if is_ahead {
            self.number = number;
        }
        is_ahead
    }
}
