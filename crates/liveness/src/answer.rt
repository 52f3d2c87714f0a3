//! The answer to a receiver's reference time (RFC 3611, section 4.5), and where the stream of who gives it stands.
ghost use Rattle.std.specs.Prelude.{◌≡◌, IfSome};
ghost use Rattle.liveness.specs.Reports.{IsAnswer, answer_octets};

use byteorder::{ByteOrder, NetworkEndian};

/// How many octets it has.
pub const ANSWER: usize = 48;

/// The delay since a receiver's last report: an extended report under the SSRC of who answers, with the SSRC of who
/// asked, the middle 32 bits of the time that it gave, and how long ago that was heard, in 65536ths of a second. Behind
/// it stands a packet of this project's own (RFC 3550, section 6.7): the SSRC of the media whose packets or
/// retransmissions leave under that of who answers, and the first index of RTP there that is not of the past.
#[derive(Clone, Copy, Debug, PartialEq, Eq)]
pub struct Answer {
    pub ssrc: u32,
    pub receiver: u32,
    pub last: u32,
    pub delay: u32,
    pub media: u32,
    pub first: u64,
}

impl Answer {
    /// Its octets.
    pub fn write(&self) -> [u8; ANSWER]
        ensures { result ≡ answer_octets self.now }
    {
        let [a, b, c, d] = self.ssrc.to_be_bytes();
        let [e, f, g, h] = self.receiver.to_be_bytes();
        let [i, j, k, l] = self.last.to_be_bytes();
        let [m, n, o, p] = self.delay.to_be_bytes();
        let [q, r, s, t] = self.media.to_be_bytes();
        let [z0, z1, z2, z3, z4, z5, z6, z7] = self.first.to_be_bytes();
        [
            128, 207, 0, 5, a, b, c, d, 5, 0, 0, 3, e, f, g, h, i, j, k, l, m, n, o, p, 128, 204,
            0, 5, a, b, c, d, 71, 111, 122, 100, q, r, s, t, z0, z1, z2, z3, z4, z5, z6, z7,
        ]
    }

    /// The one that octets spell, all of them. None: they spell none, or have another report beside it.
    pub fn read(octets: &[u8]) -> Option<Answer>
        // What is read is spelled so.
        ensures spelled { IfSome result (λ answer. octets.now ≡ answer_octets answer) }
        // What is spelled so is read.
        ensures only { (answer : Answer) → IsAnswer answer → octets.now ≡ answer_octets answer → result ≡ Some answer }
    {
        if octets.len() != ANSWER {
            return None;
        }
        let answer = Answer {
            ssrc: NetworkEndian::read_u32(&octets[4..]),
            receiver: NetworkEndian::read_u32(&octets[12..]),
            last: NetworkEndian::read_u32(&octets[16..]),
            delay: NetworkEndian::read_u32(&octets[20..]),
            media: NetworkEndian::read_u32(&octets[36..]),
            first: NetworkEndian::read_u64(&octets[40..]),
        };
        if octets == &answer.write()[..] {
            Some(answer)
        } else {
            None
        }
    }
}
