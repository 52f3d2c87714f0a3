//! The datagrams of the rows, by what tells them from one another.
use relays::Octets;

/// A datagram of the session.
#[derive(Clone, Copy)]
pub(crate) enum Packet {
    /// Media with this number, and this octet as its timestamp and its payload.
    Media(u16, u8),
    /// The retransmission of it.
    Repair(u16, u8),
    /// Media with this number and timestamp.
    Stamped(u16, u32),
    /// The retransmission of it.
    Repaired(u16, u32),
    /// A NACK that names one number.
    Nack(u16),
    /// A packet of an application with this number, of 1200 octets.
    Long(u16),
    /// These octets.
    These(&'static [u8]),
}

/// A media packet with this number, timestamp and payload.
fn media(seq: u16, timestamp: u32, octet: u8) -> [u8; 13] {
    let [high, low] = seq.to_be_bytes();
    let [a, b, c, d] = timestamp.to_be_bytes();
    [
        0x80, 0x21, high, low, a, b, c, d, 0x11, 0x11, 0x11, 0x11, octet,
    ]
}

/// Its retransmission (RFC 4588, section 4).
fn repair(seq: u16, timestamp: u32, octet: u8) -> [u8; 15] {
    let [high, low] = seq.to_be_bytes();
    let [a, b, c, d] = timestamp.to_be_bytes();
    [
        0x80, 0x7f, 0, 7, a, b, c, d, 0x22, 0x22, 0x22, 0x22, high, low, octet,
    ]
}

fn nack(seq: u16) -> [u8; 16] {
    let [high, low] = seq.to_be_bytes();
    [
        0x81, 0xcd, 0, 3, 0x33, 0x33, 0x33, 0x33, 0x11, 0x11, 0x11, 0x11, high, low, 0, 0,
    ]
}

fn long(seq: u16) -> [u8; 1200] {
    let mut octets = [0; 1200];
    octets[..12].copy_from_slice(b"\x80\x21\x00\x00\x00\x00\x00\xc8\x0a\x0b\x0c\x0d");
    octets[2..4].copy_from_slice(&seq.to_be_bytes());
    octets
}

impl Packet {
    /// Its octets. What is longer than a datagram has none.
    pub(crate) fn octets(self) -> Octets {
        let mut octets = Octets::new();
        let _ = match self {
            Packet::Media(seq, octet) => {
                octets.try_extend_from_slice(&media(seq, u32::from(octet), octet))
            }
            Packet::Repair(seq, octet) => {
                octets.try_extend_from_slice(&repair(seq, u32::from(octet), octet))
            }
            Packet::Stamped(seq, timestamp) => {
                octets.try_extend_from_slice(&media(seq, timestamp, 7))
            }
            Packet::Repaired(seq, timestamp) => {
                octets.try_extend_from_slice(&repair(seq, timestamp, 7))
            }
            Packet::Nack(seq) => octets.try_extend_from_slice(&nack(seq)),
            Packet::Long(seq) => octets.try_extend_from_slice(&long(seq)),
            Packet::These(these) => octets.try_extend_from_slice(these),
        };
        octets
    }
}
