//! The first four octets of an RTCP packet (RFC 3550, section 6.4.1; RFC 4585, section 6.1).
ghost use Rattle.std.specs.Prelude.{◌≡◌, ◌+◌, ◌*◌, ◌/◌, ◌%◌, ◌==◌, ◌<◌, ◌≤◌, length};
ghost use Rattle.fbwire.specs.Header.{is_nack as has_nack_header, packet_length};

use byteorder::{ByteOrder, NetworkEndian};

/// The packet type of transport layer feedback.
pub(crate) const RTPFB: u8 = 205;

/// The feedback message type of a generic NACK.
pub(crate) const GENERIC_NACK: u8 = 1;

/// A packet's first octet: V, the version, in its two highest bits; P; and in the lowest five the feedback
/// message type.
#[derive(Clone, Copy)]
pub(crate) struct FirstOctet(pub(crate) u8);

impl FirstOctet {
    /// That of a packet of version 2 without padding.
    pub(crate) fn new(message_type: u8) -> FirstOctet
        requires { message_type < 32 }
        ensures { result.0 ≡ 2 * 64 + message_type }
    {
        FirstOctet((2 << 6) + message_type)
    }

    pub(crate) fn version(self) -> u8
        ensures { result ≡ self.0 / 64 }
    {
        self.0 >> 6
    }

    pub(crate) fn is_padded(self) -> bool
        ensures { result ≡ (self.0 / 32 % 2 == 1) }
    {
        self.0 >> 5 & 1 == 1
    }

    pub(crate) fn message_type(self) -> u8
        ensures { result ≡ self.0 % 32 }
    {
        self.0 & 0x1f
    }
}

/// How many octets a packet has by its length field, which counts words of 32 bits, less one (RFC 3550,
/// section 6.4.1).
pub(crate) fn length_of(octets: &[u8]) -> usize
    requires { 4 ≤ length octets.now }
    ensures { result ≡ packet_length octets.now }
{
    4 * (usize::from(NetworkEndian::read_u16(&octets[2..])) + 1)
}

/// Whether a packet is a generic NACK by its header.
pub(crate) fn is_nack(octets: &[u8]) -> bool
    requires { 4 ≤ length octets.now }
    ensures { result ≡ has_nack_header octets.now }
{
    octets[1] == RTPFB && FirstOctet(octets[0]).message_type() == GENERIC_NACK
}
