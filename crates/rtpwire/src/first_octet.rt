//! The first octet of an RTP packet (RFC 3550, section 5.1), as it is read and written.
ghost use Rattle.std.specs.Prelude.{◌≡◌, ◌+◌, ◌*◌, ◌/◌, ◌%◌, ◌==◌, ◌≤◌};
ghost use Rattle.rtpwire.specs.Rtp.{bit};

use crate::limits::MAX_SOURCES;

/// V, the version, in its highest two bits; P; X; and CC in its lowest four.
#[derive(Clone, Copy)]
pub(crate) struct FirstOctet(pub(crate) u8);

impl FirstOctet {
    /// That of a packet of version 2 with so many sources.
    pub(crate) fn new(is_padded: bool, is_extended: bool, source_count: u8) -> FirstOctet
        requires { source_count ≤ MAX_SOURCES }
        ensures { result.0 ≡ 2 * 64 + 32 * bit is_padded + 16 * bit is_extended + source_count }
    {
        FirstOctet(
            (2 << 6) + (u8::from(is_padded) << 5) + (u8::from(is_extended) << 4) + source_count,
        )
    }

    pub(crate) fn version(self) -> u8
        ensures { result ≡ self.0 / 64 }
    {
        self.0 >> 6
    }

    pub(crate) fn is_padded(self) -> bool
        ensures { result ≡ (self.0 / 32 % 2 == 1) }
    {
        self.0 >> 5 & 1 == 1
    }

    pub(crate) fn is_extended(self) -> bool
        ensures { result ≡ (self.0 / 16 % 2 == 1) }
    {
        self.0 >> 4 & 1 == 1
    }

    pub(crate) fn source_count(self) -> usize
        ensures { result ≡ self.0 % 16 }
    {
        usize::from(self.0 & 0x0f)
    }
}
