ghost use Rattle.std.specs.Prelude.{◌≡◌};

/// Why octets are no RTP packet: the first check that they fail, in this order (RFC 3550, section 5.1
/// and appendix A.1).
#[derive(Clone, Copy, Debug, PartialEq, Eq, Hash)]
pub enum RtpFault {
    /// Fewer than the twelve octets of a fixed header.
    Short,
    /// The version is not 2.
    Version,
    /// The CSRC list does not fit.
    CsrcList,
    /// The header extension does not fit: its first four octets, or its words.
    Extension,
    /// The padding counts no octets, or leaves no payload.
    Padding,
    /// It is a packet and no retransmission: its payload has fewer than the two octets of an original's
    /// sequence number (RFC 4588, section 4). Only [`RtxView::read`](crate::RtxView::read) answers it.
    NoOsn,
}

impl RtpFault {
    ghost use Rattle.rtpwire.specs.Fault.{rtp_number};

    /// Its refusal number.
    pub fn number(&self) -> u8
        ensures { result ≡ rtp_number self.now }
    {
        match self {
            RtpFault::Short => 1,
            RtpFault::Version => 2,
            RtpFault::CsrcList => 3,
            RtpFault::Extension => 4,
            RtpFault::Padding => 5,
            RtpFault::NoOsn => 6,
        }
    }
}

/// Why a stream is no frames (RFC 4571, section 2).
#[derive(Clone, Copy, Debug, PartialEq, Eq, Hash)]
pub enum FrameFault {
    /// It ends in the middle of a frame.
    Truncated,
    /// A length is above [`MAX_DATAGRAM`](crate::MAX_DATAGRAM) (a limit of this project).
    FrameTooLong,
}

impl FrameFault {
    ghost use Rattle.rtpwire.specs.Fault.{frame_number};

    /// Its refusal number.
    pub fn number(&self) -> u8
        ensures { result ≡ frame_number self.now }
    {
        match self {
            FrameFault::Truncated => 21,
            FrameFault::FrameTooLong => 22,
        }
    }
}

/// Why no [`Content`](crate::Content) holds what a packet carries.
#[derive(Clone, Copy, Debug, PartialEq, Eq, Hash)]
pub enum ContentFault {
    /// The payload has more than [`MAX_PAYLOAD`](crate::MAX_PAYLOAD) octets, or the header extension more than
    /// [`MAX_WORDS`](crate::MAX_WORDS) words.
    TooLong,
}

impl ContentFault {
    ghost use Rattle.rtpwire.specs.Fault.{content_number};

    /// Its refusal number.
    pub fn number(&self) -> u8
        ensures { result ≡ content_number self.now }
    {
        match self {
            ContentFault::TooLong => 37,
        }
    }
}

/// Why a configuration is refused: the first check that it fails, in this order.
#[derive(Clone, Copy, Debug, PartialEq, Eq, Hash)]
pub enum ConfigFault {
    /// A payload type is none that the session may have (96 to 127, or any for media but 64 to 95), or both are equal.
    BadType,
    /// Two of the SSRCs are equal.
    SameSsrc,
    /// A limit of an end is not met. (A session has none.)
    BadLimit,
}

impl ConfigFault {
    ghost use Rattle.rtpwire.specs.Fault.{config_number};

    /// Its refusal number.
    pub fn number(&self) -> u8
        ensures { result ≡ config_number self.now }
    {
        match self {
            ConfigFault::BadType => 51,
            ConfigFault::SameSsrc => 52,
            ConfigFault::BadLimit => 53,
        }
    }
}

/// Why a datagram is not written to the front of a slice: it is shorter than the datagram.
#[derive(Clone, Copy, Debug, PartialEq, Eq, Hash)]
pub struct TooShort {
    /// How many octets the datagram has.
    pub needed: usize,
}

impl TooShort {
    ghost use Rattle.rtpwire.specs.Fault.{room_number};

    /// Its refusal number.
    pub fn number(&self) -> u8
        ensures { result ≡ room_number }
    {
        75
    }
}
