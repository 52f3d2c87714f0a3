ghost use Rattle.std.specs.Prelude.{◌≡◌};

/// Why octets are no generic NACK, or none for this session: the first check that they fail, in this order
/// (RFC 4585, sections 6.1 and 6.2.1).
#[derive(Clone, Copy, Debug, PartialEq, Eq, Hash)]
pub enum FeedbackFault {
    /// Fewer octets than the headers have.
    Short,
    /// The version is not 2.
    Version,
    /// The packet is padded. (The standard allows it; this project refuses it.)
    Padded,
    /// The packet type is not 205, transport layer feedback.
    NotRtpfb,
    /// The feedback message type is not 1, generic NACK.
    NotNack,
    /// The length field does not fit the octets.
    Length,
    /// The packet has no pair.
    Empty,
    /// It is a NACK for another source than the session's media. No reader answers it: only an end that knows
    /// its session can.
    WrongMedia,
    /// Else, it is from another reporter than the session's receiver. No reader answers it either.
    WrongReporter,
}

impl FeedbackFault {
    ghost use Rattle.fbwire.specs.Fault.{feedback_number};

    /// Its refusal number.
    pub fn number(&self) -> u8
        ensures { result ≡ feedback_number self.now }
    {
        match self {
            FeedbackFault::Short => 11,
            FeedbackFault::Version => 12,
            FeedbackFault::Padded => 13,
            FeedbackFault::NotRtpfb => 14,
            FeedbackFault::NotNack => 15,
            FeedbackFault::Length => 16,
            FeedbackFault::Empty => 17,
            FeedbackFault::WrongMedia => 18,
            FeedbackFault::WrongReporter => 19,
        }
    }
}
