//! Why pairs of payload types are refused.
ghost use Rattle.std.specs.Prelude.{◌≡◌};

/// Why pairs are no payload types of a session: the first check that they fail, in this order.
#[derive(Clone, Copy, Debug, PartialEq, Eq, Hash)]
pub enum TypesFault {
    /// There is none, or there are more than sixteen.
    Count,
    /// A type of the media is in 64 to 95 or above 127, or one of the retransmissions is not in 96 to 127.
    BadType,
    /// A type stands twice.
    SameType,
}

impl TypesFault {
    ghost use Rattle.payload_types.specs.Fault.{types_number};

    /// Its refusal number.
    pub fn number(&self) -> u8
        ensures { result ≡ types_number self.now }
    {
        match self {
            TypesFault::Count => 54,
            TypesFault::BadType => 55,
            TypesFault::SameType => 56,
        }
    }
}
