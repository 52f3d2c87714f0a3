ghost use Rattle.std.specs.Prelude.{◌≡◌};

/// Why a content is not sent: the first check that it fails, in this order. The sender is then as it was.
#[derive(Clone, Copy, Debug, PartialEq, Eq, Hash)]
pub enum SendFault {
    /// 44: padding is wanted, and the payload is empty.
    PaddedEmpty,
    /// 45: there is no place left.
    Exhausted,
}

impl SendFault {
    ghost use Rattle.sender.specs.Fault.{send_number};

    /// Its refusal number.
    pub fn number(&self) -> u8
        ensures { result ≡ send_number self.now }
    {
        match self {
            SendFault::PaddedEmpty => 44,
            SendFault::Exhausted => 45,
        }
    }
}
