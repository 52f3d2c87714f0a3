ghost use Rattle.std.specs.Prelude.{◌≡◌};

use srtp::SrtpFault;

/// Why a packet is not protected, or is not taken.
#[derive(Clone, Copy, Debug, PartialEq, Eq, Hash)]
pub enum ContextFault {
    /// SRTP refuses it.
    Refused(SrtpFault),
    /// Under this key packets were protected under as many SSRCs as are known at most, and none may be forgotten: it
    /// must be replaced.
    Full,
    /// The allocator refused the memory for another SSRC.
    OutOfMemory,
}

impl ContextFault {
    ghost use Rattle.contexts.specs.Fault.{context_fault_number};

    /// Its refusal number.
    pub fn number(&self) -> u8
        ensures { result ≡ context_fault_number self.now }
    {
        match self {
            ContextFault::Refused(fault) => fault.number(),
            ContextFault::Full => 100,
            ContextFault::OutOfMemory => 101,
        }
    }
}
