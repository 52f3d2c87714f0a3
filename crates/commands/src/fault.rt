//! Why a script could not be done.
use stores::OutOfMemory;
use thiserror::Error;

/// Why a script was not done to its end.
#[derive(Clone, Copy, Debug, PartialEq, Eq, Error)]
pub enum SimFault {
    /// The line of this number, counted from 1, is refused (61).
    #[error("refused 61 line {0}")]
    BadLine(u64),
    /// The reader failed.
    #[error("fault input")]
    Read,
    /// The writer failed, or took nothing.
    #[error("fault output")]
    Write,
    /// The allocator refused a growth.
    #[error("out of memory")]
    OutOfMemory,
}

impl From<OutOfMemory> for SimFault {
    ghost use Rattle.std.specs.Prelude.{◌≡◌};
    ghost use Rattle.commands.specs.declared.fault.SimFault.TheVariants as told;

    ghost from_gives = { λ _ fault. fault ≡ told.OutOfMemory };

    fn from(_want: OutOfMemory) -> SimFault {
        SimFault::OutOfMemory
    }
}
