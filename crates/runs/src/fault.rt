//! Why a run over a link stopped.
use stores::OutOfMemory;
use thiserror::Error;

/// The link failed. Its device was refused, or answered an error.
#[derive(Clone, Copy, Debug, PartialEq, Eq)]
pub struct LinkFault;

/// Why a run over a link was not done to its end.
#[derive(Clone, Copy, Debug, PartialEq, Eq, Error)]
pub enum DriveFault {
    /// The link failed.
    #[error("fault link")]
    Link,
    /// The allocator refused a growth.
    #[error("out of memory")]
    OutOfMemory,
}

impl From<LinkFault> for DriveFault {
    ghost use Rattle.std.specs.Prelude.{◌≡◌};
    ghost use Rattle.runs.specs.declared.fault.DriveFault.TheVariants as told;

    ghost from_gives = { λ _ fault. fault ≡ told.Link };

    fn from(_fault: LinkFault) -> DriveFault {
        DriveFault::Link
    }
}

impl From<OutOfMemory> for DriveFault {
    ghost use Rattle.std.specs.Prelude.{◌≡◌};
    ghost use Rattle.runs.specs.declared.fault.DriveFault.TheVariants as told;

    ghost from_gives = { λ _ fault. fault ≡ told.OutOfMemory };

    fn from(_want: OutOfMemory) -> DriveFault {
        DriveFault::OutOfMemory
    }
}
