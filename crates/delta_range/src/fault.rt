//! Why two aren't joined.
use std::alloc::AllocError;
use std::fmt;
use thiserror::Error;

/// Why two deltas are not joined: the first that applies, in this order. Memory may run out only where
/// nothing else is wrong.
#[derive(Clone, Copy, PartialEq, Eq, Debug, Drop, Error)]
pub enum DeltaFault {
    #[error("deltas of two owners")]
    OtherOwner,
    #[error("a delta that does not begin where the one before it ends")]
    NotContiguous,
    #[error("out of memory")]
    OutOfMemory,
}

impl From<AllocError> for DeltaFault {
    ghost use Rattle.std.specs.Prelude.{◌≡◌};
    ghost use Rattle.delta_range.specs.declared.fault.DeltaFault.TheVariants.{OutOfMemory};

    ghost from_gives = { λ _ e. e ≡ OutOfMemory };

    fn from(_e: AllocError) -> DeltaFault {
        DeltaFault::OutOfMemory
    }
}
