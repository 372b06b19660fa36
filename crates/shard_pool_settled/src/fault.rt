//! Why receipts don't agree.
use std::alloc::AllocError;
use thiserror::Error;

/// Why receipts and journals were found apart.
#[derive(Clone, Copy, Debug, PartialEq, Eq, Error)]
pub enum SettleFault {
    #[error("a seat of the pool is missing")]
    MissingSeat,
    /// A receipt has no equal entry, or the numbers of one seat don't rise.
    #[error("a receipt has no entry of its number with its seat, step and outcome")]
    NoSuchEntry,
    /// A shard has more seated entries than there are receipts of it.
    #[error("a shard has another number of seated entries than of receipts")]
    CountDiffers,
    #[error("out of memory")]
    OutOfMemory,
}

impl From<AllocError> for SettleFault {
    ghost use Rattle.std.specs.Prelude.{◌≡◌};
    ghost use Rattle.shard_pool_settled.specs.declared.fault.SettleFault.TheVariants.{OutOfMemory};

    ghost from_gives = { λ e f. f ≡ OutOfMemory };

    fn from(_e: AllocError) -> SettleFault {
        SettleFault::OutOfMemory
    }
}
