//! What a refusal of a shard's means to a life.
ghost use Rattle.std.specs.Prelude.{◌≡◌, OnOk, OnErr};

use std::alloc::AllocError;
use tracker_shard::ShardFault;

/// A call that was refused for good; else memory ran out.
pub(crate) fn refused(fault: ShardFault) -> Result<(), AllocError>
    ensures memory { OnErr result (fault ≡ ShardFault.OutOfMemory) }
    ensures good { OnOk result (fault ≡ ShardFault.OutOfMemory → ⊥) }
{
    match fault {
        ShardFault::OutOfMemory => Err(AllocError),
        _ => Ok(()),
    }
}
