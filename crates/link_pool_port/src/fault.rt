//! What a link is told of a refusal.
ghost use Rattle.std.specs.Prelude.{◌≡◌};
ghost use Rattle.link_pool_port.specs.Asking.{act_fault, told_of};

use node_links::ActFault;
use shard_pool::PoolFault;

// What a link is told of a refusal.
fn act_fault_of(fault: PoolFault) -> ActFault
    ensures { result ≡ act_fault fault }
{
    match fault {
        PoolFault::OutOfMemory => ActFault::OutOfMemory,
        _ => ActFault::ShardFull,
    }
}

/// What a link is told of a reply.
pub(crate) fn told<T>(reply: Result<T, PoolFault>) -> Result<T, ActFault>
    ensures { result ≡ told_of reply }
{
    match reply {
        Ok(value) => Ok(value),
        Err(fault) => Err(act_fault_of(fault)),
    }
}
