//! Where a seat meets a shard for the first time.
ghost use Rattle.std.specs.Prelude.{◌≡◌, IfOk, IfErr};
ghost use Rattle.presence_base.specs.Refs.{IsCount};
ghost use Rattle.presence_journal.specs.History.{begun};
ghost use Rattle.tracker_shard.specs.declared.fault.ShardFault.TheVariants.{OutOfMemory};
ghost use Rattle.shard_pool.specs.Hands.{new_hands};

use crate::lane::Lane;
use crate::locked::Locked;
use crate::part::Part;
use crate::reply::PoolFault;
use presence_base::Replica;
use std::alloc::Global;
use std::sync::ledger::Blank;

/// A new shard of the replica, and for each seat from 0 its part there.
///
/// The shard begins with nothing. The blank has as many parts as there are seats. It refuses with `OutOfMemory` alone.
pub fn lent_start<L: Lane>(
    alloc: Global,
    own: Replica,
    shard: u32,
    seats: u32,
    blank: Blank,
) -> Result<(Locked<L>, Vec<Part<L>>), PoolFault>
    requires count { IsCount own.incarnation }
    requires name { (blank.name ≡ L.name) × (blank.parts ≡ L.parts) }
    requires node { own.name ≡ L.node }
    requires begins { L.begins (begun own) }
    requires seats { blank.parts ≡ seats }
    ensures shard { IfOk result (λ r. (r.0.shard ≡ begun own) × (r.0.calls.total ≡ 0)) }
    ensures parts { IfOk result (λ r. r.1.items ≡ new_hands shard seats) }
    ensures err { IfErr result (λ e. e ≡ OutOfMemory) }
{
    let (calls, mut all) = blank.open::<L>();
    let mut parts = Vec::new(alloc);
    for seat in 0..seats {
        let share = all.split_off(1, 0);
        if parts
            .push(Part::new(seat, shard, Vec::new(alloc), share))
            .is_err()
        {
            return Err(PoolFault::OutOfMemory);
        }
    }
    let locked = Locked::new(alloc, own, calls);
    Ok((locked, parts))
}
