// Leaving the replicas that become gone out of the set.
ghost use Rattle.std.specs.Prelude.{◌≡◌, cond};
ghost use Rattle.presence_base.specs.Order.{same_replica};
ghost use Rattle.orswot_core.specs.Sets.{without_replica};
ghost use Rattle.replica_status.specs.Boards.{standing_in};
ghost use Rattle.tracker_known.specs.Steps.{LosesReplicas, fades};

use crate::others::{Others, is_gone, is_same};
use orswot_core::Orswot;
use presence_base::Replica;
use presence_journal_lists::Standings;
use replica_status::Standing;

// Whether time makes a replica of this standing gone.
fn fades(standing: Standing, time: u64) -> bool
    ensures { result ≡ fades time standing }
{
    !is_gone(standing.status()) && is_gone(standing.ticked_at(time).status())
}

// Forgets the replica of this standing, where time makes it gone.
fn forget_if_faded(set: &mut Orswot, replica: &Replica, standing: Standing, time: u64)
    ensures { set.new ≡ cond (fades time standing) (without_replica set.old replica.now) set.old }
{
    if fades(standing, time) {
        set.forget(replica);
    }
}

// Forgets the replicas that time makes gone. Takes no memory.
pub(crate) fn forget_faded(set: &mut Orswot, standings: &Standings, time: u64)
    ensures { LosesReplicas set.old (λ r. fades time (standing_in standings.now r)) set.new }
{
    let others = standings.others();
    for (replica, standing) in others.iter() {
        forget_if_faded(set, replica, *standing, time);
    }
}

// Forgets the replica, if it is another than the own one.
pub(crate) fn forget_other(set: &mut Orswot, others: &Others, replica: &Replica)
    ensures { set.new ≡ cond (same_replica replica.now others.now.own) set.old (without_replica set.old replica.now) }
{
    if !is_same(replica, &others.own) {
        set.forget(replica);
    }
}
