// What is known at a Start, from which a journal goes on.
ghost use Rattle.std.specs.Prelude.{◌≡◌, cond, IfOk};
ghost use Rattle.orswot_core.specs.Sets.{without_replica};
ghost use Rattle.replica_status.specs.Boards.{standing_in};
ghost use Rattle.presence_journal.specs.History.{Begin};
ghost use Rattle.presence_journal_lists.specs.Standings.{first_list, gone_list, gone_lives, standing_at};
ghost use Rattle.presence_journal_known.specs.LeftOut.{HoldsCovered, is_listed};
ghost use Rattle.tracker_known.specs.Standings.{AreOthersOf};
ghost use Rattle.tracker_known.specs.Starts.{is_gone_by};
ghost use Rattle.tracker_known.specs.Steps.{LosesReplicas};

use crate::others::{Others, is_gone};
use orswot_core::Orswot;
use presence_base::{NodeName, Replica};
use presence_journal::Start;
use presence_journal_lists::{Lives, Standings};
use replica_status::Standing;
use std::alloc::{AllocError, Global};
use std::collections::BTreeMap;

// The others at a Start: what is listed, but for the own replica.
pub(crate) fn others_of(start: &Start) -> Result<Others, AllocError>
    ensures { IfOk result (AreOthersOf (Begin start.now)) }
{
    let mut standings = start.standings.clone()?;
    standings.forget(&start.own);
    Ok(Others {
        own: start.own,
        time: start.time,
        standings,
    })
}

// Forgets the replica, where it is gone by this standing.
fn forget_if_gone(set: &mut Orswot, replica: &Replica, standing: Standing)
    ensures { set.new ≡ cond (is_gone_by standing) (without_replica set.old replica.now) set.old }
{
    if is_gone(standing.status()) {
        set.forget(replica);
    }
}

// Forgets these lives, one of each name.
fn forget_first(set: &mut Orswot, first: &BTreeMap<NodeName, u64>)
    ensures { LosesReplicas set.old (is_listed (first_list first.now.entries)) set.new }
{
    for (name, life) in first.iter() {
        let replica = Replica {
            name: *name,
            incarnation: *life,
        };
        set.forget(&replica);
    }
}

// Forgets the lives of a name.
fn forget_lives(set: &mut Orswot, name: &NodeName, lives: &[u64])
    ensures { LosesReplicas set.old (is_listed (gone_lives name.now lives.now)) set.new }
{
    for life in lives {
        let replica = Replica {
            name: *name,
            incarnation: *life,
        };
        set.forget(&replica);
    }
}

// Forgets the lives of these names.
fn forget_names(set: &mut Orswot, names: &BTreeMap<NodeName, Lives>)
    ensures { LosesReplicas set.old (is_listed (gone_list names.now.entries)) set.new }
{
    for (name, lives) in names.iter() {
        forget_lives(set, name, lives.as_slice());
    }
}

// Forgets those of these replicas that are gone by their standings.
fn forget_others(set: &mut Orswot, others: &BTreeMap<Replica, Standing>)
    ensures { LosesReplicas set.old (λ r. is_gone_by (standing_at others.now r)) set.new }
{
    for (replica, standing) in others.iter() {
        forget_if_gone(set, replica, *standing);
    }
}

// Forgets the replicas that are gone by their standings. Takes no memory.
fn forget_gone(set: &mut Orswot, standings: &Standings)
    ensures { LosesReplicas set.old (λ r. is_gone_by (standing_in standings.now r)) set.new }
{
    let (gone, others) = standings.parts();
    forget_first(set, &gone.first);
    forget_names(set, &gone.further);
    forget_others(set, others);
}

// The set of what is covered at a Start.
pub(crate) fn set_of(alloc: Global, start: &Start, others: &Others) -> Result<Orswot, AllocError>
    requires { AreOthersOf (Begin start.now) others.now }
    ensures { IfOk result (HoldsCovered (Begin start.now)) }
{
    let mut set = Orswot::new(alloc);
    set.join(alloc, &start.content)?;
    forget_gone(&mut set, &others.standings);
    Ok(set)
}
