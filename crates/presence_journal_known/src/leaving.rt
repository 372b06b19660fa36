// Leaving the replicas that are gone out of a set.
ghost use Rattle.std.specs.Prelude.{◌≡◌, Some, IfOk, option_copied};
ghost use Rattle.presence_journal.specs.History.{Begin, onto};
ghost use Rattle.presence_journal.specs.Table.{IsLegal};
ghost use Rattle.presence_journal_lists.specs.Standings.{first_list, gone_list, gone_lives};
ghost use Rattle.presence_journal_known.specs.LeftOut.{HoldsCovered, LeavesListed, LeavesOut, without_gone, named_by, is_named, none_left};
ghost use Rattle.presence_journal_known.specs.Walked.{Holds};

use crate::statuses::{is_gone, status_after};
use crate::walked::walk_set_of;
use orswot_core::Orswot;
use presence_base::{NodeName, Replica};
use presence_journal::{Entry, Journal, Start, Step, own_after};
use presence_journal_lists::Lives;
use replica_status::Standing;
use std::alloc::{AllocError, Global};
use std::collections::BTreeMap;

// Forgets the replica, where it is gone after these entries.
fn forget_gone(set: &mut Orswot, start: &Start, entries: &[Entry], replica: &Replica)
    ensures { set.new ≡ without_gone (onto (Begin start.now) entries.now) set.old (Some replica.now) }
{
    if is_gone(status_after(start, entries, replica)) {
        set.forget(replica);
    }
}

// The replica that a step hears or puts down, where this is the own one before it.
fn named_by<'a>(own: &'a Replica, step: &'a Step) -> Option<&'a Replica>
    ensures { option_copied result ≡ named_by own.now step.now }
{
    match step {
        Step::Heard { replica, .. } => Some(replica.get()),
        Step::PermDown { replica } => Some(replica.get()),
        Step::Rebirth { .. } => Some(own),
        _ => None,
    }
}

// Forgets the replica that a step names, where it is gone after these entries.
fn forget_named(set: &mut Orswot, start: &Start, entries: &[Entry], own: &Replica, step: &Step)
    ensures { set.new ≡ without_gone (onto (Begin start.now) entries.now) set.old (named_by own.now step.now) }
{
    if let Some(replica) = named_by(own, step) {
        forget_gone(set, start, entries, replica);
    }
}

// Forgets those of these lives that are gone, one of each name.
fn leave_out_first(
    set: &mut Orswot,
    start: &Start,
    entries: &[Entry],
    first: &BTreeMap<NodeName, u64>,
)
    ensures { LeavesListed (onto (Begin start.now) entries.now) (first_list first.now.entries) set.old set.new }
{
    for (name, life) in first.iter() {
        let replica = Replica {
            name: *name,
            incarnation: *life,
        };
        forget_gone(set, start, entries, &replica);
    }
}

// Forgets those of a name's lives that are gone.
fn leave_out_lives(
    set: &mut Orswot,
    start: &Start,
    entries: &[Entry],
    name: &NodeName,
    lives: &[u64],
)
    ensures { LeavesListed (onto (Begin start.now) entries.now) (gone_lives name.now lives.now) set.old set.new }
{
    for life in lives {
        let replica = Replica {
            name: *name,
            incarnation: *life,
        };
        forget_gone(set, start, entries, &replica);
    }
}

// Forgets those of the lives of these names that are gone.
fn leave_out_names(
    set: &mut Orswot,
    start: &Start,
    entries: &[Entry],
    names: &BTreeMap<NodeName, Lives>,
)
    ensures { LeavesListed (onto (Begin start.now) entries.now) (gone_list names.now.entries) set.old set.new }
{
    for (name, lives) in names.iter() {
        leave_out_lives(set, start, entries, name, lives.as_slice());
    }
}

// Forgets those of these replicas that are gone.
fn leave_out_others(
    set: &mut Orswot,
    start: &Start,
    entries: &[Entry],
    others: &BTreeMap<Replica, Standing>,
)
    ensures { LeavesListed (onto (Begin start.now) entries.now) others.now.entries set.old set.new }
{
    for (replica, _standing) in others.iter() {
        forget_gone(set, start, entries, replica);
    }
}

// Forgets those of the listed replicas that are gone.
fn leave_out_listed(set: &mut Orswot, start: &Start, entries: &[Entry])
    requires { Holds (onto (Begin start.now) entries.now) set.old }
    ensures { LeavesOut (onto (Begin start.now) entries.now) (is_named start.now.own entries.now) set.new }
{
    let (gone, others) = start.standings.parts();
    leave_out_first(set, start, entries, &gone.first);
    leave_out_names(set, start, entries, &gone.further);
    leave_out_others(set, start, entries, others);
}

// Forgets those of the named replicas that are gone.
fn leave_out_named(set: &mut Orswot, start: &Start, entries: &[Entry])
    requires { LeavesOut (onto (Begin start.now) entries.now) (is_named start.now.own entries.now) set.old }
    ensures { LeavesOut (onto (Begin start.now) entries.now) none_left set.new }
{
    let mut own = start.own;
    for entry in entries {
        forget_named(set, start, entries, &own, &entry.step);
        own = own_after(&entry.step, own);
    }
}

// The set of what is covered after these entries.
pub(crate) fn covered_set(
    alloc: Global,
    start: &Start,
    entries: &[Entry],
) -> Result<Orswot, AllocError>
    requires { IsLegal (onto (Begin start.now) entries.now) }
    ensures { IfOk result (HoldsCovered (onto (Begin start.now) entries.now)) }
{
    let mut set = walk_set_of(alloc, start, entries)?;
    leave_out_listed(&mut set, start, entries);
    leave_out_named(&mut set, start, entries);
    Ok(set)
}

/// The set of the dots that are covered and the rows that are live, those of replicas that are gone left out.
pub fn walk_set(alloc: Global, journal: &Journal) -> Result<Orswot, AllocError>
    ensures { IfOk result (HoldsCovered journal.now) }
{
    covered_set(alloc, journal.start(), journal.entries())
}
