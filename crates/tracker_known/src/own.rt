// What an entry of the own replica, or one that tells of others, makes of the set.
ghost use Rattle.std.specs.Prelude.{◌≡◌, true, false, IfOk, OnOk, OnErr, None, length};
ghost use Rattle.std.specs.FinSet as dots_in;
ghost use Rattle.orswot_core.specs.Limits.{is_dot};
ghost use Rattle.presence_journal.specs.History.{row_made};
ghost use Rattle.presence_journal.specs.Laws.{is_callers};
ghost use Rattle.presence_journal_known.specs.Walked.{with_made, IsMadeWithin};
ghost use Rattle.orswot_core.specs.Checks.{IsTold};
ghost use Rattle.tracker_known.specs.Steps.{CanTake, Takes, TakesMerge, told_swap};

use crate::others::Others;
use orswot_core::{Orswot, ReplicaTest, Told};
use presence_base::{Dot, Replica, Row};
use presence_journal::{Entry, Outcome, Step};
use presence_journal_known::made_row;
use std::alloc::{AllocError, Global};

// The replicas of which what is told is heard.
#[derive(Drop)]
struct Heard<'a> {
    others: &'a Others,
}

impl ReplicaTest for Heard<'_> {
    ghost use Rattle.std.specs.Prelude.{◌≡◌};
    ghost use Rattle.tracker_known.specs.Standings.{hears_at};

    ghost picks = { λ t r. hears_at t.others.now r };

    fn takes(&self, replica: &Replica) -> bool {
        self.others.hears(replica)
    }
}

// Takes in what another node told.
pub(crate) fn join_heard(
    alloc: Global,
    set: &mut Orswot,
    others: &Others,
    told: &Told,
) -> Result<(), AllocError>
    ensures ok { OnOk result (TakesMerge set.old others.now told.now set.new) }
    ensures err { OnErr result (set.new ≡ set.old) }
{
    let heard = Heard { others };
    set.join_some(alloc, told, &heard)
}

// Adds the row that a step makes under a dot.
fn add_made(alloc: Global, set: &mut Orswot, step: &Step, dot: Dot) -> Result<(), AllocError>
    requires new { dots_in.contains set.old.covered dot ≡ false }
    requires dot { is_dot dot ≡ true }
    requires row { IsMadeWithin (row_made step.now None) }
    ensures ok { OnOk result (set.new ≡ with_made set.old (row_made step.now None) dot) }
    ensures err { OnErr result (set.new ≡ set.old) }
{
    if let Some(row) = made_row(step, None)? {
        set.add(alloc, dot, row)?;
    }
    Ok(())
}

// Takes in a track.
fn take_added(
    alloc: Global,
    set: &mut Orswot,
    entry: &Entry,
    new: Dot,
    next: Dot,
) -> Result<(), AllocError>
    requires follows { CanTake next set.old entry.now }
    requires own { is_callers entry.now.step ≡ true }
    requires outcome { entry.now.outcome ≡ Outcome.Added new }
    ensures ok { OnOk result (Takes next set.old entry.now set.new) }
    ensures err { OnErr result (set.new ≡ set.old) }
{
    add_made(alloc, set, &entry.step, new)
}

// What is told of an update: both dots, and the row under the new one.
fn swap(alloc: Global, new: &Dot, old: &Dot, row: Row) -> Result<Told, AllocError>
    requires { IsTold (told_swap new.now old.now row) }
    ensures { IfOk result (λ t. t ≡ told_swap new.now old.now row) }
{
    let mut extras = Vec::new(alloc);
    extras.push(*new)?;
    extras.push(*old)?;
    let mut live = Vec::new(alloc);
    live.push((*new, row))?;
    Ok(Told::new(Vec::new(alloc), extras, live))
}

// Takes in an update, as a join with what is told of it, so that a refusal leaves the set as it was.
fn take_replaced(
    alloc: Global,
    set: &mut Orswot,
    entry: &Entry,
    new: &Dot,
    old: &Dot,
    next: Dot,
) -> Result<(), AllocError>
    requires follows { CanTake next set.old entry.now }
    requires own { is_callers entry.now.step ≡ true }
    requires outcome { entry.now.outcome ≡ Outcome.Replaced new.now old.now }
    ensures ok { OnOk result (Takes next set.old entry.now set.new) }
    ensures err { OnErr result (set.new ≡ set.old) }
{
    let Some(row) = made_row(&entry.step, Some(*old))? else {
        return Ok(());
    };
    let told = swap(alloc, new, old, row)?;
    set.join(alloc, &told)
}

// Takes in an untrack, which may have found nothing.
fn take_removed(
    alloc: Global,
    set: &mut Orswot,
    entry: &Entry,
    dots: &[Dot],
    next: Dot,
) -> Result<(), AllocError>
    requires follows { CanTake next set.old entry.now }
    requires own { is_callers entry.now.step ≡ true }
    requires outcome { entry.now.outcome ≡ Outcome.Removed dots.now }
    ensures ok { OnOk result (Takes next set.old entry.now set.new) }
    ensures err { OnErr result (set.new ≡ set.old) }
{
    if dots.is_empty() {
        return Ok(());
    }
    set.remove(alloc, dots, next)
}

// Takes in an entry of the own replica alone, whose own count would be the next one. A refusal leaves the set
// as it was.
pub(crate) fn take_own(
    alloc: Global,
    set: &mut Orswot,
    entry: &Entry,
    next: Dot,
) -> Result<(), AllocError>
    requires follows { CanTake next set.old entry.now }
    requires own { is_callers entry.now.step ≡ true }
    ensures ok { OnOk result (Takes next set.old entry.now set.new) }
    ensures err { OnErr result (set.new ≡ set.old) }
{
    match &entry.outcome {
        Outcome::Added(new) => take_added(alloc, set, entry, *new.get(), next),
        Outcome::Replaced(new, old) => {
            take_replaced(alloc, set, entry, new.get(), old.get(), next)
        }
        Outcome::Removed(dots) => take_removed(alloc, set, entry, dots.as_slice(), next),
        _ => Ok(()),
    }
}
