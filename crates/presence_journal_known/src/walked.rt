// The set that a history says, kept entry by entry.
ghost use Rattle.std.specs.Prelude.{◌≡◌, ◌∷◌, [], true, false, IfOk, OnOk, Some, None, ◌≤◌, ◌+◌, length, option_copied};
ghost use Rattle.std.specs.FinSet as dots_in;
ghost use Rattle.std.specs.FinMap as rows_in;
ghost use Rattle.orswot_core.specs.Limits.{is_dot};
ghost use Rattle.presence_journal.specs.History.{Begin, Then, onto, row_made, next_dot, with_prev};
ghost use Rattle.presence_journal.specs.Table.{IsLegal};
ghost use Rattle.presence_journal.specs.Walk.{tells};
ghost use Rattle.presence_journal_known.specs.ByDot.{row_with};
ghost use Rattle.presence_journal_known.specs.Walked.{Holds, IsMergeAfter, with_made, with_again, IsMadeWithin, told_in};

use crate::counts::used_after;
use crate::statuses::hears_after;
use orswot_core::{Orswot, ReplicaTest, Told};
use presence_base::{Dot, Key, Meta, Replica, Row, Topic};
use presence_journal::{Entry, Outcome, Start, Step, own_after};
use std::alloc::{AllocError, Global};

// The replicas of which these entries hear what is told.
#[derive(Drop)]
struct Heard<'a> {
    start: &'a Start,
    entries: &'a [Entry],
}

impl ReplicaTest for Heard<'_> {
    ghost use Rattle.std.specs.Prelude.{◌≡◌};
    ghost use Rattle.presence_journal.specs.History.{Begin, onto, hears};

    ghost picks = { λ t r. hears (onto (Begin t.start.now) t.entries.now) r };

    fn takes(&self, replica: &Replica) -> bool {
        hears_after(self.start, self.entries, replica)
    }
}

// The set of what a Start covers, with its live rows.
fn kept_set(alloc: Global, start: &Start) -> Result<Orswot, AllocError>
    ensures { IfOk result (Holds (Begin start.now)) }
{
    let mut set = Orswot::new(alloc);
    set.join(alloc, &start.content)?;
    Ok(set)
}

// Takes in what another node told after these entries.
fn join_heard(
    alloc: Global,
    set: &mut Orswot,
    start: &Start,
    entries: &[Entry],
    told: &Told,
) -> Result<(), AllocError>
    requires { Holds (onto (Begin start.now) entries.now) set.old }
    ensures { OnOk result (IsMergeAfter (onto (Begin start.now) entries.now) told.now set.new) }
{
    let heard = Heard { start, entries };
    set.join_some(alloc, told, &heard)?;
    Ok(())
}

/// The row of these fields.
pub fn row_of(
    pid: u64,
    topic: &Topic,
    key: &Key,
    meta: &Meta,
    prev: Option<Dot>,
) -> Result<Row, AllocError>
    ensures { IfOk result (λ r. r ≡ row_with pid topic.now key.now meta.now prev) }
{
    let topic = topic.clone()?;
    let key = key.clone()?;
    let meta = meta.clone()?;
    Ok(Row {
        topic,
        key,
        pid,
        meta,
        prev,
    })
}

/// The row that a step makes.
pub fn made_row(step: &Step, prev: Option<Dot>) -> Result<Option<Row>, AllocError>
    ensures { IfOk result (λ o. o ≡ row_made step.now prev) }
{
    match step {
        Step::Track {
            pid,
            topic,
            key,
            meta,
        }
        | Step::Update {
            pid,
            topic,
            key,
            meta,
        } => Ok(Some(row_of(*pid, topic, key, meta, prev)?)),
        _ => Ok(None),
    }
}

// Adds the row that a step makes under a dot.
fn add_made(
    alloc: Global,
    set: &mut Orswot,
    step: &Step,
    prev: Option<Dot>,
    dot: Dot,
) -> Result<(), AllocError>
    requires new { dots_in.contains set.old.covered dot ≡ false }
    requires dot { is_dot dot ≡ true }
    requires row { IsMadeWithin (row_made step.now prev) }
    ensures { OnOk result (set.new ≡ with_made set.old (row_made step.now prev) dot) }
{
    if let Some(row) = made_row(step, prev)? {
        set.add(alloc, dot, row)?;
    }
    Ok(())
}

// Takes in a track.
fn take_added(
    alloc: Global,
    set: &mut Orswot,
    start: &Start,
    entries: &[Entry],
    entry: &Entry,
    new: Dot,
) -> Result<(), AllocError>
    requires legal { IsLegal (Then (onto (Begin start.now) entries.now) entry.now) }
    requires holds { Holds (onto (Begin start.now) entries.now) set.old }
    requires outcome { entry.now.outcome ≡ Outcome.Added new }
    ensures { OnOk result (Holds (Then (onto (Begin start.now) entries.now) entry.now) set.new) }
{
    add_made(alloc, set, &entry.step, None, new)?;
    Ok(())
}

// The dot alone.
fn only(dot: &Dot) -> &[Dot]
    ensures { result.now ≡ dot.now ∷ [] }
{
    std::slice::from_ref(dot)
}

// Takes in an update.
fn take_replaced(
    alloc: Global,
    set: &mut Orswot,
    start: &Start,
    entries: &[Entry],
    entry: &Entry,
    new: &Dot,
    old: &Dot,
) -> Result<(), AllocError>
    requires legal { IsLegal (Then (onto (Begin start.now) entries.now) entry.now) }
    requires holds { Holds (onto (Begin start.now) entries.now) set.old }
    requires outcome { entry.now.outcome ≡ Outcome.Replaced new.now old.now }
    ensures { OnOk result (Holds (Then (onto (Begin start.now) entries.now) entry.now) set.new) }
{
    let dots = only(old);
    add_made(alloc, set, &entry.step, Some(*old), *new)?;
    set.remove(alloc, dots, *new)?;
    Ok(())
}

// Takes in an untrack, whose own count is the next one.
fn take_removed(
    alloc: Global,
    set: &mut Orswot,
    start: &Start,
    entries: &[Entry],
    entry: &Entry,
    dots: &[Dot],
    next: Dot,
) -> Result<(), AllocError>
    requires legal { IsLegal (Then (onto (Begin start.now) entries.now) entry.now) }
    requires holds { Holds (onto (Begin start.now) entries.now) set.old }
    requires some { 1 ≤ length dots.now }
    requires outcome { entry.now.outcome ≡ Outcome.Removed dots.now }
    requires next { next ≡ next_dot (onto (Begin start.now) entries.now) }
    ensures { OnOk result (Holds (Then (onto (Begin start.now) entries.now) entry.now) set.new) }
{
    set.remove(alloc, dots, next)?;
    Ok(())
}

// Takes in an untrack, which may have found nothing.
fn take_untracked(
    alloc: Global,
    set: &mut Orswot,
    start: &Start,
    entries: &[Entry],
    entry: &Entry,
    dots: &[Dot],
    next: Dot,
) -> Result<(), AllocError>
    requires legal { IsLegal (Then (onto (Begin start.now) entries.now) entry.now) }
    requires holds { Holds (onto (Begin start.now) entries.now) set.old }
    requires alone { tells entry.now.step ≡ false }
    requires outcome { entry.now.outcome ≡ Outcome.Removed dots.now }
    requires next { next ≡ next_dot (onto (Begin start.now) entries.now) }
    ensures { OnOk result (Holds (Then (onto (Begin start.now) entries.now) entry.now) set.new) }
{
    if dots.is_empty() {
        return Ok(());
    }
    take_removed(alloc, set, start, entries, entry, dots, next)
}

/// The row as it goes on under another dot: with the dot that it stood under before.
pub fn reborn_row(row: &Row, old: &Dot) -> Result<Row, AllocError>
    ensures { IfOk result (λ r. Some r ≡ with_prev old.now (Some row.now)) }
{
    let Row {
        topic,
        key,
        meta,
        ..
    } = row.clone()?;
    Ok(Row {
        topic,
        key,
        pid: row.pid,
        meta,
        prev: Some(*old),
    })
}

// Puts the row of the old dot under the new one, too.
fn add_again(alloc: Global, set: &mut Orswot, pair: &(Dot, Dot)) -> Result<(), AllocError>
    requires new { dots_in.contains set.old.covered pair.now.0 ≡ false }
    requires dot { is_dot pair.now.0 ≡ true }
    requires row { IsMadeWithin (with_prev pair.now.1 (rows_in.get set.old.live pair.now.1)) }
    ensures { OnOk result (set.new ≡ with_again set.old pair.now) }
{
    let Some(row) = set.row(&pair.1) else {
        return Ok(());
    };
    let row = reborn_row(row, &pair.1)?;
    set.add(alloc, pair.0, row)
}

// Takes in a rebirth.
fn take_reborn(
    alloc: Global,
    set: &mut Orswot,
    start: &Start,
    entries: &[Entry],
    entry: &Entry,
    pairs: &[(Dot, Dot)],
) -> Result<(), AllocError>
    requires legal { IsLegal (Then (onto (Begin start.now) entries.now) entry.now) }
    requires holds { Holds (onto (Begin start.now) entries.now) set.old }
    requires outcome { entry.now.outcome ≡ Outcome.Reborn pairs.now }
    ensures { OnOk result (Holds (Then (onto (Begin start.now) entries.now) entry.now) set.new) }
{
    for pair in pairs {
        add_again(alloc, set, pair)?;
    }
    Ok(())
}

// Takes in an entry that tells nothing, whose own count would be the next one.
fn take_own(
    alloc: Global,
    set: &mut Orswot,
    start: &Start,
    entries: &[Entry],
    entry: &Entry,
    next: Dot,
) -> Result<(), AllocError>
    requires legal { IsLegal (Then (onto (Begin start.now) entries.now) entry.now) }
    requires holds { Holds (onto (Begin start.now) entries.now) set.old }
    requires alone { tells entry.now.step ≡ false }
    requires next { next ≡ next_dot (onto (Begin start.now) entries.now) }
    ensures { OnOk result (Holds (Then (onto (Begin start.now) entries.now) entry.now) set.new) }
{
    match &entry.outcome {
        Outcome::Added(new) => take_added(alloc, set, start, entries, entry, *new.get()),
        Outcome::Replaced(new, old) => {
            take_replaced(alloc, set, start, entries, entry, new.get(), old.get())
        }
        Outcome::Removed(dots) => {
            take_untracked(alloc, set, start, entries, entry, dots.as_slice(), next)
        }
        Outcome::Reborn(pairs) => take_reborn(alloc, set, start, entries, entry, pairs.as_slice()),
        _ => Ok(()),
    }
}

// What a step tells.
fn told_by(step: &Step) -> Option<&Told>
    ensures { option_copied result ≡ told_in step.now }
{
    match step {
        Step::Merge { told } => Some(told.get()),
        _ => None,
    }
}

// Takes in an entry, whose own count would be the next one.
fn take_entry(
    alloc: Global,
    set: &mut Orswot,
    start: &Start,
    entries: &[Entry],
    entry: &Entry,
    next: Dot,
) -> Result<(), AllocError>
    requires legal { IsLegal (Then (onto (Begin start.now) entries.now) entry.now) }
    requires holds { Holds (onto (Begin start.now) entries.now) set.old }
    requires next { next ≡ next_dot (onto (Begin start.now) entries.now) }
    ensures { OnOk result (Holds (Then (onto (Begin start.now) entries.now) entry.now) set.new) }
{
    match told_by(&entry.step) {
        Some(told) => join_heard(alloc, set, start, entries, told),
        None => take_own(alloc, set, start, entries, entry, next),
    }
}

// The own dot of a count.
fn own_dot(own: &Replica, count: u64) -> Dot
    ensures { result ≡ record { replica = own.now; count = count } }
{
    Dot {
        replica: *own,
        count,
    }
}

// The set of what is known and live after these entries.
pub fn walk_set_of(alloc: Global, start: &Start, entries: &[Entry]) -> Result<Orswot, AllocError>
    requires { IsLegal (onto (Begin start.now) entries.now) }
    ensures { IfOk result (Holds (onto (Begin start.now) entries.now)) }
{
    let mut set = kept_set(alloc, start)?;
    let mut own = start.own;
    let mut used = start.count;
    for (place, entry) in entries.iter().enumerate() {
        let next = own_dot(&own, used + 1);
        take_entry(alloc, &mut set, start, &entries[..place], entry, next)?;
        own = own_after(&entry.step, own);
        used = used_after(&entry.outcome, used);
    }
    Ok(set)
}
