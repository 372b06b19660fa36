// The turn of an entry of the own replica, and of one that hears of others.
ghost use Rattle.std.specs.Prelude.{◌≡◌, ◌&&◌, not, IfOk, OnOk};
ghost use Rattle.presence_journal.specs.History.{row_added, has_dot};
ghost use Rattle.presence_journal.specs.Present.{dots_taken};
ghost use Rattle.tracker_known.specs.Picks.{Gathers, IsPick, of_replica, of_replica_if, drops, of_dropped, made_rows};
ghost use Rattle.tracker_shown.specs.Turns.{IsListOf};

use crate::gather::{gather_dots, gather_replica, listed};
use crate::others::is_up;
use orswot_core::Orswot;
use presence_base::{Dot, Replica, Row};
use presence_journal::{Entry, Outcome, Step};
use presence_journal_known::made_row;
use presence_journal_lists::Standings;
use replica_status::{Standing, Status};
use std::alloc::{AllocError, Global};
use std::collections::BTreeMap;
use tracker_shown::Turn;

// The row that a step makes under a dot, as a list.
fn made_under(
    alloc: Global,
    step: &Step,
    prev: Option<Dot>,
    dot: Dot,
) -> Result<Vec<(Dot, Row)>, AllocError>
    ensures { IfOk result (λ v. v.items ≡ made_rows step.now prev dot) }
{
    let mut rows = Vec::new(alloc);
    if let Some(row) = made_row(step, prev)? {
        rows.push((dot, row))?;
    }
    Ok(rows)
}

/// The row that an entry adds, as a list.
pub fn rows_added(alloc: Global, entry: &Entry) -> Result<Vec<(Dot, Row)>, AllocError>
    ensures { IfOk result (λ v. IsListOf (row_added entry.now.step entry.now.outcome) v.items) }
{
    match &entry.outcome {
        Outcome::Added(new) => made_under(alloc, &entry.step, None, *new.get()),
        Outcome::Replaced(new, old) => {
            made_under(alloc, &entry.step, Some(*old.get()), *new.get())
        }
        _ => Ok(Vec::new(alloc)),
    }
}

// The dots of the rows that an outcome takes out.
fn dots_taken(outcome: &Outcome) -> &[Dot]
    ensures { result.now ≡ dots_taken outcome.now }
{
    match outcome {
        Outcome::Replaced(_, old) => std::slice::from_ref(old.get()),
        Outcome::Removed(dots) => dots.as_slice(),
        _ => &[],
    }
}

/// The rows that an outcome takes out.
pub fn rows_taken(
    alloc: Global,
    set: &Orswot,
    outcome: &Outcome,
) -> Result<Vec<(Dot, Row)>, AllocError>
    ensures { IfOk result (λ v. IsPick set.now.live (has_dot (dots_taken outcome.now)) v.items) }
{
    let mut rows = BTreeMap::new(alloc);
    gather_dots(&mut rows, set, dots_taken(outcome))?;
    listed(alloc, &rows)
}

/// The rows of a replica.
pub fn rows_of_replica(
    alloc: Global,
    set: &Orswot,
    replica: &Replica,
) -> Result<Vec<(Dot, Row)>, AllocError>
    ensures { IfOk result (λ v. IsPick set.now.live (of_replica replica.now) v.items) }
{
    let mut rows = BTreeMap::new(alloc);
    gather_replica(&mut rows, set, replica)?;
    listed(alloc, &rows)
}

// The rows of a replica, where they are wanted.
fn rows_where(
    alloc: Global,
    set: &Orswot,
    replica: &Replica,
    is_wanted: bool,
) -> Result<Vec<(Dot, Row)>, AllocError>
    ensures { IfOk result (λ v. IsPick set.now.live (of_replica_if replica.now is_wanted) v.items) }
{
    if !is_wanted {
        return Ok(Vec::new(alloc));
    }
    let mut rows = BTreeMap::new(alloc);
    gather_replica(&mut rows, set, replica)?;
    listed(alloc, &rows)
}

// Whether it is so now, and was not.
fn begins(was: bool, is: bool) -> bool
    ensures { result ≡ (not was && is) }
{
    !was && is
}

// Whether it was so, and is not now.
fn ends(was: bool, is: bool) -> bool
    ensures { result ≡ (was && not is) }
{
    was && !is
}

/// The turn of one replica, by whether it was up and is now.
pub fn turn_of_replica(
    alloc: Global,
    set: &Orswot,
    replica: &Replica,
    was_up: bool,
    is_up: bool,
) -> Result<Turn, AllocError>
    ensures joins { IfOk result (λ t.
        IsPick set.now.live (of_replica_if replica.now (not was_up && is_up)) t.joins.items) }
    ensures leaves { IfOk result (λ t.
        IsPick set.now.live (of_replica_if replica.now (was_up && not is_up)) t.leaves.items) }
{
    let joins = rows_where(alloc, set, replica, begins(was_up, is_up))?;
    let leaves = rows_where(alloc, set, replica, ends(was_up, is_up))?;
    Ok(Turn { joins, leaves })
}

// Whether time hides the rows of a replica of this standing.
fn drops(time: u64, standing: Standing) -> bool
    ensures { result ≡ drops time standing }
{
    is_up(standing.status()) && !is_up(standing.ticked_at(time).status())
}

// Gathers the rows of a replica of this standing, where time hides them.
fn gather_if_dropped(
    rows: &mut BTreeMap<Dot, Row>,
    set: &Orswot,
    replica: &Replica,
    standing: Standing,
    time: u64,
) -> Result<(), AllocError>
    ensures { OnOk result (Gathers set.now.live (of_replica_if replica.now (drops time standing)) rows.old rows.new) }
{
    if !drops(time, standing) {
        return Ok(());
    }
    gather_replica(rows, set, replica)
}

// Gathers the rows of the replicas that time hides.
fn gather_dropped(
    rows: &mut BTreeMap<Dot, Row>,
    set: &Orswot,
    standings: &Standings,
    time: u64,
) -> Result<(), AllocError>
    ensures { OnOk result (Gathers set.now.live (of_dropped time standings.now) rows.old rows.new) }
{
    let others = standings.others();
    for (replica, standing) in others.iter() {
        gather_if_dropped(rows, set, replica, *standing, time)?;
    }
    Ok(())
}

/// The rows that time hides.
pub fn rows_dropped(
    alloc: Global,
    set: &Orswot,
    standings: &Standings,
    time: u64,
) -> Result<Vec<(Dot, Row)>, AllocError>
    ensures { IfOk result (λ v. IsPick set.now.live (of_dropped time standings.now) v.items) }
{
    let mut rows = BTreeMap::new(alloc);
    gather_dropped(&mut rows, set, standings, time)?;
    listed(alloc, &rows)
}
