//! What a part tells, of the own live rows in order of dot, and runs without their counts.
ghost use Rattle.std.specs.Prelude.{◌≡◌, ◌++◌, ◌∷◌, [], IfOk, OnOk};
ghost use Rattle.std.specs.List.{filter};
ghost use Rattle.dot_context.specs.Runs.{AreLong};
ghost use Rattle.presence_journal_cuts.specs.Handing.{run_between};
ghost use Rattle.presence_journal_cuts.specs.Parting.{AreVacant, end_of, is_up_to, row_in, rows_above, up_to, vacant};

use delta_range::Delta;
use orswot_core::Orswot;
use presence_base::{Dot, Replica, Row};
use std::alloc::{AllocError, Global};
use std::collections::btree_map::Range;

// Adds the run of the counts above one, up to another, where there are any.
fn push_between(runs: &mut Vec<(u64, u64)>, low: u64, high: u64) -> Result<(), AllocError>
    ensures { OnOk result (runs.new.items ≡ runs.old.items ++ run_between low high) }
{
    if low < high {
        runs.push((low, high))?;
    }
    Ok(())
}

// Adds the runs of the counts above one, up to another, that none of the rows has, which are of one replica and in order.
fn push_vacant(
    runs: &mut Vec<(u64, u64)>,
    rows: Range<'_, Dot, Row>,
    from: u64,
    to: u64,
) -> Result<(), AllocError>
    ensures { OnOk result (runs.new.items ≡ runs.old.items ++ vacant to from rows.entry) }
{
    let mut low = from;
    for (dot, _row) in rows {
        if dot.count <= to {
            push_between(runs, low, dot.count.saturating_sub(1))?;
            low = dot.count;
        }
    }
    push_between(runs, low, to)
}

/// The runs of the counts up to this one that none of the rows has, which are of one replica and in order. It costs a look at
/// each row.
pub fn vacant_runs(
    alloc: Global,
    rows: Range<'_, Dot, Row>,
    to: u64,
) -> Result<Vec<(u64, u64)>, AllocError>
    ensures { IfOk result (λ v. v.items ≡ vacant to 0 rows.entry) }
{
    let mut runs = Vec::new(alloc);
    push_vacant(&mut runs, rows, 0, to)?;
    Ok(runs)
}

/// The counts of the runs that are of no live row of the replica. It costs a look at each of its live rows that stands in a run.
pub fn vacant_of(
    alloc: Global,
    set: &Orswot,
    replica: &Replica,
    runs: &[(u64, u64)],
) -> Result<Vec<(u64, u64)>, AllocError>
    requires { AreLong runs.now }
    ensures { IfOk result (λ v. AreVacant (row_in set.now replica.now) runs.now v.items) }
{
    let mut vacant = Vec::new(alloc);
    for run in runs {
        let range = (*replica, run.0, run.1);
        push_vacant(&mut vacant, set.rows_in(&range), run.0, run.1)?;
    }
    Ok(vacant)
}

// Adds a copy of a row at the end.
fn push_copy(list: &mut Vec<(Dot, Row)>, dot: &Dot, row: &Row) -> Result<(), AllocError>
    ensures { OnOk result (list.new.items ≡ list.old.items ++ (dot.now, row.now) ∷ []) }
{
    let row = row.clone()?;
    list.push((*dot, row))?;
    Ok(())
}

/// Copies of the rows above a count, as many as there is room for, and the count up to which these are all: the last, where
/// none is left out. It costs a look at each row up to the first that is left out.
pub fn rows_from(
    alloc: Global,
    rows: Range<'_, Dot, Row>,
    from: u64,
    last: u64,
    room: u64,
) -> Result<(Vec<(Dot, Row)>, u64), AllocError>
    ensures rows { IfOk result (λ t. t.0.items ≡ rows_above from room rows.entry) }
    ensures end { IfOk result (λ t. t.1 ≡ end_of from last room rows.entry) }
{
    let mut list = Vec::new(alloc);
    let mut left = room;
    for (dot, row) in rows {
        if dot.count > from {
            if left == 0 {
                return Ok((list, dot.count.saturating_sub(1)));
            }
            push_copy(&mut list, dot, row)?;
            left -= 1;
        }
    }
    Ok((list, last))
}

// Copies of the rows up to a count.
fn rows_up_to(alloc: Global, rows: &[(Dot, Row)], count: u64) -> Result<Vec<(Dot, Row)>, AllocError>
    ensures { IfOk result (λ v. v.items ≡ filter (λ x. is_up_to count x.0) rows.now) }
{
    let mut list = Vec::new(alloc);
    for row in rows {
        if row.0.count <= count {
            push_copy(&mut list, &row.0, &row.1)?;
        }
    }
    Ok(list)
}

// A copy of the runs.
fn copied_runs(alloc: Global, runs: &[(u64, u64)]) -> Result<Vec<(u64, u64)>, AllocError>
    ensures { IfOk result (λ v. v.items ≡ runs.now) }
{
    runs.to_vec(alloc)
}

/// The delta up to a count: without the rows above it, and with all its older runs. Up to one where it begins, or below, it has no
/// row. A part that is cut short is a part. It costs a look at each row.
pub fn up_to(alloc: Global, delta: &Delta, count: u64) -> Result<Delta, AllocError>
    ensures { IfOk result (λ d. d ≡ up_to count delta.now) }
{
    let older = copied_runs(alloc, delta.older())?;
    let live = rows_up_to(alloc, delta.live(), count)?;
    let to = delta.from().max(count.min(delta.to()));
    Ok(Delta::new(delta.owner(), delta.from(), to, older, live))
}
