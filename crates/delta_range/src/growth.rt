// What a delta needs to take in the next one in place.
ghost use Rattle.std.specs.Prelude.{◌≡◌, ◌+◌, ◌≤◌, ◌++◌, length, vec_capacity, nat_le, IfOk};
ghost use Rattle.delta_range.specs.Deltas.{GoesOn};
ghost use Rattle.delta_range.specs.Growing.{IsRemoval, runs_with, rows_left};
ghost use Rattle.delta_range.specs.Joining.{joined, not_in};
ghost use Rattle.delta_range.specs.Keeping.{size};

use crate::delta::Delta;
use crate::joining::joined_runs;
use crate::runs::run_set;
use dot_context::Context;
use presence_base::{Dot, Replica, Row};
use std::alloc::{AllocError, Global};
use std::marker::Model;

/// What the older counts of the next delta leave: the older runs of both as longest ones, and the dots
/// whose rows go.
#[derive(Drop)]
pub(crate) struct Removal {
    runs: Vec<(u64, u64)>,
    dots: Context,
}

/// A delta with all the memory that joining the next one to it needs. It is joined by `commit`, or is as it
/// was by `undo`: neither takes memory, and no row of it is copied.
pub(crate) struct Growth {
    pub(crate) owner: Replica,
    pub(crate) from: u64,
    pub(crate) to: u64,
    pub(crate) older: Vec<(u64, u64)>,
    pub(crate) live: Vec<(Dot, Row)>,
    pub(crate) removal: Option<Removal>,
    pub(crate) rows: Vec<(Dot, Row)>,
    pub(crate) end: u64,
}

impl Model for Growth {
    ghost use Rattle.std.specs.Prelude.{◌≤◌, ◌+◌, length, vec_capacity};
    ghost use Rattle.delta_range.specs.Growing.{Growing, growing, AreDeltas};
    ghost use Rattle.delta_range.specs.Codes.{growing_code};

    ghost Value = { Growing };

    ghost coded = { growing_code };

    ghost view = { λ g. growing (record { owner = g.owner; from = g.from; to = g.to; older = g.older.items; live = g.live.items }) g.removal g.rows.items g.end };

    ghost invariant = { λ g.
        AreDeltas (growing (record { owner = g.owner; from = g.from; to = g.to; older = g.older.items; live = g.live.items }) g.removal g.rows.items g.end)
        × (length g.live.items + length g.rows.items ≤ vec_capacity g.live) };
}

impl Growth {
    /// The joined delta.
    pub(crate) fn commit(self) -> Delta
        ensures { result ≡ self.after }
    {
        let Growth {
            owner,
            from,
            to: _,
            older,
            mut live,
            removal,
            rows,
            end,
        } = self;
        let older = take_out(removal, older, &mut live);
        add_rows(&mut live, rows);
        Delta::new(owner, from, end, older, live)
    }

    /// The delta as it was.
    pub(crate) fn undo(self) -> Delta
        ensures { result ≡ self.before }
    {
        let Growth {
            owner,
            from,
            to,
            older,
            live,
            removal,
            rows,
            end: _,
        } = self;
        drop(removal);
        drop(rows);
        Delta::new(owner, from, to, older, live)
    }
}

// Takes out the rows that go, and answers the older runs.
fn take_out(
    removal: Option<Removal>,
    older: Vec<(u64, u64)>,
    live: &mut Vec<(Dot, Row)>,
) -> Vec<(u64, u64)>
    ensures older { result.items ≡ runs_with removal older.items }
    ensures live { live.new.items ≡ rows_left removal live.old.items }
    ensures capacity { vec_capacity live.new ≡ vec_capacity live.old }
{
    match removal {
        Some(removal) => {
            let Removal { runs, dots } = removal;
            live.retain(|row| !dots.covers(&row.0));
            runs
        }
        None => older,
    }
}

// Adds rows for which there is room.
fn add_rows(live: &mut Vec<(Dot, Row)>, rows: Vec<(Dot, Row)>)
    requires { length live.old.items + length rows.items ≤ vec_capacity live.old }
    ensures { live.new.items ≡ live.old.items ++ rows.items }
{
    let mut rows = rows;
    let _added = live.append(&mut rows);
}

/// What the next delta takes from the first: `None` where it tells no older count.
pub(crate) fn removal_of(
    alloc: Global,
    first: &Delta,
    next: &Delta,
) -> Result<Option<Removal>, AllocError>
    requires { GoesOn first.now.owner first.now.to next.now }
    ensures { IfOk result (λ r. IsRemoval r first.now next.now) }
{
    let (older, gone) = (first.older(), next.older());
    if gone.is_empty() {
        return Ok(None);
    }
    let runs = joined_runs(alloc, older, gone, first.from())?;
    let dots = run_set(alloc, &first.owner(), gone)?;
    Ok(Some(Removal { runs, dots }))
}

/// Whether so many runs, rows and further rows are at most `cap` together.
pub(crate) fn is_sum_within(runs: usize, rows: usize, more: usize, cap: usize) -> bool
    ensures { result ≡ nat_le (runs + (rows + more)) cap }
{
    runs <= cap && (rows <= cap - runs && more <= cap - runs - rows)
}

fn count_left(rows: &[(Dot, Row)], removed: &Context) -> usize
    ensures { result ≡ length (not_in removed.now rows.now) }
{
    rows.iter().filter(|row| !removed.covers(&row.0)).count()
}

/// Whether the joined delta is within the cap. It looks at the rows one by one only where all of them would
/// be too many.
pub(crate) fn is_join_within(
    first: &Delta,
    removal: &Option<Removal>,
    next: &Delta,
    cap: usize,
) -> bool
    requires { IsRemoval removal.now first.now next.now }
    ensures { result ≡ nat_le (size (joined first.now next.now)) cap }
{
    let (older, live, more) = (first.older(), first.live(), next.live().len());
    match removal {
        Some(removal) => {
            let runs = removal.runs.len();
            if is_sum_within(runs, live.len(), more, cap) {
                return true;
            }
            is_sum_within(runs, count_left(live, &removal.dots), more, cap)
        }
        None => is_sum_within(older.len(), live.len(), more, cap),
    }
}
