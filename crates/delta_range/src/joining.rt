// The lists of a delta.
ghost use Rattle.std.specs.Prelude.{◌≡◌, ◌++◌, ◌∷◌, [], IfOk, OnOk};
ghost use Rattle.dot_context.specs.Runs.{AreRuns};
ghost use Rattle.orswot_core.specs.Telling.{run_ranges};
ghost use Rattle.delta_range.specs.Longest.{up_to, longest};

use crate::runs::{longest, push_up_to};
use presence_base::{Dot, Replica, Row};
use std::alloc::{AllocError, Global};

// The counts of both at or below `end`, as longest runs.
pub(crate) fn joined_runs(
    alloc: Global,
    first: &[(u64, u64)],
    next: &[(u64, u64)],
    end: u64,
) -> Result<Vec<(u64, u64)>, AllocError>
    requires first { AreRuns 0 first.now }
    requires next { AreRuns 0 next.now }
    ensures { IfOk result (λ v. v.items ≡ longest (up_to end (first.now ++ next.now))) }
{
    let mut runs = Vec::new(alloc);
    push_up_to(&mut runs, first, end)?;
    push_up_to(&mut runs, next, end)?;
    longest(alloc, runs)
}

// Copies of the rows.
pub(crate) fn rows_of(alloc: Global, rows: &[(Dot, Row)]) -> Result<Vec<(Dot, Row)>, AllocError>
    ensures { IfOk result (λ v. v.items ≡ rows.now) }
{
    Vec::from_clones(alloc, rows)
}

pub(crate) fn one_range(
    alloc: Global,
    owner: Replica,
    from: u64,
    to: u64,
) -> Result<Vec<(Replica, u64, u64)>, AllocError>
    ensures { IfOk result (λ v. v.items ≡ (owner, from, to) ∷ []) }
{
    let mut ranges = Vec::new(alloc);
    ranges.push((owner, from, to))?;
    Ok(ranges)
}

// The owner's runs, each as a range, and one more range behind them.
pub(crate) fn ranges_before(
    alloc: Global,
    owner: &Replica,
    runs: &[(u64, u64)],
    last: (u64, u64),
) -> Result<Vec<(Replica, u64, u64)>, AllocError>
    ensures { IfOk result (λ v. v.items ≡ run_ranges owner.now runs.now ++ (owner.now, last.0, last.1) ∷ []) }
{
    let mut ranges = Vec::new(alloc);
    for run in runs {
        push_range(&mut ranges, owner, run.0, run.1)?;
    }
    push_range(&mut ranges, owner, last.0, last.1)?;
    Ok(ranges)
}

fn push_range(
    ranges: &mut Vec<(Replica, u64, u64)>,
    owner: &Replica,
    from: u64,
    to: u64,
) -> Result<(), AllocError>
    ensures { OnOk result (ranges.new.items ≡ ranges.old.items ++ (owner.now, from, to) ∷ []) }
{
    ranges.push((*owner, from, to))?;
    Ok(())
}
