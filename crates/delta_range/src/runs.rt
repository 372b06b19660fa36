// Runs of counts: each is the count below its first one and its last one.
ghost use Rattle.std.specs.Prelude.{◌≡◌, ◌-◌, ◌++◌, map, IfOk, OnOk};
ghost use Rattle.dot_context.specs.Runs.{AreLong};
ghost use Rattle.dot_context.specs.Sets.{span, run_dots};
ghost use Rattle.delta_range.specs.Deltas.{run_of, ends_of};
ghost use Rattle.delta_range.specs.Joining.{HasRuns};
ghost use Rattle.delta_range.specs.Longest.{up_to, longest, coalesced};

use dot_context::Context;
use presence_base::{Dot, Replica};
use std::alloc::{AllocError, Global};

/// Adds the counts of the runs at or below `end`.
pub fn push_up_to(
    runs: &mut Vec<(u64, u64)>,
    more: &[(u64, u64)],
    end: u64,
) -> Result<(), AllocError>
    ensures { OnOk result (runs.new.items ≡ runs.old.items ++ up_to end more.now) }
{
    for run in more {
        if run.0 < end {
            runs.push((run.0, run.1.min(end)))?;
        }
    }
    Ok(())
}

// The run of each dot.
pub(crate) fn runs_of(alloc: Global, dots: &[Dot]) -> Result<Vec<(u64, u64)>, AllocError>
    ensures { IfOk result (λ v. v.items ≡ map run_of dots.now) }
{
    dots.iter()
        .map(|dot| (dot.count.saturating_sub(1), dot.count))
        .collect(alloc)
}

// The ends of the ranges come behind the runs.
pub(crate) fn push_ends(
    runs: &mut Vec<(u64, u64)>,
    ranges: &[(Replica, u64, u64)],
) -> Result<(), AllocError>
    ensures { OnOk result (runs.new.items ≡ runs.old.items ++ map ends_of ranges.now) }
{
    for range in ranges {
        runs.push((range.1, range.2))?;
    }
    Ok(())
}

/// The longest runs that have the counts of these. The sort merges lists that are in order, so its cost is then that of
/// their lengths.
pub fn longest(alloc: Global, runs: Vec<(u64, u64)>) -> Result<Vec<(u64, u64)>, AllocError>
    requires { AreLong runs.items }
    ensures { IfOk result (λ v. v.items ≡ longest runs.items) }
{
    let mut runs = runs;
    runs.sort_by_key(|run| run.0)?;
    coalesced(alloc, &runs)
}

fn coalesced(alloc: Global, runs: &[(u64, u64)]) -> Result<Vec<(u64, u64)>, AllocError>
    ensures { IfOk result (λ v. v.items ≡ coalesced runs.now) }
{
    let mut longest = Vec::new(alloc);
    let Some((first, rest)) = runs.split_first() else {
        return Ok(longest);
    };
    let mut last = *first;
    for run in rest {
        if run.0 <= last.1 {
            last = (last.0, last.1.max(run.1));
        } else {
            longest.push(last)?;
            last = *run;
        }
    }
    longest.push(last)?;
    Ok(longest)
}

// The counts of the runs as a set of dots.
pub(crate) fn run_set(
    alloc: Global,
    owner: &Replica,
    runs: &[(u64, u64)],
) -> Result<Context, AllocError>
    ensures { IfOk result (λ s. HasRuns s owner.now runs.now) }
{
    let mut dots = Context::new(alloc);
    for run in runs {
        dots.add_range(alloc, *owner, run.0, run.1)?;
    }
    Ok(dots)
}

// Adds the dots above `from`, up to `to`.
fn push_span(dots: &mut Vec<Dot>, owner: &Replica, from: u64, to: u64) -> Result<(), AllocError>
    ensures { OnOk result (dots.new.items ≡ dots.old.items ++ span owner.now from (to - from)) }
{
    for count in from..to {
        dots.push(Dot {
            replica: *owner,
            count: count + 1,
        })?;
    }
    Ok(())
}

// The dots of the runs.
pub(crate) fn dots_of(
    alloc: Global,
    owner: &Replica,
    runs: &[(u64, u64)],
) -> Result<Vec<Dot>, AllocError>
    ensures { IfOk result (λ v. v.items ≡ run_dots owner.now runs.now) }
{
    let mut dots = Vec::new(alloc);
    for run in runs {
        push_span(&mut dots, owner, run.0, run.1)?;
    }
    Ok(dots)
}
