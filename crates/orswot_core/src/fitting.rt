//! Whether all that is told of a set fits a line: runs are counted by their ends, however long they are.
ghost use Rattle.std.specs.Prelude.{◌≡◌, length, nat_le};
ghost use Rattle.orswot_core.specs.declared.form.Form.TheVariants.{One, Two};
ghost use Rattle.orswot_core.specs.Sets.{seen};
ghost use Rattle.orswot_core.specs.Full.{Fits, IsFullIn, all_ranges, counts_in, dots_of_runs, left_behind};

use crate::form::Form;
use crate::told::MAX_ROWS;
use dot_context::{Cloud, Context, ReplicaRuns};
use presence_base::{Dot, Row};
use std::collections::BTreeMap;
use std::collections::btree_map::{Iter, Range};

// What is left of so many behind the counts of the runs.
fn left_behind_counts(most: u64, runs: Range<'_, u64, u64>) -> Option<u64>
    ensures { result ≡ left_behind most (counts_in runs.entry) }
{
    let mut left = most;
    for (from, to) in runs {
        let counts = to.saturating_sub(*from);
        if counts > left {
            return None;
        }
        left -= counts;
    }
    Some(left)
}

// What is left of so many behind the runs themselves.
fn left_behind_runs(most: u64, runs: Iter<'_, u64, u64>) -> Option<u64>
    ensures { result ≡ left_behind most (length runs.entry) }
{
    let mut left = most;
    for _run in runs {
        if left == 0 {
            return None;
        }
        left -= 1;
    }
    Some(left)
}

// Whether the cloud has so many dots at most.
fn has_dots_at_most(cloud: Cloud<'_>, most: u64) -> bool
    ensures { result ≡ nat_le (length (dots_of_runs cloud.entry)) most }
{
    let mut left = most;
    for (_replica, runs) in cloud {
        let Some(rest) = left_behind_counts(left, runs) else {
            return false;
        };
        left = rest;
    }
    true
}

// Whether there are so many runs at most.
fn has_runs_at_most(all: ReplicaRuns<'_>, most: u64) -> bool
    ensures { result ≡ nat_le (length (all_ranges all.entry)) most }
{
    let mut left = most;
    for (_replica, runs) in all {
        let Some(rest) = left_behind_runs(left, runs) else {
            return false;
        };
        left = rest;
    }
    true
}

fn fits_in_tops(covered: &Context, live: &BTreeMap<Dot, Row>) -> bool
    ensures { Fits One (IsFullIn One (seen covered.now live.now)) result }
{
    let cloud = covered.cloud();
    let rows = live.len();
    rows <= MAX_ROWS && has_dots_at_most(cloud, (MAX_ROWS - rows) as u64)
}

fn fits_in_runs(covered: &Context, live: &BTreeMap<Dot, Row>) -> bool
    ensures { Fits Two (IsFullIn Two (seen covered.now live.now)) result }
{
    let all = covered.runs();
    let rows = live.len();
    rows <= MAX_ROWS && has_runs_at_most(all, (MAX_ROWS - rows) as u64)
}

/// Whether all that is told of the set has no more in the form than a node takes in. It costs a look at each run, and no memory.
pub(crate) fn fits_line(form: Form, covered: &Context, live: &BTreeMap<Dot, Row>) -> bool
    ensures { Fits form (IsFullIn form (seen covered.now live.now)) result }
{
    match form {
        Form::One => fits_in_tops(covered, live),
        Form::Two => fits_in_runs(covered, live),
    }
}
