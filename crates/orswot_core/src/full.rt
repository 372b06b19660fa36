// The whole set as a told value, by one walk over its runs and one over its live rows.
ghost use Rattle.std.specs.Prelude.{◌≡◌, ◌++◌, ◌∷◌, ◌-◌, [], map, OnOk, IfOk};
ghost use Rattle.std.specs.List.Sorted.{IsStrictlySortedBy};
ghost use Rattle.std.specs.Map.{keys_of};
ghost use Rattle.presence_base.specs.Order.{dot_cmp};
ghost use Rattle.orswot_core.specs.Sets.{IsSound, rows_of, seen};
ghost use Rattle.orswot_core.specs.Full.{IsFullIn, up_to_top, dots_of_runs, all_ranges};
ghost use Rattle.orswot_core.specs.declared.form.Form.TheVariants.{One, Two};
ghost use Rattle.orswot_core.specs.Telling.{run_ranges};
ghost use Rattle.dot_context.specs.Sets.{span, run_dots};

use crate::form::Form;
use crate::told::Told;
use dot_context::{Cloud, Context, ReplicaRuns, Tops};
use presence_base::{Dot, Replica, Row};
use std::alloc::{AllocError, Global};
use std::collections::BTreeMap;
use std::collections::btree_map::{Iter, Range};

fn push_range(
    ranges: &mut Vec<(Replica, u64, u64)>,
    replica: &Replica,
    from: u64,
    to: u64,
) -> Result<(), AllocError>
    ensures { OnOk result (ranges.new.items ≡ ranges.old.items ++ (replica.now, from, to) ∷ []) }
{
    ranges.push((*replica, from, to))?;
    Ok(())
}

// The range of each replica, up to its top.
fn ranges_up_to(alloc: Global, tops: Tops<'_>) -> Result<Vec<(Replica, u64, u64)>, AllocError>
    ensures { IfOk result (λ v. v.items ≡ map up_to_top tops.entry) }
{
    let mut ranges = Vec::new(alloc);
    for (replica, top) in tops {
        push_range(&mut ranges, replica, 0, top)?;
    }
    Ok(ranges)
}

fn push_count(dots: &mut Vec<Dot>, replica: &Replica, count: u64) -> Result<(), AllocError>
    ensures { OnOk result (dots.new.items ≡ dots.old.items ++ record { replica = replica.now; count = count } ∷ []) }
{
    dots.push(Dot {
        replica: *replica,
        count,
    })?;
    Ok(())
}

// A run that memory can't hold is refused before a dot of it is made, however long it is.
fn push_run(dots: &mut Vec<Dot>, replica: &Replica, from: u64, to: u64) -> Result<(), AllocError>
    ensures { OnOk result (dots.new.items ≡ dots.old.items ++ span replica.now from (to - from)) }
{
    dots.reserve(to.saturating_sub(from) as usize)?;
    for count in from..to {
        push_count(dots, replica, count + 1)?;
    }
    Ok(())
}

fn push_runs(
    dots: &mut Vec<Dot>,
    replica: &Replica,
    runs: Range<'_, u64, u64>,
) -> Result<(), AllocError>
    ensures { OnOk result (dots.new.items ≡ dots.old.items ++ run_dots replica.now runs.entry) }
{
    for (from, to) in runs {
        push_run(dots, replica, *from, *to)?;
    }
    Ok(())
}

// The dots of the cloud, one by one.
fn dots_in(alloc: Global, cloud: Cloud<'_>) -> Result<Vec<Dot>, AllocError>
    ensures { IfOk result (λ v. v.items ≡ dots_of_runs cloud.entry) }
{
    let mut dots = Vec::new(alloc);
    for (replica, runs) in cloud {
        push_runs(&mut dots, replica, runs)?;
    }
    Ok(dots)
}

fn push_ranges(
    ranges: &mut Vec<(Replica, u64, u64)>,
    replica: &Replica,
    runs: Iter<'_, u64, u64>,
) -> Result<(), AllocError>
    ensures { OnOk result (ranges.new.items ≡ ranges.old.items ++ run_ranges replica.now runs.entry) }
{
    for (from, to) in runs {
        push_range(ranges, replica, *from, *to)?;
    }
    Ok(())
}

// Each run as a range.
fn ranges_of(alloc: Global, all: ReplicaRuns<'_>) -> Result<Vec<(Replica, u64, u64)>, AllocError>
    ensures { IfOk result (λ v. v.items ≡ all_ranges all.entry) }
{
    let mut ranges = Vec::new(alloc);
    for (replica, runs) in all {
        push_ranges(&mut ranges, replica, runs)?;
    }
    Ok(ranges)
}

fn push_live(rows: &mut Vec<(Dot, Row)>, dot: &Dot, row: &Row) -> Result<(), AllocError>
    ensures { OnOk result (rows.new.items ≡ rows.old.items ++ (dot.now, row.now) ∷ []) }
{
    let row = row.clone()?;
    rows.push((*dot, row))?;
    Ok(())
}

// The live rows, in order of dot.
fn rows_in(alloc: Global, live: &BTreeMap<Dot, Row>) -> Result<Vec<(Dot, Row)>, AllocError>
    ensures rows { IfOk result (λ v. v.items ≡ live.now.entries) }
    ensures ordered { IfOk result (λ _. IsStrictlySortedBy dot_cmp (keys_of live.now.entries)) }
{
    let mut rows = Vec::new(alloc);
    for (dot, row) in live.iter() {
        push_live(&mut rows, dot, row)?;
    }
    Ok(rows)
}

// With a range up to its top for each replica, and an extra for each dot above it.
fn told_in_tops(
    alloc: Global,
    covered: &Context,
    live: &BTreeMap<Dot, Row>,
) -> Result<Told, AllocError>
    requires { IsSound covered.now (rows_of live.now.entries) }
    ensures { IfOk result (λ t. IsFullIn One (seen covered.now live.now) t) }
{
    let ranges = ranges_up_to(alloc, covered.tops())?;
    let extras = dots_in(alloc, covered.cloud())?;
    let live = rows_in(alloc, live)?;
    Ok(Told::new(ranges, extras, live))
}

// With a range for each run.
fn told_in_runs(
    alloc: Global,
    covered: &Context,
    live: &BTreeMap<Dot, Row>,
) -> Result<Told, AllocError>
    requires { IsSound covered.now (rows_of live.now.entries) }
    ensures { IfOk result (λ t. IsFullIn Two (seen covered.now live.now) t) }
{
    let ranges = ranges_of(alloc, covered.runs())?;
    let live = rows_in(alloc, live)?;
    Ok(Told::new(ranges, Vec::new(alloc), live))
}

pub(crate) fn full_told(
    alloc: Global,
    form: Form,
    covered: &Context,
    live: &BTreeMap<Dot, Row>,
) -> Result<Told, AllocError>
    requires { IsSound covered.now (rows_of live.now.entries) }
    ensures { IfOk result (λ t. IsFullIn form (seen covered.now live.now) t) }
{
    match form {
        Form::One => told_in_tops(alloc, covered, live),
        Form::Two => told_in_runs(alloc, covered, live),
    }
}
