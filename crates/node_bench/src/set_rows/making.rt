// What the rows' calls are given. All of it is of the first incarnation of a node, mostly of `b`.
ghost use Rattle.std.specs.Prelude.{◌≡◌, true, IfOk, ◌∷◌, []};
ghost use Rattle.orswot_core.specs.Limits.{is_dot, is_row};

use super::playing::Fault;
use crate::making::{ROOM, key, meta, raw_row, replica, topic};
use delta_range::Delta;
use orswot_core::{Form, RawRow, RawTold, Told};
use presence_base::{Dot, MAX_COUNT, Replica, Row};
use std::alloc::{AllocError, Global};

/// What `b` tells: ranges above one count, up to another, extras, and the live rows of such ranges.
#[derive(Clone, Copy)]
pub struct ToldOf {
    pub ranges: &'static [(u64, u64)],
    pub extras: &'static [u64],
    pub live: &'static [(u64, u64)],
}

/// A delta of a node.
#[derive(Clone, Copy)]
pub struct DeltaOf {
    pub node: &'static str,
    pub from: u64,
    pub to: u64,
    pub extras: &'static [u64],
    pub live: &'static [(u64, u64)],
}

pub fn dot(alloc: Global, node: &str, count: u64) -> Result<Dot, Fault>
    ensures { IfOk result (λ d. d ≡ record { replica = record { name = node.now; incarnation = 1 }; count = count }) }
{
    let replica = replica(alloc, node)?;
    Ok(Dot { replica, count })
}

/// A dot of `b`, within the limits of a count.
pub fn set_dot(alloc: Global, count: u64) -> Result<Dot, Fault>
    ensures { IfOk result (λ d. is_dot d ≡ true) }
{
    if count < 1 || count > MAX_COUNT {
        return Err(Fault::Limits);
    }
    dot(alloc, "b", count)
}

// The text of the key of a row. The row 1 has the key `u2`.
fn key_text(alloc: Global, count: u64) -> Result<String, AllocError> {
    let number = count.saturating_add(1);
    format!(in alloc; "u{number}")
}

/// The row of a count, as its owner adds it.
pub fn row(alloc: Global, count: u64) -> Result<Row, Fault>
    ensures { IfOk result (λ r. is_row r ≡ true) }
{
    let text = key_text(alloc, count)?;
    let key = key(alloc, text.as_str())?;
    Ok(Row {
        topic: topic(alloc, ROOM)?,
        key,
        pid: 5,
        meta: meta(alloc)?,
        prev: None,
    })
}

fn range_of(
    alloc: Global,
    node: &str,
    from: u64,
    to: u64,
) -> Result<Vec<(Replica, u64, u64)>, Fault>
    ensures { IfOk result (λ v. v.items ≡ (record { name = node.now; incarnation = 1 }, from, to) ∷ []) }
{
    let owner = replica(alloc, node)?;
    let mut ranges = Vec::new(alloc);
    ranges.push((owner, from, to))?;
    Ok(ranges)
}

fn ranges_of(alloc: Global, ends: &[(u64, u64)]) -> Result<Vec<(Replica, u64, u64)>, Fault> {
    let mut ranges = Vec::new(alloc);
    for (from, to) in ends {
        ranges.push((replica(alloc, "b")?, *from, *to))?;
    }
    Ok(ranges)
}

fn extras_of(alloc: Global, node: &str, counts: &[u64]) -> Result<Vec<Dot>, Fault> {
    let mut extras = Vec::new(alloc);
    for count in counts {
        extras.push(dot(alloc, node, *count)?)?;
    }
    Ok(extras)
}

fn push_rows(
    rows: &mut Vec<(Dot, RawRow)>,
    alloc: Global,
    node: &str,
    from: u64,
    to: u64,
) -> Result<(), Fault> {
    for below in from..to {
        let count = below.saturating_add(1);
        let dot = dot(alloc, node, count)?;
        let key = key_text(alloc, count)?;
        rows.push((dot, raw_row(alloc, ROOM, key.as_str())?))?;
    }
    Ok(())
}

fn rows_of(alloc: Global, node: &str, live: &[(u64, u64)]) -> Result<Vec<(Dot, RawRow)>, Fault> {
    let mut rows = Vec::new(alloc);
    for (from, to) in live {
        push_rows(&mut rows, alloc, node, *from, *to)?;
    }
    Ok(rows)
}

fn checked(alloc: Global, raw: RawTold) -> Result<Told, Fault>
    ensures { IfOk result (λ t. t.ranges ≡ raw.ranges.items) }
{
    match Told::check(alloc, raw, 0, 1) {
        Ok(told) => Ok(told),
        Err(fault) => Err(Fault::from(fault)),
    }
}

/// The told value, where it passes the check.
pub fn told_of(alloc: Global, tells: &ToldOf) -> Result<Told, Fault> {
    let ranges = ranges_of(alloc, tells.ranges)?;
    let extras = extras_of(alloc, "b", tells.extras)?;
    let live = rows_of(alloc, "b", tells.live)?;
    checked(
        alloc,
        RawTold {
            form: Form::One,
            ranges,
            extras,
            live,
        },
    )
}

fn told_delta(alloc: Global, of: &DeltaOf) -> Result<Told, Fault>
    ensures { IfOk result (λ t. t.ranges
        ≡ (record { name = of.now.node.now; incarnation = 1 }, of.now.from, of.now.to) ∷ []) }
{
    let ranges = range_of(alloc, of.node, of.from, of.to)?;
    let extras = extras_of(alloc, of.node, of.extras)?;
    let live = rows_of(alloc, of.node, of.live)?;
    checked(
        alloc,
        RawTold {
            form: Form::One,
            ranges,
            extras,
            live,
        },
    )
}

/// The delta, where it passes the checks.
pub fn delta_of(alloc: Global, of: &DeltaOf) -> Result<Delta, Fault>
    ensures owner { IfOk result (λ d. d.owner ≡ record { name = of.now.node.now; incarnation = 1 }) }
    ensures from { IfOk result (λ d. d.from ≡ of.now.from) }
    ensures to { IfOk result (λ d. d.to ≡ of.now.to) }
{
    let told = told_delta(alloc, of)?;
    match Delta::of_told(alloc, &told)? {
        Some(delta) => Ok(delta),
        None => Err(Fault::NoDelta),
    }
}
