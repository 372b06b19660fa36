//! What is timed of the sets.
use crate::making::{ROOM, raw_row, replica};
use dot_context::Context;
use orswot_core::{Form, Orswot, RawRow, RawTold, Told, ToldFault};
use presence_base::{Dot, Replica};
use std::alloc::{AllocError, Global};

/// How many rows one told value brings.
const ROWS_AT_ONCE: u64 = 50_000;

fn add_runs(
    context: &mut Context,
    alloc: Global,
    node: &Replica,
    count: u64,
) -> Result<(), AllocError> {
    for n in 0..count {
        context.add_range(alloc, *node, n, n.saturating_add(1))?;
    }
    Ok(())
}

/// Adds the dots of the counts 1 to `count`, in order.
pub fn add_in_order(alloc: Global, count: u64) -> Result<Context, AllocError> {
    let node = replica(alloc, "b")?;
    let mut context = Context::new(alloc);
    add_runs(&mut context, alloc, &node, count)?;
    Ok(context)
}

fn add_gapped_runs(
    context: &mut Context,
    alloc: Global,
    node: &Replica,
    count: u64,
    low: u64,
) -> Result<(), AllocError> {
    for n in 0..count {
        let from = low.saturating_add((count - n).saturating_mul(4));
        context.add_range(alloc, *node, from, from.saturating_add(1))?;
    }
    Ok(())
}

/// Adds `count` runs of one dot each, none touching the next, in falling order, above `low`.
pub fn add_in_reverse(alloc: Global, count: u64, low: u64) -> Result<Context, AllocError> {
    let node = replica(alloc, "b")?;
    let mut context = Context::new(alloc);
    add_gapped_runs(&mut context, alloc, &node, count, low)?;
    Ok(context)
}

fn row_of(alloc: Global, count: u64) -> Result<RawRow, AllocError> {
    let key = format!(in alloc; "u{count}")?;
    raw_row(alloc, ROOM, key.as_str())
}

// What tells a row for each count above `from`, up to `to`, before it is checked.
fn raw_rows(alloc: Global, from: u64, to: u64) -> Result<RawTold, AllocError> {
    let node = replica(alloc, "b")?;
    let mut ranges = Vec::new(alloc);
    ranges.push((node, from, to))?;
    let mut live = Vec::new(alloc);
    for n in from..to {
        let count = n.saturating_add(1);
        let dot = Dot {
            replica: node,
            count,
        };
        live.push((dot, row_of(alloc, count)?))?;
    }
    Ok(RawTold {
        form: Form::One,
        ranges,
        extras: Vec::new(alloc),
        live,
    })
}

/// What tells a row for each count above `from`, up to `to`.
pub fn rows_told(alloc: Global, from: u64, to: u64) -> Result<Told, ToldFault> {
    let raw = raw_rows(alloc, from, to)?;
    Told::check(alloc, raw, 0, 1)
}

/// A set of `count` rows.
pub fn set_of_rows(alloc: Global, count: u64) -> Result<Orswot, ToldFault> {
    let mut set = Orswot::new(alloc);
    let parts = count / ROWS_AT_ONCE;
    for part in 0..parts {
        let from = part.saturating_mul(ROWS_AT_ONCE);
        let told = rows_told(alloc, from, from.saturating_add(ROWS_AT_ONCE))?;
        set.join(alloc, &told)?;
    }
    let told = rows_told(alloc, parts.saturating_mul(ROWS_AT_ONCE), count)?;
    set.join(alloc, &told)?;
    Ok(set)
}
