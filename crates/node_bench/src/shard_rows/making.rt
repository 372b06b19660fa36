// What another node tells the shard.
use crate::making::{checked, raw_row, replica};
use orswot_core::{Form, RawRow, RawTold, Told};
use presence_base::{Dot, Replica};
use std::alloc::{AllocError, Global};

/// A row that is told: its count, topic and key.
pub type Live = (u64, &'static str, &'static str);

/// What `b` tells: its counts above the first up to the second, older counts, and its live rows.
#[derive(Clone, Copy)]
pub struct ToldOf {
    pub from: u64,
    pub to: u64,
    pub extras: &'static [u64],
    pub live: &'static [Live],
}

/// The other node, `b.1`.
pub fn other_replica(alloc: Global) -> Result<Replica, AllocError> {
    replica(alloc, "b")
}

fn dots_of(alloc: Global, replica: &Replica, counts: &[u64]) -> Result<Vec<Dot>, AllocError> {
    let mut dots = Vec::new(alloc);
    for count in counts {
        dots.push(Dot {
            replica: *replica,
            count: *count,
        })?;
    }
    Ok(dots)
}

fn rows_of(
    alloc: Global,
    replica: &Replica,
    live: &[Live],
) -> Result<Vec<(Dot, RawRow)>, AllocError> {
    let mut rows = Vec::new(alloc);
    for row in live {
        let dot = Dot {
            replica: *replica,
            count: row.0,
        };
        rows.push((dot, raw_row(alloc, row.1, row.2)?))?;
    }
    Ok(rows)
}

fn ranges_of(
    alloc: Global,
    replica: &Replica,
    from: u64,
    to: u64,
) -> Result<Vec<(Replica, u64, u64)>, AllocError> {
    let mut ranges = Vec::new(alloc);
    ranges.push((*replica, from, to))?;
    Ok(ranges)
}

/// The told value, which passes the check.
pub fn told(alloc: Global, tells: &ToldOf) -> Result<Told, AllocError> {
    let replica = other_replica(alloc)?;
    let ranges = ranges_of(alloc, &replica, tells.from, tells.to)?;
    let extras = dots_of(alloc, &replica, tells.extras)?;
    let live = rows_of(alloc, &replica, tells.live)?;
    checked(
        alloc,
        RawTold {
            form: Form::One,
            ranges,
            extras,
            live,
        },
    )
}
