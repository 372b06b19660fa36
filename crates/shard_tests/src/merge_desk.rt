//! What a node tells, made by hand.
ghost use Rattle.std.specs.Prelude.{◌≡◌, IfOk};

use orswot_core::{Form, RawRow, RawTold, Told};
use presence_base::{Dot, Meta, NodeName, Replica};
use serde_json::{Map, Value};
use std::alloc::{AllocError, Global};

// A row that a node tells: its count, topic and key.
pub(crate) type Live = (u64, &'static str, &'static str);

// What a node tells: its counts above the first up to the second, counts beside them, and its live rows.
#[derive(Clone, Copy)]
pub(crate) struct Telling {
    pub node: &'static str,
    pub from: u64,
    pub to: u64,
    pub extras: &'static [u64],
    pub live: &'static [Live],
}

// The replica of a node. A test names its nodes by letters.
pub(crate) fn replica(alloc: Global, name: &str) -> Result<Replica, AllocError>
    ensures { IfOk result (λ r. r.incarnation ≡ 1) }
{
    let name = NodeName::new(alloc, name)?.ok_or(AllocError)?;
    Ok(Replica {
        name,
        incarnation: 1,
    })
}

fn raw_row(alloc: Global, live: &Live) -> Result<RawRow, AllocError> {
    let topic = String::from_str(alloc, live.1)?;
    let key = String::from_str(alloc, live.2)?;
    Ok(RawRow {
        topic,
        key,
        pid: 5,
        meta: Meta::new(alloc, Value::Object(Map::new(alloc)))?,
        prev: None,
    })
}

fn ranges_of(
    alloc: Global,
    replica: &Replica,
    telling: &Telling,
) -> Result<Vec<(Replica, u64, u64)>, AllocError> {
    let mut ranges = Vec::new(alloc);
    ranges.push((*replica, telling.from, telling.to))?;
    Ok(ranges)
}

fn extras_of(alloc: Global, replica: &Replica, counts: &[u64]) -> Result<Vec<Dot>, AllocError> {
    let mut extras = Vec::new(alloc);
    for count in counts {
        extras.push(Dot {
            replica: *replica,
            count: *count,
        })?;
    }
    Ok(extras)
}

fn live_of(
    alloc: Global,
    replica: &Replica,
    rows: &[Live],
) -> Result<Vec<(Dot, RawRow)>, AllocError> {
    let mut live = Vec::new(alloc);
    for row in rows {
        let dot = Dot {
            replica: *replica,
            count: row.0,
        };
        live.push((dot, raw_row(alloc, row)?))?;
    }
    Ok(live)
}

pub(crate) fn told(alloc: Global, telling: &Telling) -> Result<Told, AllocError> {
    let replica = replica(alloc, telling.node)?;
    let ranges = ranges_of(alloc, &replica, telling)?;
    let extras = extras_of(alloc, &replica, telling.extras)?;
    let live = live_of(alloc, &replica, telling.live)?;
    let raw = RawTold {
        form: Form::One,
        ranges,
        extras,
        live,
    };
    match Told::check(alloc, raw, 0, 1) {
        Ok(told) => Ok(told),
        Err(_) => Err(AllocError),
    }
}
