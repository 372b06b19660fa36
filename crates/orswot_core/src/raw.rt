//! Parts before the check.
ghost use Rattle.std.specs.Prelude.{◌≡◌, ◌≤◌, ◌&&◌, ◌++◌, ◌∷◌, [], IfOk, OnOk};
ghost use Rattle.std.specs.List.{list_all};
ghost use Rattle.presence_base.specs.Names.{guarded};
ghost use Rattle.orswot_core.specs.Limits.{is_row, are_texts};
ghost use Rattle.orswot_core.specs.Checks.{AreRows, is_raw_row};

use crate::form::Form;
use crate::limits::{is_dot_within, is_row_within};
use crate::told::ToldFault;
use presence_base::{Dot, Key, Meta, Replica, Row, Topic, shard_of};
use std::alloc::{AllocError, Global};
use std::marker::Model;

/// A row as it was told, before its limits are checked. It has no meta where what was told is none.
#[derive(Drop)]
pub struct RawRow {
    pub topic: String,
    pub key: String,
    pub pid: u64,
    pub meta: Option<Meta>,
    pub prev: Option<Dot>,
}

impl Model for RawRow {
    ghost use Rattle.std.specs.Prelude.{string_bytes, unwrap_or};
    ghost use Rattle.serde_json.specs.Data.{null};
    ghost use Rattle.presence_base.specs.declared.row.Row.{Row as RowValue};
    ghost use Rattle.presence_base.specs.Codes.{row_code};

    ghost Value = { RowValue };

    ghost coded = { row_code };

    ghost view = { λ r. record {
      topic = string_bytes r.topic;
      key = string_bytes r.key;
      pid = r.pid;
      meta = unwrap_or r.meta null;
      prev = r.prev;
    } };
}

/// What was told of a set, before it is checked: ranges (above one count, up to another), dots
/// beside them, and the rows that are live; and the form in which it was told.
#[derive(Drop)]
pub struct RawTold {
    pub form: Form,
    pub ranges: Vec<(Replica, u64, u64)>,
    pub extras: Vec<Dot>,
    pub live: Vec<(Dot, RawRow)>,
}

// The row, where its texts, its meta and its numbers are within their limits.
fn checked_row(alloc: Global, raw: RawRow) -> Result<Option<Row>, AllocError>
    ensures { IfOk result (λ o. o ≡ guarded (is_row raw && are_texts raw) raw) }
{
    let RawRow {
        topic,
        key,
        pid,
        meta,
        prev,
    } = raw;
    let Some(topic) = Topic::new(alloc, topic.as_str())? else {
        return Ok(None);
    };
    let Some(key) = Key::new(alloc, key.as_str())? else {
        return Ok(None);
    };
    let Some(meta) = meta else {
        return Ok(None);
    };
    let _within_limits = meta.text();
    let row = Row {
        topic,
        key,
        pid,
        meta,
        prev,
    };
    if !is_row_within(&row) {
        return Ok(None);
    }
    Ok(Some(row))
}

// The row with its dot, where it is within its limits and on this one of `shards` shards.
fn checked_entry(
    alloc: Global,
    dot: Dot,
    raw: RawRow,
    shard: u32,
    shards: u32,
) -> Result<Option<(Dot, Row)>, AllocError>
    requires { 1 ≤ shards }
    ensures { IfOk result (λ o. o ≡ guarded (is_raw_row shard shards (dot, raw)) (dot, raw)) }
{
    if !is_dot_within(&dot) {
        return Ok(None);
    }
    let Some(row) = checked_row(alloc, raw)? else {
        return Ok(None);
    };
    if shard_of(&row.topic, shards) != shard {
        return Ok(None);
    }
    Ok(Some((dot, row)))
}

// The rows, where each is within its limits and on this one of `shards` shards.
pub(crate) fn checked_rows(
    alloc: Global,
    live: Vec<(Dot, RawRow)>,
    shard: u32,
    shards: u32,
) -> Result<Vec<(Dot, Row)>, ToldFault>
    requires { 1 ≤ shards }
    ensures { AreRows result live.items (list_all (is_raw_row shard shards) live.items) }
{
    let mut rows = Vec::new(alloc);
    for (dot, raw) in live {
        let Some(row) = checked_entry(alloc, dot, raw, shard, shards)? else {
            return Err(ToldFault::RowLimits);
        };
        push_row(&mut rows, row)?;
    }
    Ok(rows)
}

fn push_row(rows: &mut Vec<(Dot, Row)>, row: (Dot, Row)) -> Result<(), AllocError>
    ensures { OnOk result (rows.new.items ≡ rows.old.items ++ row ∷ []) }
{
    rows.push(row)?;
    Ok(())
}
