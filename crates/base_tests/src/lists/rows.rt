//! Rows of `room:lobby`, as node `a` has them in its first life.

use presence_base::{Dot, Key, Meta, NodeName, Replica, Row, Topic};
use presence_journal::{RowDiff, Rows};
use serde_json::json;
use std::alloc::Global;

pub(super) fn dot_of(alloc: Global, count: u64) -> Option<Dot> {
    let Ok(Some(name)) = NodeName::new(alloc, "a") else {
        return None;
    };
    let replica = Replica {
        name,
        incarnation: 1,
    };
    Some(Dot { replica, count })
}

pub(super) fn lobby(alloc: Global) -> Option<Topic> {
    let Ok(Some(topic)) = Topic::new(alloc, "room:lobby") else {
        return None;
    };
    Some(topic)
}

fn key_of(alloc: Global, text: &str) -> Option<Key> {
    let Ok(Some(key)) = Key::new(alloc, text) else {
        return None;
    };
    Some(key)
}

// The meta `{"x":x}`.
fn meta_of(alloc: Global, x: u64) -> Option<Meta> {
    let Ok(value) = json!(in alloc; {"x": x}) else {
        return None;
    };
    let Ok(Some(meta)) = Meta::new(alloc, value) else {
        return None;
    };
    Some(meta)
}

// The row of this key and count with the meta `{"x":x}`, which replaced that of `prev`.
fn row_of(alloc: Global, key: &str, count: u64, x: u64, prev: Option<Dot>) -> Option<(Dot, Row)> {
    let dot = dot_of(alloc, count)?;
    let topic = lobby(alloc)?;
    let key = key_of(alloc, key)?;
    let meta = meta_of(alloc, x)?;
    let row = Row {
        topic,
        key,
        pid: 1,
        meta,
        prev,
    };
    Some((dot, row))
}

// The rows of these keys, counts and metas.
pub(super) fn rows_of(alloc: Global, given: &[(&str, u64, u64)]) -> Option<Vec<(Dot, Row)>> {
    let mut rows = Vec::new(alloc);
    for (key, count, x) in given {
        let row = row_of(alloc, key, *count, *x, None)?;
        let Ok(()) = rows.push(row) else {
            return None;
        };
    }
    Some(rows)
}

// The row of the tracked join.
pub(super) fn tracked(alloc: Global) -> Option<Vec<(Dot, Row)>> {
    rows_of(alloc, &[("u1", 1, 1)])
}

// The row of the update after it.
pub(super) fn updated(alloc: Global) -> Option<Vec<(Dot, Row)>> {
    let prev = dot_of(alloc, 1)?;
    let row = row_of(alloc, "u1", 2, 2, Some(prev))?;
    let mut rows = Vec::new(alloc);
    let Ok(()) = rows.push(row) else {
        return None;
    };
    Some(rows)
}

// What the update changes.
pub(super) fn update(alloc: Global) -> Option<RowDiff> {
    let joins = Rows::new(updated(alloc)?);
    let leaves = Rows::new(tracked(alloc)?);
    Some(RowDiff { joins, leaves })
}
