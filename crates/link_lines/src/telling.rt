//! The parts of a told value: ranges, dots and rows, and the lists of these, read one by one.
ghost use Rattle.std.specs.Prelude.{◌≡◌, ◌<◌, List, length, OnOk, IfOk, IfSome, option_map, unwrap_or};
ghost use Rattle.json.specs.Json.{Items as JsonItems};
ghost use Rattle.json.specs.Token.{Token};
ghost use Rattle.serde_json.specs.Data.{null, array};
ghost use Rattle.serde_json.specs.View.{view, items_view};
ghost use Rattle.json_parts.specs.Places.{items_data, AtItems};
ghost use Rattle.link_lines.specs.ReadingMembers.{Found, FoundNext, IsNextRow};
ghost use Rattle.link_lines.specs.Results.{Adds, or_bad};
ghost use Rattle.link_lines.specs.Rows.{front_in, entry_in, kept_row_in, raw_row_in};
ghost use Rattle.link_lines.specs.Taken.{front_view};
ghost use Rattle.link_lines.specs.Telling.{range_in, extra_in, prev_in, each_in, list_in};

use crate::arrays::{four_of, take_six_items, three_of};
use crate::fault::LinkFault;
use crate::members::{bound_of, dot_of, replica_of, text_of, whole_of};
use json::Reader;
use json_parts::{Begun, begin, few_items, next_meta, next_shallow};
use orswot_core::RawRow;
use presence_base::{Dot, Meta, Replica};
use serde_json::Value;
use std::alloc::Global;

/// How many items of an array are read: more than any array of a line has that is no list.
pub const MOST: usize = 9;

// The range that the value is: a replica, and the counts that it begins above and ends at.
fn range_of(alloc: Global, value: &Value) -> Option<(Replica, u64, u64)>
    ensures { result ≡ range_in (view value.now) }
{
    let (name, incarnation, from, to) = four_of(value)?;
    let replica = replica_of(alloc, name, incarnation)?;
    let from = bound_of(from)?;
    let to = bound_of(to)?;
    Some((replica, from, to))
}

// The same of a value that isn't needed any more.
fn range_from(alloc: Global, value: Value) -> Option<(Replica, u64, u64)>
    ensures { result ≡ range_in (view value) }
{
    range_of(alloc, &value)
}

// The dot that the value is.
fn extra_of(alloc: Global, value: &Value) -> Option<Dot>
    ensures { result ≡ extra_in (view value.now) }
{
    let (name, incarnation, count) = three_of(value)?;
    dot_of(alloc, name, incarnation, count)
}

fn extra_from(alloc: Global, value: Value) -> Option<Dot>
    ensures { result ≡ extra_in (view value) }
{
    extra_of(alloc, &value)
}

// The dot that the value is, or none where it is null.
fn prev_of(alloc: Global, value: &Value) -> Option<Option<Dot>>
    ensures { result ≡ prev_in (view value.now) }
{
    match value {
        Value::Null => Some(None),
        _ => match extra_of(alloc, value) {
            Some(dot) => Some(Some(dot)),
            None => None,
        },
    }
}

// The row of these members, with its meta where it has one.
fn raw_row_of(
    alloc: Global,
    topic: Value,
    key: Value,
    pid: &Value,
    meta: Option<Meta>,
    prev: &Value,
) -> Option<RawRow>
    ensures { result ≡ raw_row_in (view topic) (view key) (view pid.now) (unwrap_or meta null) (view prev.now) }
{
    let topic = text_of(topic)?;
    let key = text_of(key)?;
    let pid = whole_of(pid)?;
    let prev = prev_of(alloc, prev)?;
    Some(RawRow {
        topic,
        key,
        pid,
        meta,
        prev,
    })
}

// What is read of a row before its meta.
#[derive(Drop)]
struct Front {
    dot: Dot,
    topic: Value,
    key: Value,
    pid: Value,
}

// The dot of a row, its topic, its key and its pid, where there are as many members.
fn front_of(alloc: Global, items: Vec<Value>) -> Option<Front>
    ensures { option_map front_view result ≡ front_in (items_view items.items) }
{
    let (name, incarnation, count, topic, key, pid) = take_six_items(items)?;
    let dot = dot_of(alloc, &name, &incarnation, &count)?;
    Some(Front {
        dot,
        topic,
        key,
        pid,
    })
}

// The row of what was read of it, with its dot.
fn row_from(alloc: Global, front: Front, meta: Option<Meta>, prev: Value) -> Option<(Dot, RawRow)>
    ensures { result ≡ entry_in (front_view front) (unwrap_or meta null) (view prev) }
{
    let Front {
        dot,
        topic,
        key,
        pid,
    } = front;
    let row = raw_row_of(alloc, topic, key, &pid, meta, &prev)?;
    Some((dot, row))
}

// The row in whose array the reader stands, with its dot.
fn row_of(alloc: Global, reader: &mut Reader<'_>) -> Result<(Dot, RawRow), LinkFault>
    ensures row { (js : JsonItems) (rest : List Token) → AtItems reader.old js rest
        → Found (λ x. x) reader.new rest result (or_bad (kept_row_in (array (items_data js)))) }
    ensures shorter { OnOk result (length reader.new < length reader.old) }
{
    let items = few_items(alloc, reader, 6)?;
    let Some(front) = front_of(alloc, items) else {
        return Err(LinkFault::BadLine);
    };
    let Some(meta) = next_meta(alloc, reader)? else {
        return Err(LinkFault::BadLine);
    };
    let Some(prev) = next_shallow(alloc, reader, MOST)? else {
        return Err(LinkFault::BadLine);
    };
    if !reader.take_end_array() {
        return Err(LinkFault::BadLine);
    }
    let Some(row) = row_from(alloc, front, meta, prev) else {
        return Err(LinkFault::BadLine);
    };
    Ok(row)
}

// The ranges in whose list the reader stands.
fn ranges_in(alloc: Global, reader: &mut Reader<'_>) -> Result<Vec<(Replica, u64, u64)>, LinkFault>
    ensures { (js : JsonItems) (rest : List Token) → AtItems reader.old js rest
        → Found (λ v. v.items) reader.new rest result (or_bad (each_in range_in (items_data js))) }
{
    let mut ranges = Vec::new(alloc);
    while let Some(item) = next_shallow(alloc, reader, MOST)? {
        let Some(range) = range_from(alloc, item) else {
            return Err(LinkFault::BadLine);
        };
        push(&mut ranges, range)?;
    }
    Ok(ranges)
}

// The list of ranges that is next.
pub(crate) fn next_ranges(
    alloc: Global,
    reader: &mut Reader<'_>,
) -> Result<Vec<(Replica, u64, u64)>, LinkFault>
    ensures { (js : JsonItems) (rest : List Token) → AtItems reader.old js rest
        → FoundNext (λ v. v.items) (list_in range_in) js rest reader.new result }
{
    match begin(reader) {
        Begun::Array => ranges_in(alloc, reader),
        _ => Err(LinkFault::BadLine),
    }
}

// The dots in whose list the reader stands.
fn extras_in(alloc: Global, reader: &mut Reader<'_>) -> Result<Vec<Dot>, LinkFault>
    ensures { (js : JsonItems) (rest : List Token) → AtItems reader.old js rest
        → Found (λ v. v.items) reader.new rest result (or_bad (each_in extra_in (items_data js))) }
{
    let mut dots = Vec::new(alloc);
    while let Some(item) = next_shallow(alloc, reader, MOST)? {
        let Some(dot) = extra_from(alloc, item) else {
            return Err(LinkFault::BadLine);
        };
        push(&mut dots, dot)?;
    }
    Ok(dots)
}

// The list of dots that is next.
pub(crate) fn next_extras(alloc: Global, reader: &mut Reader<'_>) -> Result<Vec<Dot>, LinkFault>
    ensures { (js : JsonItems) (rest : List Token) → AtItems reader.old js rest
        → FoundNext (λ v. v.items) (list_in extra_in) js rest reader.new result }
{
    match begin(reader) {
        Begun::Array => extras_in(alloc, reader),
        _ => Err(LinkFault::BadLine),
    }
}

// The next row of a list, or none at its end.
fn next_row(alloc: Global, reader: &mut Reader<'_>) -> Result<Option<(Dot, RawRow)>, LinkFault>
    ensures row { (js : JsonItems) (rest : List Token) → AtItems reader.old js rest
        → IsNextRow js rest reader.new result }
    ensures shorter { IfOk result (λ o. IfSome o (λ _. length reader.new < length reader.old)) }
{
    match begin(reader) {
        Begun::End => Ok(None),
        Begun::Array => Ok(Some(row_of(alloc, reader)?)),
        _ => Err(LinkFault::BadLine),
    }
}

// The rows in whose list the reader stands, each with its dot.
fn rows_in(alloc: Global, reader: &mut Reader<'_>) -> Result<Vec<(Dot, RawRow)>, LinkFault>
    ensures { (js : JsonItems) (rest : List Token) → AtItems reader.old js rest
        → Found (λ v. v.items) reader.new rest result (or_bad (each_in kept_row_in (items_data js))) }
{
    let mut rows = Vec::new(alloc);
    while let Some(row) = next_row(alloc, reader)? {
        push_row(&mut rows, row)?;
    }
    Ok(rows)
}

// The list of rows that is next.
pub(crate) fn next_rows(
    alloc: Global,
    reader: &mut Reader<'_>,
) -> Result<Vec<(Dot, RawRow)>, LinkFault>
    ensures { (js : JsonItems) (rest : List Token) → AtItems reader.old js rest
        → FoundNext (λ v. v.items) (list_in kept_row_in) js rest reader.new result }
{
    match begin(reader) {
        Begun::Array => rows_in(alloc, reader),
        _ => Err(LinkFault::BadLine),
    }
}

// Adds a range or a dot.
fn push<T: Copy>(list: &mut Vec<T>, item: T) -> Result<(), LinkFault>
    ensures { Adds list.old.items list.new.items item result }
{
    match list.push(item) {
        Ok(()) => Ok(()),
        Err(_) => Err(LinkFault::OutOfMemory),
    }
}

fn push_row(rows: &mut Vec<(Dot, RawRow)>, row: (Dot, RawRow)) -> Result<(), LinkFault>
    ensures { Adds rows.old.items rows.new.items row result }
{
    match rows.push(row) {
        Ok(()) => Ok(()),
        Err(_) => Err(LinkFault::OutOfMemory),
    }
}
