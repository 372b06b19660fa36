//! The JSON values that lines are written as.
ghost use Rattle.std.specs.Prelude.{◌≡◌, map, true, IfOk};
ghost use Rattle.serde_json.specs.View.{view};
ghost use Rattle.orswot_core.specs.declared.form.Form.TheVariants.{One, Two};
ghost use Rattle.presence_base.specs.Metas.{is_meta};
ghost use Rattle.link_lines.specs.declared.lines.Line.TheVariants as lines_are;
ghost use Rattle.link_lines.specs.Limits.{are_metas, delta_metas, has_metas};
ghost use Rattle.link_lines.specs.Values.{array_of, range_value, dot_value, prev_value, row_value, value_in, told_value, delta_value, value_of};

use crate::hearer::Telling;
use crate::lines::Line;
use orswot_core::{Form, Told};
use presence_base::{Dot, Replica, Row};
use serde_json::{Value, json};
use std::alloc::{AllocError, Global};

fn value_of_range(alloc: Global, range: &(Replica, u64, u64)) -> Result<Value, AllocError>
    ensures { IfOk result (λ v. view v ≡ range_value range.now) }
{
    let name = range.0.name.as_str();
    let incarnation = range.0.incarnation;
    let from = range.1;
    let to = range.2;
    json!(in alloc; [name, incarnation, from, to])
}

fn value_of_dot(alloc: Global, dot: &Dot) -> Result<Value, AllocError>
    ensures { IfOk result (λ v. view v ≡ dot_value dot.now) }
{
    let name = dot.replica.name.as_str();
    let incarnation = dot.replica.incarnation;
    let count = dot.count;
    json!(in alloc; [name, incarnation, count])
}

fn value_of_prev(alloc: Global, prev: &Option<Dot>) -> Result<Value, AllocError>
    ensures { IfOk result (λ v. view v ≡ prev_value prev.now) }
{
    match prev {
        Some(dot) => value_of_dot(alloc, dot),
        None => Ok(Value::Null),
    }
}

fn value_of_row(alloc: Global, dot: &Dot, row: &Row) -> Result<Value, AllocError>
    ensures value { IfOk result (λ v. view v ≡ row_value (dot.now, row.now)) }
    ensures meta { IfOk result (λ v. is_meta row.now.meta ≡ true) }
{
    let name = dot.replica.name.as_str();
    let incarnation = dot.replica.incarnation;
    let count = dot.count;
    let topic = row.topic.as_str();
    let key = row.key.as_str();
    let pid = row.pid;
    let meta = row.meta.to_value(alloc)?;
    let prev = value_of_prev(alloc, &row.prev)?;
    json!(in alloc; [name, incarnation, count, topic, key, pid, meta, prev])
}

fn values_of_ranges(alloc: Global, ranges: &[(Replica, u64, u64)]) -> Result<Vec<Value>, AllocError>
    ensures { IfOk result (λ v. map view v.items ≡ map range_value ranges.now) }
{
    let mut values = Vec::new(alloc);
    for range in ranges {
        values.push(value_of_range(alloc, range)?)?;
    }
    Ok(values)
}

fn values_of_dots(alloc: Global, dots: &[Dot]) -> Result<Vec<Value>, AllocError>
    ensures { IfOk result (λ v. map view v.items ≡ map dot_value dots.now) }
{
    let mut values = Vec::new(alloc);
    for dot in dots {
        values.push(value_of_dot(alloc, dot)?)?;
    }
    Ok(values)
}

fn values_of_rows(alloc: Global, rows: &[(Dot, Row)]) -> Result<Vec<Value>, AllocError>
    ensures values { IfOk result (λ v. map view v.items ≡ map row_value rows.now) }
    ensures metas { IfOk result (λ v. are_metas rows.now ≡ true) }
{
    let mut values = Vec::new(alloc);
    for row in rows {
        values.push(value_of_row(alloc, &row.0, &row.1)?)?;
    }
    Ok(values)
}

fn value_with_extras(alloc: Global, told: &Told) -> Result<Value, AllocError>
    ensures value { IfOk result (λ v. view v ≡ value_in One told.now) }
    ensures metas { IfOk result (λ v. are_metas told.now.live ≡ true) }
{
    let ranges = Value::Array(values_of_ranges(alloc, told.ranges())?);
    let extras = Value::Array(values_of_dots(alloc, told.extras())?);
    let live = Value::Array(values_of_rows(alloc, told.live())?);
    json!(in alloc; [ranges, extras, live])
}

fn value_in_ranges(alloc: Global, told: &Told) -> Result<Value, AllocError>
    ensures value { IfOk result (λ v. view v ≡ value_in Two told.now) }
    ensures metas { IfOk result (λ v. are_metas told.now.live ≡ true) }
{
    let ranges = Value::Array(values_of_ranges(alloc, told.ranges())?);
    let live = Value::Array(values_of_rows(alloc, told.live())?);
    json!(in alloc; [ranges, live])
}

fn value_of_told(alloc: Global, telling: &Telling) -> Result<Value, AllocError>
    ensures value { IfOk result (λ v. view v ≡ told_value telling.now) }
    ensures metas { IfOk result (λ v. are_metas telling.now.told.live ≡ true) }
{
    match telling.form {
        Form::One => value_with_extras(alloc, &telling.told),
        Form::Two => value_in_ranges(alloc, &telling.told),
    }
}

fn value_of_delta(alloc: Global, delta: &Option<Telling>) -> Result<Value, AllocError>
    ensures value { IfOk result (λ v. view v ≡ delta_value delta.now) }
    ensures metas { IfOk result (λ v. delta_metas delta.now ≡ true) }
{
    match delta {
        Some(told) => value_of_told(alloc, told),
        None => Ok(Value::Null),
    }
}

fn value_of_beat(
    alloc: Global,
    shard: u32,
    replica: &Replica,
    count: u64,
    delta: &Option<Telling>,
) -> Result<Value, AllocError>
    ensures value { IfOk result (λ v. view v ≡ value_of (lines_are.Beat shard replica.now count delta.now)) }
    ensures metas { IfOk result (λ v. delta_metas delta.now ≡ true) }
{
    let name = replica.name.as_str();
    let incarnation = replica.incarnation;
    let delta = value_of_delta(alloc, delta)?;
    json!(in alloc; ["beat", shard, name, incarnation, count, delta])
}

fn value_of_want(
    alloc: Global,
    shard: u32,
    replica: &Replica,
    top: u64,
) -> Result<Value, AllocError>
    ensures { IfOk result (λ v. view v ≡ value_of (lines_are.Want shard replica.now top)) }
{
    let name = replica.name.as_str();
    let incarnation = replica.incarnation;
    json!(in alloc; ["want", shard, name, incarnation, top])
}

fn value_of_told_line(alloc: Global, shard: u32, told: &Telling) -> Result<Value, AllocError>
    ensures value { IfOk result (λ v. view v ≡ value_of (lines_are.Told shard told.now)) }
    ensures metas { IfOk result (λ v. are_metas told.now.told.live ≡ true) }
{
    let told = value_of_told(alloc, told)?;
    json!(in alloc; ["told", shard, told])
}

fn value_of_hello(
    alloc: Global,
    replica: &Replica,
    shards: u32,
    version: Option<u64>,
) -> Result<Value, AllocError>
    ensures { IfOk result (λ v. view v ≡ value_of (lines_are.Hello replica.now shards version)) }
{
    let name = replica.name.as_str();
    let incarnation = replica.incarnation;
    match version {
        Some(version) => json!(in alloc; ["hello", name, incarnation, shards, version]),
        None => json!(in alloc; ["hello", name, incarnation, shards]),
    }
}

fn value_of_permdown(alloc: Global, replica: &Replica) -> Result<Value, AllocError>
    ensures { IfOk result (λ v. view v ≡ value_of (lines_are.PermDown replica.now)) }
{
    let name = replica.name.as_str();
    let incarnation = replica.incarnation;
    json!(in alloc; ["permdown", name, incarnation])
}

fn value_of_gone(alloc: Global, replica: &Replica) -> Result<Value, AllocError>
    ensures { IfOk result (λ v. view v ≡ value_of (lines_are.Gone replica.now)) }
{
    let name = replica.name.as_str();
    let incarnation = replica.incarnation;
    json!(in alloc; ["gone", name, incarnation])
}

// The array that the line is written as.
pub(crate) fn value_of_line(alloc: Global, line: &Line) -> Result<Value, AllocError>
    ensures value { IfOk result (λ v. view v ≡ value_of line.now) }
    ensures metas { IfOk result (λ v. has_metas line.now ≡ true) }
{
    match line {
        Line::Hello {
            replica,
            shards,
            version,
        } => value_of_hello(alloc, replica, *shards, *version),
        Line::Beat {
            shard,
            replica,
            count,
            delta,
        } => value_of_beat(alloc, *shard, replica, *count, delta),
        Line::Want {
            shard,
            replica,
            top,
        } => value_of_want(alloc, *shard, replica, *top),
        Line::Told { shard, told } => value_of_told_line(alloc, *shard, told),
        Line::PermDown { replica } => value_of_permdown(alloc, replica),
        Line::Gone { replica } => value_of_gone(alloc, replica),
        Line::Ok => json!(in alloc; ["ok"]),
    }
}
