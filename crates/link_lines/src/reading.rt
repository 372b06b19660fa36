//! The lines, read from JSON texts.
ghost use Rattle.std.specs.Prelude.{◌≡◌, ◌≤◌, Some, Ok};
ghost use Rattle.serde_json.specs.Data.{Data};
ghost use Rattle.serde_json.specs.Read.{read};
ghost use Rattle.serde_json.specs.View.{view, items_view};
ghost use Rattle.json_parts.specs.Outline.{shallow as shallow_data};
ghost use Rattle.link_lines.specs.declared.telling.TheConstants.{MOST};
ghost use Rattle.link_lines.specs.Reading.{shard_in, hello_with as with_version, hello_in, beat_in, want_in, told_line_in, permdown_in, gone_in, ok_items, ok_in, line_of_kind, line_in, AnswersArray};
ghost use Rattle.link_lines.specs.Results.{Answers, Gives, or_bad as found_or_bad};

use crate::arrays::{five_of, four_of, six_of, three_of};
use crate::fault::LinkFault;
use crate::hearer::Hearer;
use crate::kinds::{Kind, kind_of};
use crate::lines::Line;
use crate::members::{bound_of, number_of, replica_of, whole_of};
use crate::telling::MOST;
use crate::told::{next_delta, next_told};
use json::{Reader, Scratch};
use json_parts::{few_items, shallow};
use presence_base::{MAX_COUNT, MAX_SHARDS};
use serde_json::Value;
use std::alloc::Global;

// The number of one of `shards` shards that the value is.
fn shard_of(value: &Value, shards: u32) -> Result<u32, LinkFault>
    ensures { result ≡ shard_in shards (view value.now) }
{
    match whole_of(value) {
        Some(n) => {
            if n < shards as u64 {
                Ok(n as u32)
            } else {
                Err(LinkFault::BadLine)
            }
        }
        None => Err(LinkFault::BadLine),
    }
}

// What was found, or that nothing was.
fn or_bad<T>(found: Option<T>) -> Result<T, LinkFault>
    ensures { result ≡ found_or_bad found }
{
    match found {
        Some(value) => Ok(value),
        None => Err(LinkFault::BadLine),
    }
}

fn hello_with(
    alloc: Global,
    name: &Value,
    incarnation: &Value,
    shards: &Value,
    version: Option<u64>,
) -> Result<Line, LinkFault>
    ensures { Answers result (with_version (view name.now) (view incarnation.now) (view shards.now) version) }
{
    let replica = or_bad(replica_of(alloc, name, incarnation))?;
    let shards = or_bad(number_of(shards, 1, MAX_SHARDS as u64))?;
    Ok(Line::Hello {
        replica,
        shards: shards as u32,
        version,
    })
}

fn hello_of(alloc: Global, value: &Value) -> Result<Line, LinkFault>
    ensures { Answers result (hello_in (view value.now)) }
{
    if let Some((_, name, incarnation, shards)) = four_of(value) {
        return hello_with(alloc, name, incarnation, shards, None);
    }
    let Some((_, name, incarnation, shards, version)) = five_of(value) else {
        return Err(LinkFault::BadLine);
    };
    let version = or_bad(number_of(version, 1, MAX_COUNT))?;
    hello_with(alloc, name, incarnation, shards, Some(version))
}

// The beat whose line is the value, without what is in its members, and in whose array the reader stands.
fn beat_of(
    alloc: Global,
    reader: &mut Reader<'_>,
    value: &Value,
    hearer: Hearer,
) -> Result<Line, LinkFault>
    requires { 1 ≤ hearer.shards }
    ensures { AnswersArray reader.old (view value.now) (beat_in hearer) result }
{
    let Some((_, shard, name, incarnation, count, _)) = six_of(value) else {
        return Err(LinkFault::BadLine);
    };
    let shard = shard_of(shard, hearer.shards)?;
    let replica = or_bad(replica_of(alloc, name, incarnation))?;
    let count = or_bad(bound_of(count))?;
    few_items(alloc, reader, 5)?;
    let delta = next_delta(alloc, reader, shard, hearer, &replica)?;
    Ok(Line::Beat {
        shard,
        replica,
        count,
        delta,
    })
}

fn want_of(alloc: Global, value: &Value, shards: u32) -> Result<Line, LinkFault>
    ensures { Answers result (want_in shards (view value.now)) }
{
    let Some((_, shard, name, incarnation, top)) = five_of(value) else {
        return Err(LinkFault::BadLine);
    };
    let shard = shard_of(shard, shards)?;
    let replica = or_bad(replica_of(alloc, name, incarnation))?;
    let top = or_bad(bound_of(top))?;
    Ok(Line::Want {
        shard,
        replica,
        top,
    })
}

// The same of what is told.
fn told_line_of(
    alloc: Global,
    reader: &mut Reader<'_>,
    value: &Value,
    hearer: Hearer,
) -> Result<Line, LinkFault>
    requires { 1 ≤ hearer.shards }
    ensures { AnswersArray reader.old (view value.now) (told_line_in hearer) result }
{
    let Some((_, shard, _)) = three_of(value) else {
        return Err(LinkFault::BadLine);
    };
    let shard = shard_of(shard, hearer.shards)?;
    few_items(alloc, reader, 2)?;
    let told = next_told(alloc, reader, shard, hearer)?;
    Ok(Line::Told { shard, told })
}

fn permdown_of(alloc: Global, value: &Value) -> Result<Line, LinkFault>
    ensures { Answers result (permdown_in (view value.now)) }
{
    let Some((_, name, incarnation)) = three_of(value) else {
        return Err(LinkFault::BadLine);
    };
    let replica = or_bad(replica_of(alloc, name, incarnation))?;
    Ok(Line::PermDown { replica })
}

fn gone_of(alloc: Global, value: &Value) -> Result<Line, LinkFault>
    ensures { Answers result (gone_in (view value.now)) }
{
    let Some((_, name, incarnation)) = three_of(value) else {
        return Err(LinkFault::BadLine);
    };
    let replica = or_bad(replica_of(alloc, name, incarnation))?;
    Ok(Line::Gone { replica })
}

fn ok_of_items(items: &[Value]) -> Result<Line, LinkFault>
    ensures { Answers result (ok_items (items_view items.now)) }
{
    if items.len() != 1 {
        return Err(LinkFault::BadLine);
    }
    Ok(Line::Ok)
}

fn ok_of(value: &Value) -> Result<Line, LinkFault>
    ensures { Answers result (ok_in (view value.now)) }
{
    match value {
        Value::Array(items) => ok_of_items(items),
        _ => Err(LinkFault::BadLine),
    }
}

// The line of this kind in whose array the reader stands, and that the value is without what is in its members.
fn line_of(
    alloc: Global,
    reader: &mut Reader<'_>,
    kind: Kind,
    value: &Value,
    hearer: Hearer,
) -> Result<Line, LinkFault>
    requires { 1 ≤ hearer.shards }
    ensures { AnswersArray reader.old (view value.now) (λ d. line_of_kind hearer d kind) result }
{
    match kind {
        Kind::Hello => hello_of(alloc, value),
        Kind::Beat => beat_of(alloc, reader, value, hearer),
        Kind::Want => want_of(alloc, value, hearer.shards),
        Kind::Told => told_line_of(alloc, reader, value, hearer),
        Kind::PermDown => permdown_of(alloc, value),
        Kind::Gone => gone_of(alloc, value),
        Kind::Ok => ok_of(value),
    }
}

// The value that the JSON text is, without what is in its members.
fn outline_of(alloc: Global, text: &str, scratch: &mut Scratch) -> Result<Value, LinkFault>
    ensures { (d : Data) → read text.now ≡ Some d → Gives view result (Ok (shallow_data MOST d)) }
{
    let Ok(mut reader) = Reader::new(text, scratch) else {
        return Err(LinkFault::OutOfMemory);
    };
    Ok(shallow(alloc, &mut reader, MOST)?)
}

// The line that the JSON text is.
pub(crate) fn line_of_json(
    alloc: Global,
    text: &str,
    scratch: &mut Scratch,
    hearer: Hearer,
) -> Result<Line, LinkFault>
    requires { 1 ≤ hearer.shards }
    ensures { (d : Data) → read text.now ≡ Some d → Answers result (line_in hearer d) }
{
    let value = outline_of(alloc, text, scratch)?;
    let kind = or_bad(kind_of(&value))?;
    let Ok(mut reader) = Reader::new(text, scratch) else {
        return Err(LinkFault::OutOfMemory);
    };
    // A line that has a kind is an array: behind its bracket stand its members.
    reader.next();
    line_of(alloc, &mut reader, kind, &value, hearer)
}
