//! Told values, read from a text and checked.
ghost use Rattle.std.specs.Prelude.{◌≡◌, ◌≤◌, List, Err, IfOk};
ghost use Rattle.std.specs.List.{list_all};
ghost use Rattle.json.specs.Json.{Json, Items as JsonItems, item, no_items};
ghost use Rattle.json.specs.Token.{Token};
ghost use Rattle.serde_json.specs.Data.{array};
ghost use Rattle.presence_base.specs.Order.{same_replica as is_replica};
ghost use Rattle.orswot_core.specs.Checks.{raw_value};
ghost use Rattle.orswot_core.specs.declared.form.Form.TheVariants.{One, Two};
ghost use Rattle.json_parts.specs.Places.{data_of, items_data, AtItems};
ghost use Rattle.link_lines.specs.declared.fault.LinkFault.TheVariants.{BadLine};
ghost use Rattle.link_lines.specs.ReadingMembers.{Found, kept_told_in, none_left};
ghost use Rattle.link_lines.specs.Results.{Answers, Gives};
ghost use Rattle.link_lines.specs.Told.{sound, told_in, are_own_ranges, is_delta_of, own_delta, delta_in};

use crate::fault::LinkFault;
use crate::hearer::{Hearer, Telling};
use crate::telling::{next_extras, next_ranges, next_rows};
use json::Reader;
use json_parts::{Begun, begin};
use orswot_core::{Form, RawRow, RawTold, Told, ToldFault};
use presence_base::{Dot, Replica};
use std::alloc::Global;

// The end of an array whose members were all read.
fn ended(reader: &mut Reader<'_>) -> Result<(), LinkFault>
    ensures { (js : JsonItems) (rest : List Token) → AtItems reader.old js rest
        → Found (λ u. u) reader.new rest result (none_left (items_data js)) }
{
    if reader.take_end_array() {
        Ok(())
    } else {
        Err(LinkFault::BadLine)
    }
}

// The value of the first form in whose array the reader stands, not checked yet.
fn raw_with_extras(alloc: Global, reader: &mut Reader<'_>) -> Result<RawTold, LinkFault>
    ensures value { (js : JsonItems) (rest : List Token) → AtItems reader.old js rest
        → Found raw_value reader.new rest result (kept_told_in One (array (items_data js))) }
    ensures form { IfOk result (λ raw. raw.form ≡ One) }
{
    let ranges = next_ranges(alloc, reader)?;
    let extras = next_extras(alloc, reader)?;
    let live = next_rows(alloc, reader)?;
    ended(reader)?;
    Ok(RawTold {
        form: Form::One,
        ranges,
        extras,
        live,
    })
}

// The value of the second form in whose array the reader stands, not checked yet.
fn raw_in_ranges(alloc: Global, reader: &mut Reader<'_>) -> Result<RawTold, LinkFault>
    ensures value { (js : JsonItems) (rest : List Token) → AtItems reader.old js rest
        → Found raw_value reader.new rest result (kept_told_in Two (array (items_data js))) }
    ensures form { IfOk result (λ raw. raw.form ≡ Two) }
{
    let ranges = next_ranges(alloc, reader)?;
    let live = next_rows(alloc, reader)?;
    ended(reader)?;
    Ok(RawTold {
        form: Form::Two,
        ranges,
        extras: Vec::new(alloc),
        live,
    })
}

// The value of this form in whose array the reader stands, not checked yet.
fn raw_told_of(alloc: Global, reader: &mut Reader<'_>, form: Form) -> Result<RawTold, LinkFault>
    ensures value { (js : JsonItems) (rest : List Token) → AtItems reader.old js rest
        → Found raw_value reader.new rest result (kept_told_in form (array (items_data js))) }
    ensures form { IfOk result (λ raw. raw.form ≡ form) }
{
    match form {
        Form::One => raw_with_extras(alloc, reader),
        Form::Two => raw_in_ranges(alloc, reader),
    }
}

// The told value, where nothing is wrong with it for this one of `shards` shards.
fn checked(
    alloc: Global,
    raw: RawTold,
    form: Form,
    shard: u32,
    shards: u32,
) -> Result<Told, LinkFault>
    requires form { raw.form ≡ form }
    requires some { 1 ≤ shards }
    ensures { Answers result (sound shard shards form (raw_value raw)) }
{
    match Told::check(alloc, raw, shard, shards) {
        Ok(told) => Ok(told),
        Err(ToldFault::OutOfMemory) => Err(LinkFault::OutOfMemory),
        Err(fault) => Err(LinkFault::BadTold(fault)),
    }
}

/// What a hearer is told by the value that is next in an array; where none is next, the line is a bad one.
pub fn next_told(
    alloc: Global,
    reader: &mut Reader<'_>,
    shard: u32,
    hearer: Hearer,
) -> Result<Telling, LinkFault>
    requires { 1 ≤ hearer.shards }
    ensures told { (j : Json) (more : JsonItems) (rest : List Token) → AtItems reader.old (item j more) rest
        → Answers result (told_in shard hearer (data_of j)) }
    ensures none { (rest : List Token) → AtItems reader.old no_items rest → result ≡ Err BadLine }
{
    let Some(form) = hearer.form else {
        return Err(LinkFault::BadLine);
    };
    let Begun::Array = begin(reader) else {
        return Err(LinkFault::BadLine);
    };
    let raw = raw_told_of(alloc, reader, form)?;
    let told = checked(alloc, raw, form, shard, hearer.shards)?;
    Ok(Telling { form, told })
}

fn same_replica(a: &Replica, b: &Replica) -> bool
    ensures { result ≡ is_replica a.now b.now }
{
    a.cmp(b).is_eq()
}

fn are_ranges_of(ranges: &[(Replica, u64, u64)], replica: &Replica) -> bool
    ensures { result ≡ list_all (λ g. is_replica g.0 replica.now) ranges.now }
{
    ranges.iter().all(|range| same_replica(&range.0, replica))
}

// Whether there are as many ranges as a beat of this form has, all of this replica.
fn has_own_ranges(form: Form, ranges: &[(Replica, u64, u64)], replica: &Replica) -> bool
    ensures { result ≡ are_own_ranges form replica.now ranges.now }
{
    match form {
        Form::One => ranges.len() == 1 && same_replica(&ranges[0].0, replica),
        Form::Two => ranges.len() > 0 && are_ranges_of(ranges, replica),
    }
}

fn are_extras_of(extras: &[Dot], replica: &Replica) -> bool
    ensures { result ≡ list_all (λ d. is_replica d.replica replica.now) extras.now }
{
    extras.iter().all(|dot| same_replica(&dot.replica, replica))
}

fn are_rows_of(live: &[(Dot, RawRow)], replica: &Replica) -> bool
    ensures { result ≡ list_all (λ x. is_replica x.0.replica replica.now) live.now }
{
    live.iter().all(|row| same_replica(&row.0.replica, replica))
}

// Whether there are such ranges, and nothing of another replica.
fn is_of_replica(raw: &RawTold, form: Form, replica: &Replica) -> bool
    ensures { result ≡ is_delta_of form replica.now (raw_value raw.now) }
{
    has_own_ranges(form, &raw.ranges, replica)
        && are_extras_of(&raw.extras, replica)
        && are_rows_of(&raw.live, replica)
}

// The same value, where all of it is of this replica.
fn only_of(raw: RawTold, form: Form, replica: &Replica) -> Result<RawTold, LinkFault>
    ensures value { Gives raw_value result (own_delta form replica.now (raw_value raw)) }
    ensures form { IfOk result (λ same. same.form ≡ raw.form) }
{
    if is_of_replica(&raw, form, replica) {
        Ok(raw)
    } else {
        Err(LinkFault::BadLine)
    }
}

// What a hearer is told of this replica by the value in whose array the reader stands.
fn delta_of(
    alloc: Global,
    reader: &mut Reader<'_>,
    shard: u32,
    hearer: Hearer,
    replica: &Replica,
) -> Result<Option<Telling>, LinkFault>
    requires { 1 ≤ hearer.shards }
    ensures { (js : JsonItems) (rest : List Token) → AtItems reader.old js rest
        → Answers result (delta_in shard hearer replica.now (array (items_data js))) }
{
    let Some(form) = hearer.form else {
        return Err(LinkFault::BadLine);
    };
    let raw = raw_told_of(alloc, reader, form)?;
    let own = only_of(raw, form, replica)?;
    let told = checked(alloc, own, form, shard, hearer.shards)?;
    Ok(Some(Telling { form, told }))
}

/// What a hearer is told of this replica by the value that is next in an array, or nothing where it is null; where none is
/// next, the line is a bad one.
pub fn next_delta(
    alloc: Global,
    reader: &mut Reader<'_>,
    shard: u32,
    hearer: Hearer,
    replica: &Replica,
) -> Result<Option<Telling>, LinkFault>
    requires { 1 ≤ hearer.shards }
    ensures delta { (j : Json) (more : JsonItems) (rest : List Token) → AtItems reader.old (item j more) rest
        → Answers result (delta_in shard hearer replica.now (data_of j)) }
    ensures none { (rest : List Token) → AtItems reader.old no_items rest → result ≡ Err BadLine }
{
    match begin(reader) {
        Begun::Null => Ok(None),
        Begun::Array => delta_of(alloc, reader, shard, hearer, replica),
        _ => Err(LinkFault::BadLine),
    }
}
