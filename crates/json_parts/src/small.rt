//! Metas, read from a text of any length.
ghost use Rattle.std.specs.Prelude.{◌≡◌, ◌≤◌, ◌<◌, ◌+◌, ◌++◌, ◌∷◌, [], ℕ, List, string_bytes, length, OnOk, IfSome, option_map};
ghost use Rattle.json.specs.Json.{Items, Members};
ghost use Rattle.json.specs.Token.{Token as TokenValue};
ghost use Rattle.presence_base.specs.Metas.{is_meta};
ghost use Rattle.presence_base.specs.Names.{guarded};
ghost use Rattle.std.specs.BTreeMap.{insert_entry};
ghost use Rattle.std.specs.String.{string_cmp};
ghost use Rattle.presence_base.specs.declared.meta.TheConstants.{MAX_META_DEPTH};
ghost use Rattle.serde_json.specs.Data.{Data, depth, array, object, no_members, put, Members as DataMembers};
ghost use Rattle.serde_json.specs.Read.{max_depth, read};
ghost use Rattle.serde_json.specs.View.{view, members_view};
ghost use Rattle.json_parts.specs.Places.{items_data, members_data, AtItems, AtMembers, Gets, Leaves, Reads};
ghost use Rattle.json_parts.specs.Small.{HoldsAll, IsNextMeta, IsPart, IsTaken, part_in, part_view};

use crate::brief::{brief_of, skip_items, skip_members};
use crate::items::push;
use crate::whole::MAX_DEPTH;
use json::{Error, Reader, Token};
use presence_base::{MAX_META_BYTES, MAX_META_DEPTH, Meta};
use serde_json::{Map, Value};
use std::alloc::Global;
use std::collections::BTreeMap;

// An object of more members is too large for a meta: the text of each is of three bytes or more.
const MAX_MEMBERS: usize = 5_462;

// How many values an object's members hold as they were read. Of more some are replaced by later members of their
// keys, or the object is too large: these are held as texts, so that memory stays in proportion to the text.
const MAX_HELD: usize = 32_768;

// A value that was read, and how many values are in it, itself not counted.
#[derive(Drop)]
struct Part {
    value: Value,
    values: usize,
}

// A member of an object that is being read: its value or the text of it, and how many values are in it.
#[derive(Drop)]
pub(crate) enum Held {
    Plain(Value, usize),
    Text(String, usize),
    TooLarge,
}

// The value of a part, which is counted off the bytes that are left for it, or none where they don't do.
fn take(part: Option<Part>, left: &mut usize) -> Option<Value>
    ensures { IsTaken (option_map part_view part) left.old left.new (option_map view result) }
{
    let Some(Part { value, values }) = part else {
        return None;
    };
    if values >= *left {
        return None;
    }
    *left -= values + 1;
    Some(value)
}

// The next value, where it's small.
#[cycle(small)]
fn small_value(alloc: Global, reader: &mut Reader<'_>, limit: u32) -> Result<Option<Part>, Error>
    requires low { limit ≤ MAX_META_DEPTH }
    ensures read { Reads reader.old reader.new result (λ d o. IsPart limit d (option_map part_view o)) }
    ensures shorter { OnOk result (length reader.new < length reader.old) }
{
    let token = reader.next().ok_or(Error::Invalid)?;
    match token {
        Token::BeginArray => {
            if limit == 0 {
                skip_items(reader)?;
                return Ok(None);
            }
            small_items(alloc, reader, limit - 1)
        }
        Token::BeginObject => {
            if limit == 0 {
                skip_members(reader)?;
                return Ok(None);
            }
            small_members(alloc, reader, limit - 1)
        }
        _ => {
            let value = brief_of(alloc, reader, token)?;
            Ok(Some(Part { value, values: 0 }))
        }
    }
}

// The array in which the reader stands, where it's small and its items nest at most so deep.
#[cycle(small)]
fn small_items(alloc: Global, reader: &mut Reader<'_>, limit: u32) -> Result<Option<Part>, Error>
    requires low { limit ≤ MAX_META_DEPTH }
    ensures read { (js : Items) (rest : List TokenValue) → AtItems reader.old js rest
        → Leaves reader.new rest result (λ o. IsPart (limit + 1) (array (items_data js)) (option_map part_view o)) }
    ensures shorter { OnOk result (length reader.new < length reader.old) }
{
    let mut items = Vec::new(alloc);
    let mut left = MAX_META_BYTES;
    while !reader.take_end_array() {
        let part = small_value(alloc, reader, limit)?;
        let Some(item) = take(part, &mut left) else {
            skip_items(reader)?;
            return Ok(None);
        };
        push(&mut items, item)?;
    }
    Ok(Some(Part {
        value: Value::Array(items),
        values: MAX_META_BYTES - left,
    }))
}

// What is held of a member, as it was read where there is room for its values.
fn hold(alloc: Global, part: Option<Part>, room: &mut usize) -> Result<Held, Error>
    ensures { IfSome part (λ p. depth (view p.value) ≤ max_depth)
        → Gets result (λ h. part_in h ≡ option_map part_view part) }
{
    let Some(Part { value, values }) = part else {
        return Ok(Held::TooLarge);
    };
    if values <= *room {
        *room -= values;
        return Ok(Held::Plain(value, values));
    }
    let text = value.to_string(alloc)?;
    Ok(Held::Text(text, values))
}

// The value that a text is, with how many are in it.
fn read_again(alloc: Global, text: &str, values: usize) -> Result<Option<Part>, Error>
    ensures { Gets result (λ o. option_map part_view o ≡ option_map (λ d. (d, values)) (read text.now)) }
{
    match Value::from_str(alloc, text) {
        Ok(value) => Ok(Some(Part { value, values })),
        Err(error) => if error.is_memory() {
            Err(Error::OutOfMemory)
        } else {
            Ok(None)
        },
    }
}

// The part that is held of a member.
fn freed(alloc: Global, member: Held) -> Result<Option<Part>, Error>
    ensures { Gets result (λ o. option_map part_view o ≡ part_in member) }
{
    match member {
        Held::Plain(value, values) => Ok(Some(Part { value, values })),
        Held::Text(text, values) => read_again(alloc, text.as_str(), values),
        Held::TooLarge => Ok(None),
    }
}

// The object of the members that are held, where it's small.
fn released(alloc: Global, held: BTreeMap<String, Held>) -> Result<Option<Part>, Error>
    ensures { (limit : ℕ) (ms : DataMembers) → HoldsAll limit held.entries ms
        → Gets result (λ o. IsPart (limit + 1) (object ms) (option_map part_view o)) }
{
    let mut members = Map::new(alloc);
    let mut left = MAX_META_BYTES;
    for (key, member) in held {
        let part = freed(alloc, member)?;
        let Some(value) = take(part, &mut left) else {
            return Ok(None);
        };
        insert(&mut members, key, value)?;
    }
    Ok(Some(Part {
        value: Value::Object(members),
        values: MAX_META_BYTES - left,
    }))
}

fn insert(members: &mut Map<String, Value>, key: String, value: Value) -> Result<(), Error>
    ensures { Gets result (λ _. members_view members.new.entries
        ≡ put (string_bytes key) (view value) (members_view members.old.entries)) }
{
    match members.insert(key, value) {
        Ok(before) => {
            drop(before);
            Ok(())
        }
        Err(_) => Err(Error::OutOfMemory),
    }
}

// The object in which the reader stands, where it's small and its members nest at most so deep.
#[cycle(small)]
fn small_members(alloc: Global, reader: &mut Reader<'_>, limit: u32) -> Result<Option<Part>, Error>
    requires low { limit ≤ MAX_META_DEPTH }
    ensures read { (ms : Members) (rest : List TokenValue) → AtMembers reader.old ms rest
        → Leaves reader.new rest result
        (λ o. IsPart (limit + 1) (object (members_data ms no_members)) (option_map part_view o)) }
    ensures shorter { OnOk result (length reader.new < length reader.old) }
{
    let mut held = BTreeMap::new(alloc);
    let mut room = MAX_HELD;
    while let Some(name) = reader.next_key()? {
        if held.len() >= MAX_MEMBERS {
            reader.skip_value(MAX_DEPTH)?;
            skip_members(reader)?;
            return Ok(None);
        }
        let key = String::from_str(alloc, name)?;
        let part = small_value(alloc, reader, limit)?;
        let member = hold(alloc, part, &mut room)?;
        keep(&mut held, key, member)?;
    }
    released(alloc, held)
}

fn keep(held: &mut BTreeMap<String, Held>, key: String, member: Held) -> Result<(), Error>
    ensures { Gets result (λ _. held.new.entries ≡ insert_entry string_cmp held.old.entries key member) }
{
    match held.insert(key, member) {
        Ok(before) => {
            drop(before);
            Ok(())
        }
        Err(_) => Err(Error::OutOfMemory),
    }
}

// The meta that the value is, where it is one.
fn meta_of(alloc: Global, part: Option<Part>) -> Result<Option<Meta>, Error>
    ensures { (d : Data) → IsPart MAX_META_DEPTH d (option_map part_view part)
        → Gets result (λ m. m ≡ guarded (is_meta d) d) }
{
    match part {
        Some(Part { value, values: _ }) => Ok(Meta::new(alloc, value)?),
        None => Ok(None),
    }
}

/// The meta of the object that is next in an array, where it is one, or none where no object is next.
pub fn next_meta(alloc: Global, reader: &mut Reader<'_>) -> Result<Option<Option<Meta>>, Error>
    ensures next { (js : Items) (rest : List TokenValue) → AtItems reader.old js rest
        → IsNextMeta js rest reader.new result }
    ensures shorter { OnOk result (length reader.new ≤ length reader.old) }
{
    let Some(token) = reader.next() else {
        return Ok(None);
    };
    let Token::BeginObject = token else {
        return Ok(None);
    };
    let part = small_members(alloc, reader, MAX_META_DEPTH - 1)?;
    Ok(Some(meta_of(alloc, part)?))
}
