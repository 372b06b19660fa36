//! The items of an array, one by one or the first few.
ghost use Rattle.std.specs.Prelude.{◌≡◌, ◌≤◌, ◌<◌, ◌++◌, ◌∷◌, [], List, length, OnOk, Err, IfSome};
ghost use Rattle.json.specs.Json.{Items};
ghost use Rattle.json.specs.Token.{Token as TokenValue};
ghost use Rattle.serde_json.specs.View.{view, items_view};
ghost use Rattle.json_parts.specs.Outline.{few, shallow as shallow_data};
ghost use Rattle.json_parts.specs.Items.{Begins, HasFew, IsNext};
ghost use Rattle.json_parts.specs.Places.{items_data, AtItems, Gets, Leaves, Reads};

use crate::brief::{brief, brief_of, skip_items};
use json::{Error, Reader, Token};
use serde_json::Value;
use std::alloc::Global;

/// What stands next in an array. Where it's an array, its bracket was taken.
#[derive(Clone, Copy, PartialEq, Eq, Debug)]
pub enum Begun {
    End,
    Array,
    Null,
    Other,
}

/// Takes what begins next in an array.
pub fn begin(reader: &mut Reader<'_>) -> Begun
    ensures begun { (js : Items) (rest : List TokenValue) → AtItems reader.old js rest
        → Begins js rest reader.new result }
    ensures shorter { length reader.new ≤ length reader.old }
    ensures taken { result ≡ Begun.Array → length reader.new < length reader.old }
{
    let Some(token) = reader.next() else {
        return Begun::Other;
    };
    match token {
        Token::EndArray => Begun::End,
        Token::BeginArray => Begun::Array,
        Token::Null => Begun::Null,
        Token::BeginObject
        | Token::EndObject
        | Token::Key(_)
        | Token::String(_)
        | Token::Number(_)
        | Token::Bool(_)
        | Token::Bad => Begun::Other,
    }
}

pub(crate) fn push(items: &mut Vec<Value>, item: Value) -> Result<(), Error>
    ensures { Gets result (λ _. items.new.items ≡ items.old.items ++ item ∷ []) }
{
    match items.push(item) {
        Ok(()) => Ok(()),
        Err(_) => Err(Error::OutOfMemory),
    }
}

/// The first items of an array, at most so many, without what is in them. Where there are as many, the reader stands
/// behind them, and where there are fewer, behind the array.
pub fn few_items(alloc: Global, reader: &mut Reader<'_>, most: usize) -> Result<Vec<Value>, Error>
    ensures few { (js : Items) (rest : List TokenValue) → AtItems reader.old js rest
        → HasFew most js rest reader.new result }
    ensures shorter { OnOk result (length reader.new ≤ length reader.old) }
{
    let mut items = Vec::new(alloc);
    while items.len() < most {
        if reader.take_end_array() {
            return Ok(items);
        }
        let item = brief(alloc, reader)?;
        push(&mut items, item)?;
    }
    Ok(items)
}

// The first items of an array so, with the rest of it passed.
fn first_items(alloc: Global, reader: &mut Reader<'_>, most: usize) -> Result<Vec<Value>, Error>
    ensures read { (js : Items) (rest : List TokenValue) → AtItems reader.old js rest
        → Leaves reader.new rest result (λ v. items_view v.items ≡ few most (items_data js)) }
    ensures shorter { OnOk result (length reader.new ≤ length reader.old) }
{
    let items = few_items(alloc, reader, most)?;
    if items.len() < most {
        return Ok(items);
    }
    skip_items(reader)?;
    Ok(items)
}

/// The next value. Of an array it has the first items, at most so many, without what is in them.
pub fn shallow(alloc: Global, reader: &mut Reader<'_>, most: usize) -> Result<Value, Error>
    ensures read { Reads reader.old reader.new result (λ d v. view v ≡ shallow_data most d) }
    ensures shorter { OnOk result (length reader.new < length reader.old) }
{
    let token = reader.next().ok_or(Error::Invalid)?;
    if let Token::BeginArray = token {
        let items = first_items(alloc, reader, most)?;
        return Ok(Value::Array(items));
    }
    brief_of(alloc, reader, token)
}

/// The next item of an array so, or none at its end.
pub fn next_shallow(
    alloc: Global,
    reader: &mut Reader<'_>,
    most: usize,
) -> Result<Option<Value>, Error>
    ensures next { (js : Items) (rest : List TokenValue) → AtItems reader.old js rest
        → IsNext most js rest reader.new result }
    ensures shorter { OnOk result (length reader.new < length reader.old) }
{
    if reader.take_end_array() {
        return Ok(None);
    }
    Ok(Some(shallow(alloc, reader, most)?))
}
