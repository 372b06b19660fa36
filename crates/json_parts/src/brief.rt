//! Values read without what is in their arrays and objects.
ghost use Rattle.std.specs.Prelude.{◌≡◌, ◌≤◌, ◌<◌, ◌∷◌, List, length, OnOk, ⊤};
ghost use Rattle.json.specs.Json.{Json, Items, Members};
ghost use Rattle.json.specs.Reads.{token_of};
ghost use Rattle.json.specs.Token.{Token as TokenValue};
ghost use Rattle.serde_json.specs.View.{view};
ghost use Rattle.json_parts.specs.Outline.{brief as brief_data};
ghost use Rattle.json_parts.specs.Places.{data_of, At, AtItems, AtMembers, Leaves, Reads};

use crate::numbers::number_of;
use crate::whole::MAX_DEPTH;
use json::{Error, Reader, Token};
use serde_json::{Map, Value};
use std::alloc::Global;

// Passes the rest of an array.
pub(crate) fn skip_items(reader: &mut Reader<'_>) -> Result<(), Error>
    ensures passed { (js : Items) (rest : List TokenValue) → AtItems reader.old js rest
        → Leaves reader.new rest result (λ _. ⊤) }
    ensures shorter { OnOk result (length reader.new ≤ length reader.old) }
{
    while !reader.take_end_array() {
        reader.skip_value(MAX_DEPTH)?;
    }
    Ok(())
}

// Passes the rest of an object.
pub(crate) fn skip_members(reader: &mut Reader<'_>) -> Result<(), Error>
    ensures passed { (ms : Members) (rest : List TokenValue) → AtMembers reader.old ms rest
        → Leaves reader.new rest result (λ _. ⊤) }
    ensures shorter { OnOk result (length reader.new ≤ length reader.old) }
{
    while let Some(_) = reader.next_key()? {
        reader.skip_value(MAX_DEPTH)?;
    }
    Ok(())
}

// The value that the token begins, without what is in it; a number out of range is false.
pub(crate) fn brief_of(
    alloc: Global,
    reader: &mut Reader<'_>,
    token: Token<'_>,
) -> Result<Value, Error>
    ensures read { (j : Json) (rest : List TokenValue) → At (token_of token.entry ∷ reader.old) j rest
        → Leaves reader.new rest result (λ v. view v ≡ brief_data (data_of j)) }
    ensures shorter { OnOk result (length reader.new ≤ length reader.old) }
{
    match token {
        Token::Null => Ok(Value::Null),
        Token::Bool(b) => Ok(Value::Bool(b)),
        Token::Number(text) => match number_of(text) {
            Some(number) => Ok(Value::Number(number)),
            None => Ok(Value::Bool(false)),
        },
        Token::String(text) => Ok(Value::String(String::from_str(alloc, text)?)),
        Token::BeginArray => {
            skip_items(reader)?;
            Ok(Value::Array(Vec::new(alloc)))
        }
        Token::BeginObject => {
            skip_members(reader)?;
            Ok(Value::Object(Map::new(alloc)))
        }
        Token::EndObject | Token::EndArray | Token::Key(_) | Token::Bad => Err(Error::Invalid),
    }
}

// The next value, without what is in it.
pub(crate) fn brief(alloc: Global, reader: &mut Reader<'_>) -> Result<Value, Error>
    ensures read { Reads reader.old reader.new result (λ d v. view v ≡ brief_data d) }
    ensures shorter { OnOk result (length reader.new < length reader.old) }
{
    let token = reader.next().ok_or(Error::Invalid)?;
    brief_of(alloc, reader, token)
}
