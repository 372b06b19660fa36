// What all calls are given. All of it is of the first incarnation of a node.
ghost use Rattle.std.specs.Prelude.{◌≡◌, IfOk};

use orswot_core::{RawRow, RawTold, Told};
use presence_base::{Key, Meta, NodeName, Replica, Topic};
use serde_json::{Map, Value};
use std::alloc::{AllocError, Global};

/// The topic of most rows.
pub const ROOM: &str = "room:a";

/// The first incarnation of a node of this name.
pub fn replica(alloc: Global, name: &str) -> Result<Replica, AllocError>
    ensures { IfOk result (λ r. r ≡ record { name = name.now; incarnation = 1 }) }
{
    match NodeName::new(alloc, name)? {
        Some(name) => Ok(Replica {
            name,
            incarnation: 1,
        }),
        None => Err(AllocError),
    }
}

pub fn topic(alloc: Global, text: &str) -> Result<Topic, AllocError> {
    Topic::new(alloc, text)?.ok_or(AllocError)
}

pub fn key(alloc: Global, text: &str) -> Result<Key, AllocError> {
    Key::new(alloc, text)?.ok_or(AllocError)
}

/// The key of this word and number.
pub fn numbered(alloc: Global, word: &str, n: u64) -> Result<Key, AllocError> {
    let text = format!(in alloc; "{word}{n}")?;
    key(alloc, text.as_str())
}

/// A meta without members.
pub fn meta(alloc: Global) -> Result<Meta, AllocError> {
    let value = Value::Object(Map::new(alloc));
    Meta::new(alloc, value)?.ok_or(AllocError)
}

/// A row that is told, with a meta without members.
pub fn raw_row(alloc: Global, topic: &str, key: &str) -> Result<RawRow, AllocError> {
    let topic = String::from_str(alloc, topic)?;
    let key = String::from_str(alloc, key)?;
    Ok(RawRow {
        topic,
        key,
        pid: 5,
        meta: Some(meta(alloc)?),
        prev: None,
    })
}

/// The told value, which passes the check of the one shard.
pub fn checked(alloc: Global, raw: RawTold) -> Result<Told, AllocError> {
    match Told::check(alloc, raw, 0, 1) {
        Ok(told) => Ok(told),
        Err(_) => Err(AllocError),
    }
}
