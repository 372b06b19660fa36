//! Numbers, names, replicas, dots.
ghost use Rattle.std.specs.Prelude.{◌≡◌, option_map, string_bytes};
ghost use Rattle.serde_json.specs.View.{view};
ghost use Rattle.link_lines.specs.Members.{whole_in, number_in, count_in, bound_in, text_in, name_in, replica_in, dot_in};

use presence_base::{Dot, MAX_COUNT, NodeName, Replica};
use serde_json::Value;
use std::alloc::Global;

// The whole number that the value is.
pub fn whole_of(value: &Value) -> Option<u64>
    ensures { result ≡ whole_in (view value.now) }
{
    value.as_u64()
}

// The whole number from low to high that the value is.
pub fn number_of(value: &Value, low: u64, high: u64) -> Option<u64>
    ensures { result ≡ number_in low high (view value.now) }
{
    match whole_of(value) {
        Some(n) => { if n >= low && n <= high { Some(n) } else { None } }
        None => None,
    }
}

// The incarnation, or the count of a dot, that the value is.
pub(crate) fn count_of(value: &Value) -> Option<u64>
    ensures { result ≡ count_in (view value.now) }
{
    number_of(value, 1, MAX_COUNT)
}

// The count that the value is, where it may be 0.
pub fn bound_of(value: &Value) -> Option<u64>
    ensures { result ≡ bound_in (view value.now) }
{
    number_of(value, 0, MAX_COUNT)
}

// The text that the value is.
pub(crate) fn text_of(value: Value) -> Option<String>
    ensures { option_map string_bytes result ≡ text_in (view value) }
{
    match value {
        Value::String(text) => Some(text),
        _ => None,
    }
}

// The name of a node that the value is.
fn name_of(alloc: Global, value: &Value) -> Option<NodeName>
    ensures { result ≡ name_in (view value.now) }
{
    match value {
        Value::String(text) => match NodeName::new(alloc, text.as_str()) {
            Ok(name) => name,
            Err(_) => None,
        },
        _ => None,
    }
}

// The replica that a name and an incarnation are.
pub fn replica_of(alloc: Global, name: &Value, incarnation: &Value) -> Option<Replica>
    ensures { result ≡ replica_in (view name.now) (view incarnation.now) }
{
    let name = name_of(alloc, name)?;
    let incarnation = count_of(incarnation)?;
    Some(Replica { name, incarnation })
}

// The dot that a name, an incarnation and a count are.
pub(crate) fn dot_of(alloc: Global, name: &Value, incarnation: &Value, count: &Value) -> Option<Dot>
    ensures { result ≡ dot_in (view name.now) (view incarnation.now) (view count.now) }
{
    let replica = replica_of(alloc, name, incarnation)?;
    let count = count_of(count)?;
    Some(Dot { replica, count })
}
