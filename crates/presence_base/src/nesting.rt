//! How deep one nests.
ghost use Rattle.std.specs.Prelude.{◌≡◌, nat_le};
ghost use Rattle.serde_json.specs.Data.{depth, items_depth, members_depth};
ghost use Rattle.serde_json.specs.View.{view, items_view, members_view};

use serde_json::{Map, Value};

/// Whether arrays and objects nest at most `limit` deep.
#[cycle(depth)]
pub fn is_within_depth(value: &Value, limit: u32) -> bool
    ensures { result ≡ nat_le (depth (view value.now)) limit }
{
    match value {
        Value::Array(items) => limit > 0 && items_within_depth(items, limit - 1),
        Value::Object(members) => limit > 0 && members_within_depth(members, limit - 1),
        Value::Null | Value::Bool(_) | Value::Number(_) | Value::String(_) => true,
    }
}

#[cycle(depth)]
fn items_within_depth(items: &Vec<Value>, limit: u32) -> bool
    ensures { result ≡ nat_le (items_depth (items_view items.now.items)) limit }
{
    for item in items {
        if !is_within_depth(item, limit) {
            return false;
        }
    }
    true
}

#[cycle(depth)]
fn members_within_depth(members: &Map<String, Value>, limit: u32) -> bool
    ensures { result ≡ nat_le (members_depth (members_view members.now.entries)) limit }
{
    for (_key, member) in members.iter() {
        if !is_within_depth(member, limit) {
            return false;
        }
    }
    true
}
