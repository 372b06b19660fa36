//! Members of objects.
ghost use Rattle.std.specs.Prelude.{◌≡◌, OnOk, string_bytes};
ghost use Rattle.serde_json.specs.View.{view, members_view};
ghost use Rattle.presence_metas.specs.Rows.{members_in, IsPut};

use serde_json::{Map, Value};
use std::alloc::{AllocError, Global};

// The members of a value, none where it is no object.
pub(crate) fn members_of(alloc: Global, value: Value) -> Map<String, Value>
    ensures { members_view result.entries ≡ members_in (view value) }
{
    match value {
        Value::Object(members) => members,
        _ => Map::new(alloc),
    }
}

/// Puts a value under a name.
pub fn insert_member(
    members: &mut Map<String, Value>,
    name: String,
    value: Value,
) -> Result<(), AllocError>
    ensures { OnOk result (IsPut (string_bytes name) (view value) members.old.entries members.new.entries) }
{
    members.insert(name, value)?;
    Ok(())
}

/// Puts a value under a copy of a name.
pub fn put_member(
    alloc: Global,
    members: &mut Map<String, Value>,
    name: &str,
    value: Value,
) -> Result<(), AllocError>
    ensures { OnOk result (IsPut name.now (view value) members.old.entries members.new.entries) }
{
    let name = String::from_str(alloc, name)?;
    insert_member(members, name, value)
}
