//! Members beside metas.
ghost use Rattle.std.specs.Prelude.{◌≡◌, IfOk, map, length};
ghost use Rattle.serde_json.specs.View.{view, members_view};
ghost use Rattle.hook_registry.specs.Extras.{given_member, is_extra_member, are_extra_members, has_name, names_differ, are_extra, gathered};

use presence_base::{has_float, is_within_depth};
use presence_metas::insert_member;
use serde_json::{Map, Value};
use std::alloc::{AllocError, Global};
use std::marker::Model;

/// How many members an extra may have.
pub const MAX_EXTRA_MEMBERS: usize = 16;

/// How long the name of a member may be, in bytes.
pub const MAX_EXTRA_NAME_BYTES: usize = 64;

/// How deep the value of a member may be: an array or object has one more than its deepest member.
pub const MAX_EXTRA_VALUE_DEPTH: u32 = 32;

/// What a fetch tells of a key beside its metas (the `fetch` of Phoenix.Presence): at most 16
/// members with different names of 1 to 64 bytes, none of them `metas`, and values at most 32
/// deep whose numbers are whole ones of 64 bits.
#[derive(Debug)]
pub struct Extra {
    members: Map<String, Value>,
}

impl Drop for Extra {
    fn drop(self) {
        let Extra { members } = self;
        drop(members);
    }
}

impl Model for Extra {
    ghost use Rattle.std.specs.Prelude.{IsTrue};
    ghost use Rattle.serde_json.specs.Data.{Members};
    ghost use Rattle.serde_json.specs.View.{members_view};
    ghost use Rattle.hook_registry.specs.Codes.{members_code};
    ghost use Rattle.hook_registry.specs.Extras.{is_extra};

    ghost Value = { Members };

    ghost coded = { members_code };

    ghost view = { λ e. members_view e.members.entries };

    ghost invariant = { λ e. IsTrue (is_extra (members_view e.members.entries)) };
}

// Whether a value may stand beside metas under this name.
fn is_member(name: &str, value: &Value) -> bool
    ensures { result ≡ is_extra_member name.now (view value.now) }
{
    !name.is_empty()
        && name.len() <= MAX_EXTRA_NAME_BYTES
        && name != "metas"
        && is_within_depth(value, MAX_EXTRA_VALUE_DEPTH)
        && !has_float(value)
}

// Whether each may stand beside metas.
fn are_members(given: &[(String, Value)]) -> bool
    ensures { result ≡ are_extra_members (map given_member given.now) }
{
    for (name, value) in given {
        if !is_member(name.as_str(), value) {
            return false;
        }
    }
    true
}

// Whether one of the members has the name.
fn is_given(given: &[(String, Value)], name: &str) -> bool
    ensures { result ≡ has_name (map given_member given.now) name.now }
{
    for (other, _value) in given {
        if other.as_str() == name {
            return true;
        }
    }
    false
}

// Whether no two of the members have one name.
fn differ(given: &[(String, Value)]) -> bool
    ensures { result ≡ names_differ (map given_member given.now) }
{
    let mut rest = given;
    while let Some((first, behind)) = rest.split_first() {
        if is_given(behind, first.0.as_str()) {
            return false;
        }
        rest = behind;
    }
    true
}

// Whether the members are an extra.
fn are_within_limits(given: &[(String, Value)]) -> bool
    ensures { result ≡ are_extra (map given_member given.now) }
{
    given.len() <= MAX_EXTRA_MEMBERS && are_members(given) && differ(given)
}

// The members by their names.
fn gather(alloc: Global, given: Vec<(String, Value)>) -> Result<Map<String, Value>, AllocError>
    ensures { IfOk result (λ m. members_view m.entries ≡ gathered (map given_member given.items)) }
{
    let mut members = Map::new(alloc);
    for (name, value) in given {
        insert_member(&mut members, name, value)?;
    }
    Ok(members)
}

impl Extra {
    ghost use Rattle.std.specs.Prelude.{◌≡◌, false, IfOk, IsTrue, map};
    ghost use Rattle.serde_json.specs.View.{members_view};
    ghost use Rattle.serde_json.specs.Data.{no_members};
    ghost use Rattle.hook_registry.specs.Extras.{given_member, are_extra, extra_of, is_extra};

    /// No members.
    pub fn none(alloc: Global) -> Extra
        ensures { result ≡ no_members }
    {
        Extra {
            members: Map::new(alloc),
        }
    }

    /// The extra that these members are, or `None` where two have one name or one is outside the
    /// limits.
    pub fn new(alloc: Global, members: Vec<(String, Value)>) -> Result<Option<Extra>, AllocError>
        ensures extra { IfOk result (λ o. o ≡ extra_of (map given_member members.items)) }
        ensures none { are_extra (map given_member members.items) ≡ false → result ≡ Ok None }
    {
        if !are_within_limits(members.as_slice()) {
            return Ok(None);
        }
        let members = gather(alloc, members)?;
        Ok(Some(Extra { members }))
    }

    pub fn into_members(self) -> Map<String, Value>
        ensures members { members_view result.entries ≡ self }
        ensures limits { IsTrue (is_extra self) }
    {
        let Extra { members } = self;
        members
    }
}
