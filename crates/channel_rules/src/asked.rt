//! What a payload asks.
ghost use Rattle.std.specs.Prelude.{◌≡◌, IfOk, OnOk, codes};
ghost use Rattle.serde_json.specs.View.{view, members_view};
ghost use Rattle.serde_json.specs.Data.{string};
ghost use Rattle.serde_json.specs.Find.{get};
ghost use Rattle.channel_rules.specs.Asked.{asked as asked_of, given_meta, with_key, key_asked, key_in, without_member, without_refs};

use presence_base::{Key, Meta};
use serde_json::{Map, Value};
use std::alloc::{AllocError, Global};

/// What a payload asks to be tracked.
#[derive(Debug, Drop)]
pub enum Asked {
    Nothing,
    /// A key that is no key, or a meta that is no meta.
    Bad,
    Wants(Key, Meta),
}

// Drops the member of this name.
fn drop_member(members: &mut Map<String, Value>, name: &str)
    ensures { members_view members.new.entries ≡ without_member name.now (members_view members.old.entries) }
{
    let _dropped = members.remove(name);
}

// The value without the members that name references.
fn without_refs(meta: Value) -> Value
    ensures { view result ≡ without_refs (view meta) }
{
    match meta {
        Value::Object(mut members) => {
            drop_member(&mut members, "phx_ref");
            drop_member(&mut members, "phx_ref_prev");
            Value::Object(members)
        }
        other => other,
    }
}

// The meta that a payload gives.
fn meta_of(alloc: Global, payload: &Value) -> Result<Value, AllocError>
    ensures { IfOk result (λ v. view v ≡ given_meta (get (codes "meta") (view payload.now))) }
{
    match payload.get("meta") {
        None => Ok(Value::Object(Map::new(alloc))),
        Some(meta) => {
            let meta = meta.clone()?;
            Ok(without_refs(meta))
        }
    }
}

// What a payload with this key asks.
fn asked_with(alloc: Global, payload: &Value, key: &str) -> Result<Asked, AllocError>
    ensures { IfOk result (λ a. a ≡ with_key (view payload.now) (string key.now)) }
{
    let Some(key) = Key::new(alloc, key)? else {
        return Ok(Asked::Bad);
    };
    let meta = meta_of(alloc, payload)?;
    match Meta::new(alloc, meta)? {
        None => Ok(Asked::Bad),
        Some(meta) => Ok(Asked::Wants(key, meta)),
    }
}

/// What a payload asks to be tracked: nothing where it is no object with a member `key`. A missing
/// meta is `{}`, and the members `phx_ref` and `phx_ref_prev` of a given one are dropped.
#[tactic(auto, unfolding(crate::specs::Asked::asked))]
pub fn read_asked(alloc: Global, payload: &Value) -> Result<Asked, AllocError>
    ensures { IfOk result (λ a. a ≡ asked_of (view payload.now)) }
{
    match payload.get("key") {
        None => Ok(Asked::Nothing),
        Some(Value::String(key)) => asked_with(alloc, payload, key.as_str()),
        Some(_) => Ok(Asked::Bad),
    }
}

/// The key that a payload names, `None` where it is no object with a member `key` that is a key.
pub fn read_key(alloc: Global, payload: &Value) -> Result<Option<Key>, AllocError>
    ensures { IfOk result (λ o. o ≡ key_asked (view payload.now)) }
{
    match payload.get("key") {
        Some(Value::String(key)) => Key::new(alloc, key.as_str()),
        Some(_) => Ok(None),
        None => Ok(None),
    }
}
