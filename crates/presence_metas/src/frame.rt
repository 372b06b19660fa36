//! Reading frames.
ghost use Rattle.std.specs.Prelude.{◌≡◌, [], false, option_map};
ghost use Rattle.serde_json.specs.View.{view, items_view, members_view};
ghost use Rattle.presence_metas.specs.declared.frame.FrameFault.TheVariants.{BadShape, OutOfMemory};
ghost use Rattle.presence_metas.specs.declared.frame.FrameFault.{FrameFault};
ghost use Rattle.presence_metas.specs.Frames.{Gives, Answers, all_objects, has_metas, all_have_metas, is_listing, is_some_listing, is_diff, tracked_in, metas_into, metas_in, listing_into, some_listing_in, state_in, diff_in, frame_in, shape_fault};

use crate::presences::{Diff, Presences};
use crate::tracked::TrackedMeta;
use phx_message::Message;
use presence_base::{Json, Text};
use serde_json::{Map, Value};
use std::alloc::{AllocError, AllocFailed, Global};
use thiserror::Error;

/// What a message tells a client of presences.
#[derive(Debug, Drop)]
pub enum Frame {
    /// The whole list of a topic, the payload of `presence_state`.
    State(Presences),
    /// What changed in it, the payload of `presence_diff`.
    Diff(Diff),
}

/// Why a message is no frame. Of several reasons the first in this order is told.
#[derive(Clone, Copy, PartialEq, Eq, Debug, Error)]
pub enum FrameFault {
    #[error("the event is neither `presence_state` nor `presence_diff`")]
    NotPresence,
    #[error("the payload is not an object from keys to objects with a list of objects as `metas`, nor `joins` and `leaves` of two such")]
    BadShape,
    #[error("a meta has no text as its `phx_ref`")]
    NoRef,
    #[error("out of memory")]
    OutOfMemory,
}

impl From<AllocError> for FrameFault {
    ghost from_gives = { λ _ e. e ≡ OutOfMemory };

    fn from(_e: AllocError) -> FrameFault {
        FrameFault::OutOfMemory
    }
}

impl<T: Drop> From<AllocFailed<T>> for FrameFault {
    ghost from_gives = { λ _ e. e ≡ OutOfMemory };

    fn from(_e: AllocFailed<T>) -> FrameFault {
        FrameFault::OutOfMemory
    }
}

// Whether each item is an object.
fn are_objects(items: &Vec<Value>) -> bool
    ensures { result ≡ all_objects (items_view items.now.items) }
{
    for item in items {
        if !item.is_object() {
            return false;
        }
    }
    true
}

// Whether what is told of a key has a list of objects as `metas`.
fn tells_metas(value: &Value) -> bool
    ensures { result ≡ has_metas (view value.now) }
{
    match value.get("metas") {
        Some(Value::Array(items)) => are_objects(items),
        _ => false,
    }
}

// Whether each key is told metas.
fn each_tells_metas(members: &Map<String, Value>) -> bool
    ensures { result ≡ all_have_metas (members_view members.now.entries) }
{
    for (_key, value) in members.iter() {
        if !tells_metas(value) {
            return false;
        }
    }
    true
}

// Whether the value is an object from keys to metas.
fn is_listing_value(value: &Value) -> bool
    ensures { result ≡ is_listing (view value.now) }
{
    match value {
        Value::Object(members) => each_tells_metas(members),
        _ => false,
    }
}

// Whether the value is there and tells metas.
fn is_listing_at(value: Option<&Value>) -> bool
    ensures { result ≡ is_some_listing (option_map (λ v. view v.now) value.entry) }
{
    match value {
        Some(value) => is_listing_value(value),
        None => false,
    }
}

// Whether the value is an object with `joins` and `leaves`.
fn is_diff_value(value: &Value) -> bool
    ensures { result ≡ is_diff (view value.now) }
{
    is_listing_at(value.get("joins")) && is_listing_at(value.get("leaves"))
}

// The meta that an object is.
fn tracked_of_value(alloc: Global, value: &Value) -> Result<TrackedMeta, FrameFault>
    ensures { Answers result (tracked_in (view value.now)) }
{
    let Some(Value::String(text)) = value.get("phx_ref") else {
        return Err(FrameFault::NoRef);
    };
    let reference = Text::new(alloc, text.as_str())?;
    let meta = value.clone()?;
    Ok(TrackedMeta {
        reference,
        meta: Json::new(meta),
    })
}

// The metas that objects are.
fn metas_of_items(alloc: Global, items: &Vec<Value>) -> Result<Vec<TrackedMeta>, FrameFault>
    ensures { Gives (λ v. v.items) result (metas_into [] (items_view items.now.items)) }
{
    let mut metas = Vec::new(alloc);
    for item in items {
        metas.push(tracked_of_value(alloc, item)?)?;
    }
    Ok(metas)
}

// The metas that are told of a key.
fn metas_of_value(alloc: Global, value: &Value) -> Result<Vec<TrackedMeta>, FrameFault>
    ensures { Gives (λ v. v.items) result (metas_in (view value.now)) }
{
    match value.get("metas") {
        Some(Value::Array(items)) => metas_of_items(alloc, items),
        _ => Ok(Vec::new(alloc)),
    }
}

// The lists that members tell.
fn presences_of_members(
    alloc: Global,
    members: &Map<String, Value>,
) -> Result<Presences, FrameFault>
    ensures { Answers result (listing_into [] (members_view members.now.entries)) }
{
    let mut presences = Presences::new(alloc);
    for (key, value) in members.iter() {
        let key = Text::new(alloc, key.as_str())?;
        let metas = metas_of_value(alloc, value)?;
        presences.put(alloc, &key, metas)?;
    }
    Ok(presences)
}

// The lists that a value tells.
fn presences_of_value(alloc: Global, value: Option<&Value>) -> Result<Presences, FrameFault>
    ensures { Answers result (some_listing_in (option_map (λ v. view v.now) value.entry)) }
{
    match value {
        Some(Value::Object(members)) => presences_of_members(alloc, members),
        _ => Ok(Presences::new(alloc)),
    }
}

// The state that a payload tells.
fn state_of_value(alloc: Global, value: &Value) -> Result<Frame, FrameFault>
    ensures state { Answers result (state_in (view value.now)) }
    ensures none { is_listing (view value.now) ≡ false → result ≡ Err BadShape }
{
    if !is_listing_value(value) {
        return Err(FrameFault::BadShape);
    }
    let presences = presences_of_value(alloc, Some(value))?;
    Ok(Frame::State(presences))
}

// The diff that a payload tells.
fn diff_of_value(alloc: Global, value: &Value) -> Result<Frame, FrameFault>
    ensures diff { Answers result (diff_in (view value.now)) }
    ensures none { is_diff (view value.now) ≡ false → result ≡ Err BadShape }
{
    if !is_diff_value(value) {
        return Err(FrameFault::BadShape);
    }
    let joins = presences_of_value(alloc, value.get("joins"))?;
    let leaves = presences_of_value(alloc, value.get("leaves"))?;
    Ok(Frame::Diff(Diff { joins, leaves }))
}

/// The frame that a message carries, or the first thing that is wrong with it.
///
/// Members beside `joins` and `leaves`, and beside a key's `metas`, are not looked at. A message of
/// another event or shape is refused without memory.
#[tactic(auto, unfolding(crate::specs::Frames::frame_in))]
pub fn read_frame(alloc: Global, message: &Message) -> Result<Frame, FrameFault>
    ensures frame { Answers result (frame_in message.now) }
    ensures none { (fault : FrameFault) → shape_fault message.now ≡ Some fault → result ≡ Err fault }
{
    let payload = message.payload.as_value();
    if message.event.as_str() == "presence_state" {
        return state_of_value(alloc, payload);
    }
    if message.event.as_str() == "presence_diff" {
        return diff_of_value(alloc, payload);
    }
    Err(FrameFault::NotPresence)
}
