//! Text to message.
ghost use Rattle.std.specs.Prelude.{◌≡◌, ◌<◌, ◌≤◌, length, Some, Ok, IfOk};
ghost use Rattle.serde_json.specs.Read.{read};
ghost use Rattle.serde_json.specs.View.{view, items_view};
ghost use Rattle.phx_message.specs.declared.message.Message.{Message as Msg};
ghost use Rattle.phx_message.specs.declared.message.MessageFault.TheVariants.{TooLong, BadTopic, BadEvent};
ghost use Rattle.phx_message.specs.Message.{value_of, IsWithin, is_event};
ghost use Rattle.phx_message.specs.Members.{members_view};
ghost use Rattle.phx_message.specs.Reading.{Answers, Gives, IsGiven, decoded, message_in, value_in, five_in, five_items, ref_in, text_in, payload_in};
ghost use Rattle.presence_base.specs.Names.{is_short_text};

use crate::message::{Limits, MAX_EVENT_BYTES, Message, MessageFault, MsgRef};
use presence_base::{Json, Text, Topic, has_float, is_within_depth};
use serde_json::{Category, Value};
use std::alloc::Global;

// The value that the text is.
fn value_of_text(alloc: Global, text: &str, bytes: usize) -> Result<Value, MessageFault>
    ensures value { Gives view result (value_in bytes text.now) }
    ensures long { bytes < length text.now → result ≡ Err TooLong }
{
    if text.len() > bytes {
        return Err(MessageFault::TooLong);
    }
    match Value::from_str(alloc, text) {
        Ok(value) => Ok(value),
        Err(e) => match e.classify() {
            Category::Memory => Err(MessageFault::OutOfMemory),
            Category::Syntax | Category::Eof | Category::Data | Category::Io => Err(
                MessageFault::NotJson,
            ),
        },
    }
}

// The reference that the value is.
fn ref_of_value(value: Value) -> Result<Option<MsgRef>, MessageFault>
    ensures { result ≡ ref_in (view value) }
{
    match value {
        Value::Null => Ok(None),
        Value::String(text) => Ok(Some(MsgRef::Text(Text::of_string(text)))),
        Value::Number(n) => match n.as_u64() {
            Some(n) => Ok(Some(MsgRef::Number(n))),
            None => Err(MessageFault::BadRef),
        },
        Value::Bool(_) | Value::Array(_) | Value::Object(_) => Err(MessageFault::BadRef),
    }
}

// The topic that the value is.
fn topic_of_value(value: Value) -> Result<Topic, MessageFault>
    ensures { result ≡ text_in is_short_text BadTopic (view value) }
{
    match value {
        Value::String(text) => match Topic::of_string(text) {
            Some(topic) => Ok(topic),
            None => Err(MessageFault::BadTopic),
        },
        _ => Err(MessageFault::BadTopic),
    }
}

// The event that the value is.
fn event_of_value(value: Value) -> Result<Text, MessageFault>
    ensures { result ≡ text_in is_event BadEvent (view value) }
{
    match value {
        Value::String(text) => {
            if text.is_empty() || text.len() > MAX_EVENT_BYTES {
                Err(MessageFault::BadEvent)
            } else {
                Ok(Text::of_string(text))
            }
        }
        _ => Err(MessageFault::BadEvent),
    }
}

// The payload that the value is.
fn payload_of_value(value: Value, depth: u32) -> Result<Json, MessageFault>
    ensures { result ≡ payload_in depth (view value) }
{
    if !is_within_depth(&value, depth) {
        return Err(MessageFault::TooDeep);
    }
    if has_float(&value) {
        return Err(MessageFault::Fraction);
    }
    Ok(Json::new(value))
}

// The five members of an array.
#[derive(Drop)]
struct Members {
    first: Value,
    second: Value,
    third: Value,
    fourth: Value,
    fifth: Value,
}

// The members of an array of five.
fn five_of_items(mut items: Vec<Value>) -> Result<Members, MessageFault>
    ensures { IsGiven members_view result (five_items (items_view items.items)) }
{
    if items.len() != 5 {
        return Err(MessageFault::NotFive);
    }
    let fifth = items.pop().unwrap();
    let fourth = items.pop().unwrap();
    let third = items.pop().unwrap();
    let second = items.pop().unwrap();
    let first = items.pop().unwrap();
    Ok(Members {
        first,
        second,
        third,
        fourth,
        fifth,
    })
}

// The members of the value.
fn five_of_value(value: Value) -> Result<Members, MessageFault>
    ensures { IsGiven members_view result (five_in (view value)) }
{
    match value {
        Value::Array(items) => five_of_items(items),
        _ => Err(MessageFault::NotFive),
    }
}

// The message that the value is.
fn message_of_value(value: Value, depth: u32) -> Result<Message, MessageFault>
    ensures { result ≡ message_in depth (view value) }
{
    let members = five_of_value(value)?;
    let join_ref = ref_of_value(members.first)?;
    let msg_ref = ref_of_value(members.second)?;
    let topic = topic_of_value(members.third)?;
    let event = event_of_value(members.fourth)?;
    let payload = payload_of_value(members.fifth, depth)?;
    Ok(Message {
        join_ref,
        msg_ref,
        topic,
        event,
        payload,
    })
}

// The message that the text is, or the first thing that is wrong with it.
#[tactic(auto, unfolding(crate::specs::Reading::decoded))]
fn decode_exactly(alloc: Global, text: &str, limits: Limits) -> Result<Message, MessageFault>
    ensures exact { Answers result (decoded limits text.now) }
    ensures long { limits.bytes < length text.now → result ≡ Err TooLong }
{
    let value = value_of_text(alloc, text, limits.bytes)?;
    message_of_value(value, limits.depth)
}

/// The message that a text is, or the first thing that is wrong with the text.
///
/// Numbers are read as `serde_json` reads them: `-0` and `1.0` are no whole numbers, and of an
/// object's equal members the last counts. Want of memory is answered in place of any answer, but
/// of a text that is too long, which is found without memory.
pub fn decode(alloc: Global, text: &str, limits: Limits) -> Result<Message, MessageFault>
    ensures found { IfOk result (λ m. IsWithin limits.depth m
        × (length text.now ≤ limits.bytes) × (read text.now ≡ Some (value_of m))) }
    ensures only { (m : Msg) → IsWithin limits.depth m → length text.now ≤ limits.bytes
        → read text.now ≡ Some (value_of m) → Answers result (Ok m) }
    ensures exact { Answers result (decoded limits text.now) }
    ensures long { limits.bytes < length text.now → result ≡ Err TooLong }
{
    decode_exactly(alloc, text, limits)
}
