//! Replies, each with its text.
ghost use Rattle.std.specs.Prelude.{◌≡◌, IfOk, string_bytes, false};
ghost use Rattle.serde_json.specs.Written.{compact_text, has_float as float_within};
ghost use Rattle.phx_message.specs.Making.{closing, ok_reply};
ghost use Rattle.presence_metas.specs.Values.{state_of};
ghost use Rattle.channel_rules.specs.Said.{text_of};
ghost use Rattle.channel_rules.specs.Rules.{ok as ok_message, error as error_message, told_ref, empty as empty_of};

use phx_message::laws::replies_are_written;
use phx_message::{Message, MsgRef, close_of, encode, reply_error, reply_ok, reply_text};
use presence_base::{Dot, Json, Topic, ref_text};
use presence_journal::SharedRows;
use serde_json::{Map, Value, json};
use std::alloc::{AllocError, Global};

/// A message beside its text. Texts are made before a call behind which nothing may fail, and what
/// is said stays known.
#[derive(Debug, Drop)]
pub struct Written {
    pub message: Message,
    pub text: String,
    ghost is_text: { string_bytes text ≡ text_of message },
}

/// The parts of a reply that tells rows, beside its text. The rows stand for the object that tells
/// them, which is not made.
#[derive(Debug, Drop)]
pub struct Listed {
    pub join_ref: Option<MsgRef>,
    pub msg_ref: Option<MsgRef>,
    pub topic: Topic,
    pub rows: SharedRows,
    pub text: String,
    ghost is_text: { string_bytes text ≡ text_of (ok_reply join_ref msg_ref topic (state_of rows)) },
}

/// The messages that answer a message, in the order in which they go out.
#[derive(Debug, Drop)]
pub enum Reply {
    Nothing,
    One(Written),
    Two(Written, Written),
    Listed(Listed),
}

// Writes a message.
fn write(alloc: Global, message: Message) -> Result<Written, AllocError>
    requires { float_within message.payload ≡ false }
    ensures { IfOk result (λ w. w.message ≡ message) }
{
    let text = encode(alloc, &message)?;
    Ok(Written { message, text })
}

// The reply that a message went well.
fn ok_reply_to(
    alloc: Global,
    join_ref: &Option<MsgRef>,
    message: &Message,
    response: Json,
) -> Result<Message, AllocError>
    ensures { IfOk result (λ r. r ≡ ok_message join_ref.now message.now response) }
{
    let join_ref = join_ref.clone()?;
    let msg_ref = message.msg_ref.clone()?;
    let topic = message.topic.clone()?;
    reply_ok(alloc, join_ref, msg_ref, topic, response)
}

// The reply that a message was refused for this reason.
fn error_reply_to(
    alloc: Global,
    join_ref: &Option<MsgRef>,
    message: &Message,
    reason: &str,
) -> Result<Message, AllocError>
    ensures { IfOk result (λ r. r ≡ error_message join_ref.now message.now reason.now) }
{
    let join_ref = join_ref.clone()?;
    let msg_ref = message.msg_ref.clone()?;
    let topic = message.topic.clone()?;
    reply_error(alloc, join_ref, msg_ref, topic, reason)
}

// The text of the reply, round that of its response. The response is named for the contract alone.
fn response_round(
    alloc: Global,
    join_ref: &Option<MsgRef>,
    message: &Message,
    _response: &Json,
    told: &str,
) -> Result<String, AllocError>
    requires { told.now ≡ compact_text _response.now }
    ensures { IfOk result (λ s. string_bytes s
        ≡ text_of (ok_message join_ref.now message.now _response.now)) }
{
    replies_are_written();
    reply_text(alloc, join_ref, &message.msg_ref, &message.topic, told)
}

// The text of the reply that a message went well.
fn ok_text_of(
    alloc: Global,
    join_ref: &Option<MsgRef>,
    message: &Message,
    response: &Json,
) -> Result<String, AllocError>
    requires { float_within response.now ≡ false }
    ensures { IfOk result (λ s. string_bytes s
        ≡ text_of (ok_message join_ref.now message.now response.now)) }
{
    let told = response.as_value().to_string(alloc)?;
    response_round(alloc, join_ref, message, response, told.as_str())
}

/// The reply that a message went well.
pub fn write_ok(
    alloc: Global,
    join_ref: &Option<MsgRef>,
    message: &Message,
    response: Json,
) -> Result<Written, AllocError>
    requires { float_within response ≡ false }
    ensures { IfOk result (λ w. w.message ≡ ok_message join_ref.now message.now response) }
{
    let text = ok_text_of(alloc, join_ref, message, &response)?;
    let message = ok_reply_to(alloc, join_ref, message, response)?;
    Ok(Written { message, text })
}

// The text of the reply that tells rows, round the text of their payload. The rows are named for the contract alone.
fn text_round(
    alloc: Global,
    join_ref: &Option<MsgRef>,
    message: &Message,
    _rows: &SharedRows,
    state: &str,
) -> Result<String, AllocError>
    requires { state.now ≡ compact_text (state_of _rows.now) }
    ensures { IfOk result (λ s. string_bytes s
        ≡ text_of (ok_message join_ref.now message.now (state_of _rows.now))) }
{
    replies_are_written();
    reply_text(alloc, join_ref, &message.msg_ref, &message.topic, state)
}

// The text of the reply that tells rows: round their text where that is shared.
fn listed_text(
    alloc: Global,
    join_ref: &Option<MsgRef>,
    message: &Message,
    rows: &SharedRows,
) -> Result<String, AllocError>
    ensures { IfOk result (λ s. string_bytes s
        ≡ text_of (ok_message join_ref.now message.now (state_of rows.now))) }
{
    if let Some(state) = rows.text() {
        return text_round(alloc, join_ref, message, rows, state);
    }
    let state = rows.write_text(alloc)?;
    text_round(alloc, join_ref, message, rows, state.as_str())
}

/// The reply that tells rows.
pub fn write_listed(
    alloc: Global,
    join_ref: &Option<MsgRef>,
    message: &Message,
    rows: SharedRows,
) -> Result<Listed, AllocError>
    ensures { IfOk result (λ l. ok_reply l.join_ref l.msg_ref l.topic (state_of l.rows)
        ≡ ok_message join_ref.now message.now (state_of rows)) }
{
    let text = listed_text(alloc, join_ref, message, &rows)?;
    let join_ref = join_ref.clone()?;
    let msg_ref = message.msg_ref.clone()?;
    let topic = message.topic.clone()?;
    Ok(Listed {
        join_ref,
        msg_ref,
        topic,
        rows,
        text,
    })
}

/// The reply that a message was refused for this reason.
pub fn write_error(
    alloc: Global,
    join_ref: &Option<MsgRef>,
    message: &Message,
    reason: &str,
) -> Result<Written, AllocError>
    ensures { IfOk result (λ w. w.message ≡ error_message join_ref.now message.now reason.now) }
{
    let reply = error_reply_to(alloc, join_ref, message, reason)?;
    write(alloc, reply)
}

/// The message that a join has ended.
pub fn write_close(
    alloc: Global,
    join_ref: &Option<MsgRef>,
    topic: &Topic,
) -> Result<Written, AllocError>
    ensures { IfOk result (λ w. w.message ≡ closing join_ref.now topic.now) }
{
    let join_ref = join_ref.clone()?;
    let topic = topic.clone()?;
    let close = close_of(alloc, join_ref, topic)?;
    write(alloc, close)
}

/// An object without members.
pub fn empty_object(alloc: Global) -> Json
    ensures { result ≡ empty_of }
{
    Json::new(Value::Object(Map::new(alloc)))
}

/// The response that tells a reference.
pub fn ref_response(alloc: Global, dot: &Dot) -> Result<Json, AllocError>
    ensures { IfOk result (λ v. v ≡ told_ref dot.now) }
{
    let reference = ref_text(alloc, dot)?;
    let response = json!(in alloc; {"phx_ref": reference})?;
    Ok(Json::new(response))
}
