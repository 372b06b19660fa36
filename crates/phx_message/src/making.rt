//! Replies, pushes, broadcasts, closes.
ghost use Rattle.std.specs.Prelude.{◌≡◌, IfOk};
ghost use Rattle.serde_json.specs.Data.{object, no_members};
ghost use Rattle.phx_message.specs.Making.{status_text, reply_value, reason_value, reply_of, ok_reply, error_reply, push_of, broadcast_of, closing};

use crate::message::{Message, MsgRef};
use presence_base::{Json, Text, Topic};
use serde_json::json;
use std::alloc::{AllocError, Global};

/// How a reply says that a message went.
#[derive(Clone, Copy, PartialEq, Eq, Debug)]
pub enum Status {
    Ok,
    Error,
}

impl Status {
    fn as_str(self) -> &'static str
        ensures { result.now ≡ status_text self }
    {
        match self {
            Status::Ok => "ok",
            Status::Error => "error",
        }
    }
}

// The payload of a reply.
fn reply_payload(alloc: Global, status: Status, response: Json) -> Result<Json, AllocError>
    ensures { IfOk result (λ p. p ≡ reply_value status response) }
{
    let response = response.into_value();
    let status = status.as_str();
    let payload = json!(in alloc; {"response": response, "status": status})?;
    Ok(Json::new(payload))
}

/// The reply to a message, under the message's own reference.
pub fn reply(
    alloc: Global,
    join_ref: Option<MsgRef>,
    msg_ref: Option<MsgRef>,
    topic: Topic,
    status: Status,
    response: Json,
) -> Result<Message, AllocError>
    ensures { IfOk result (λ m. m ≡ reply_of join_ref msg_ref topic status response) }
{
    let payload = reply_payload(alloc, status, response)?;
    let event = Text::new(alloc, "phx_reply")?;
    Ok(Message {
        join_ref,
        msg_ref,
        topic,
        event,
        payload,
    })
}

/// The reply that a message went well.
pub fn reply_ok(
    alloc: Global,
    join_ref: Option<MsgRef>,
    msg_ref: Option<MsgRef>,
    topic: Topic,
    response: Json,
) -> Result<Message, AllocError>
    ensures { IfOk result (λ m. m ≡ ok_reply join_ref msg_ref topic response) }
{
    reply(alloc, join_ref, msg_ref, topic, Status::Ok, response)
}

// The response of a refusal.
fn reason_of(alloc: Global, reason: &str) -> Result<Json, AllocError>
    ensures { IfOk result (λ r. r ≡ reason_value reason.now) }
{
    let response = json!(in alloc; {"reason": reason})?;
    Ok(Json::new(response))
}

/// The reply that a message was refused, and why.
pub fn reply_error(
    alloc: Global,
    join_ref: Option<MsgRef>,
    msg_ref: Option<MsgRef>,
    topic: Topic,
    reason: &str,
) -> Result<Message, AllocError>
    ensures { IfOk result (λ m. m ≡ error_reply join_ref msg_ref topic reason.now) }
{
    let response = reason_of(alloc, reason)?;
    reply(alloc, join_ref, msg_ref, topic, Status::Error, response)
}

/// A message that the server sends to one join of a topic.
pub fn push(
    alloc: Global,
    join_ref: Option<MsgRef>,
    topic: Topic,
    event: &str,
    payload: Json,
) -> Result<Message, AllocError>
    ensures { IfOk result (λ m. m ≡ push_of join_ref topic event.now payload) }
{
    let event = Text::new(alloc, event)?;
    Ok(Message {
        join_ref,
        msg_ref: None,
        topic,
        event,
        payload,
    })
}

/// A message that the server sends to each subscriber of a topic.
pub fn broadcast(
    alloc: Global,
    topic: Topic,
    event: &str,
    payload: Json,
) -> Result<Message, AllocError>
    ensures { IfOk result (λ m. m ≡ broadcast_of topic event.now payload) }
{
    push(alloc, None, topic, event, payload)
}

// The payload of a close.
fn empty_object(alloc: Global) -> Result<Json, AllocError>
    ensures { IfOk result (λ p. p ≡ object no_members) }
{
    let payload = json!(in alloc; {})?;
    Ok(Json::new(payload))
}

/// The message that a join has ended: the join's reference stands in both places.
pub fn close_of(
    alloc: Global,
    join_ref: Option<MsgRef>,
    topic: Topic,
) -> Result<Message, AllocError>
    ensures { IfOk result (λ m. m ≡ closing join_ref topic) }
{
    let msg_ref = join_ref.clone()?;
    let event = Text::new(alloc, "phx_close")?;
    let payload = empty_object(alloc)?;
    Ok(Message {
        join_ref,
        msg_ref,
        topic,
        event,
        payload,
    })
}
