//! What a text asks of a connection whose client signs in.
ghost use Rattle.std.specs.Prelude.{◌≡◌, Ok};
ghost use Rattle.phx_message.specs.Reading.{decoded};
ghost use Rattle.serve_connections.specs.Signed.{IsAsked, has_topic as has_topic_in};

use crate::cause::Cause;
use crate::renewing::is_renewal;
use phx_message::{Limits, Message, MessageFault, decode};
use presence_base::Topic;
use std::alloc::Global;
use tokens::Grant;

/// What a text asks of a connection whose client signs in.
#[derive(Drop)]
pub(crate) enum Asking {
    /// That what the token grants which this message shows be granted from now on.
    Renewal(Message),
    /// Something of a topic that isn't granted.
    Elsewhere,
    /// Something of a topic that is, or it is no message.
    Usual,
    /// There is no memory to look at it.
    NoMemory,
}

// Whether the topic is granted.
fn has_topic(held: &Result<Grant, Cause>, topic: &Topic) -> bool
    ensures { result ≡ has_topic_in held.now topic.now }
{
    match held {
        Ok(held) => held.has_topic(topic),
        Err(_) => false,
    }
}

// What a message asks.
fn asked_by(held: &Result<Grant, Cause>, message: Message) -> Asking
    ensures { IsAsked held.now (Ok message) result }
{
    if is_renewal(&message) {
        return Asking::Renewal(message);
    }
    if has_topic(held, &message.topic) {
        Asking::Usual
    } else {
        Asking::Elsewhere
    }
}

/// What a text asks of a client to whom this is granted.
pub(crate) fn asking_of(alloc: Global, held: &Result<Grant, Cause>, text: &str) -> Asking
    ensures { IsAsked held.now (decoded Limits.CLIENT text.now) result }
{
    match decode(alloc, text, Limits::CLIENT) {
        Ok(message) => asked_by(held, message),
        Err(MessageFault::OutOfMemory) => Asking::NoMemory,
        Err(_) => Asking::Usual,
    }
}
