//! Message to text.
ghost use Rattle.std.specs.Prelude.{◌≡◌, ◌≤◌, length, true, false, Ok, IfOk, string_bytes};
ghost use Rattle.serde_json.specs.Written.{has_float as float_within, compact_text};
ghost use Rattle.serde_json.specs.View.{view};
ghost use Rattle.phx_message.specs.Lines.{lacks_feed};
ghost use Rattle.phx_message.specs.Message.{ref_value, value_of, IsWithin};
ghost use Rattle.phx_message.specs.Reading.{decoded};

use crate::message::{Limits, Message, MsgRef};
use serde_json::{Value, json};
use std::alloc::{AllocError, Global};

// The value of a reference.
fn value_of_ref(alloc: Global, reference: &Option<MsgRef>) -> Result<Value, AllocError>
    ensures { IfOk result (λ v. view v ≡ ref_value reference.now) }
{
    match reference {
        None => Ok(Value::Null),
        Some(MsgRef::Text(text)) => {
            let text = String::from_str(alloc, text.as_str())?;
            Ok(Value::String(text))
        }
        Some(MsgRef::Number(n)) => Ok(Value::from(*n)),
    }
}

// The array of the five members.
fn value_of_message(alloc: Global, message: &Message) -> Result<Value, AllocError>
    ensures { IfOk result (λ v. view v ≡ value_of message.now) }
{
    let join_ref = value_of_ref(alloc, &message.join_ref)?;
    let msg_ref = value_of_ref(alloc, &message.msg_ref)?;
    let topic = message.topic.as_str();
    let event = message.event.as_str();
    let payload = message.payload.as_value();
    json!(in alloc; [join_ref, msg_ref, topic, event, payload])
}

/// The text of a message: its array without spaces, each object's members in byte order.
///
/// A message that `decode` would refuse is written too.
pub fn encode(alloc: Global, message: &Message) -> Result<String, AllocError>
    ensures text { IfOk result (λ s. float_within message.now.payload ≡ false
        → string_bytes s ≡ compact_text (value_of message.now)) }
    ensures again { IfOk result (λ s. IsWithin Limits.FRAME.depth message.now
        → length (string_bytes s) ≤ Limits.FRAME.bytes
        → decoded Limits.FRAME (string_bytes s) ≡ Ok message.now) }
    ensures line { IfOk result (λ s. IsWithin Limits.FRAME.depth message.now
        → lacks_feed (string_bytes s) ≡ true) }
{
    let value = value_of_message(alloc, message)?;
    value.to_string(alloc)
}
