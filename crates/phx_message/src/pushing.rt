// The texts of pushes and of ok replies, written once round the text of what they tell. They ask for memory once, but
// where a reference is a number or long, or a name has to be escaped.
ghost use Rattle.std.specs.Prelude.{◌≡◌, ◌∷◌, ◌++◌, IfOk, OnOk, string_bytes};
ghost use Rattle.serde_json.specs.Written.{compact_text};
ghost use Rattle.json.specs.Print.{quoted as quoted_text};
ghost use Rattle.phx_message.specs.Message.{ref_value};
ghost use Rattle.phx_message.specs.Pushing.{push_text as text_of_push, ok_text};

use crate::message::MsgRef;
use crate::quoting::{push_quoted, push_ref};
use presence_base::Topic;
use std::alloc::{AllocError, Global};

// How many bytes a push has beside its topic, its event and its payload, where its reference is short.
const BESIDE_A_PUSH: usize = 32;
// How many bytes a reply has beside its topic and its response, where its references are short.
const BESIDE_A_REPLY: usize = 80;

/// The text of a push whose payload is written already: that of `encode`, without the value.
pub fn push_text(
    alloc: Global,
    join_ref: &Option<MsgRef>,
    topic: &Topic,
    event: &str,
    payload: &str,
) -> Result<String, AllocError>
    ensures { IfOk result (λ s. string_bytes s
        ≡ text_of_push join_ref.now topic.now event.now payload.now) }
{
    let names = topic.as_str().len().saturating_add(event.len());
    let bytes = payload
        .len()
        .saturating_add(names)
        .saturating_add(BESIDE_A_PUSH);
    let mut text = String::with_capacity(alloc, bytes)?;
    text.push_str("[")?;
    push_ref(alloc, &mut text, join_ref)?;
    text.push_str(",null,")?;
    push_quoted(alloc, &mut text, topic.as_str())?;
    text.push_str(",")?;
    push_quoted(alloc, &mut text, event)?;
    text.push_str(",")?;
    text.push_str(payload)?;
    text.push_str("]")?;
    Ok(text)
}

// Writes what stands in front of a reply's event.
fn push_asked(
    alloc: Global,
    text: &mut String,
    join_ref: &Option<MsgRef>,
    msg_ref: &Option<MsgRef>,
    topic: &Topic,
) -> Result<(), AllocError>
    ensures { OnOk result (string_bytes text.new ≡ string_bytes text.old
        ++ (91 ∷ (compact_text (ref_value join_ref.now) ++ (44 ∷ (compact_text (ref_value msg_ref.now)
        ++ (44 ∷ quoted_text topic.now)))))) }
{
    text.push_str("[")?;
    push_ref(alloc, text, join_ref)?;
    text.push_str(",")?;
    push_ref(alloc, text, msg_ref)?;
    text.push_str(",")?;
    push_quoted(alloc, text, topic.as_str())
}

/// The text of a reply that all went well, whose response is written already: that of `encode`,
/// without the value.
pub fn reply_text(
    alloc: Global,
    join_ref: &Option<MsgRef>,
    msg_ref: &Option<MsgRef>,
    topic: &Topic,
    response: &str,
) -> Result<String, AllocError>
    ensures { IfOk result (λ s. string_bytes s
        ≡ ok_text join_ref.now msg_ref.now topic.now response.now) }
{
    let names = topic.as_str().len().saturating_add(BESIDE_A_REPLY);
    let mut text = String::with_capacity(alloc, response.len().saturating_add(names))?;
    push_asked(alloc, &mut text, join_ref, msg_ref, topic)?;
    text.push_str(",\"phx_reply\",{\"response\":")?;
    text.push_str(response)?;
    text.push_str(",\"status\":\"ok\"}]")?;
    Ok(text)
}
