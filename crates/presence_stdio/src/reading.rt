//! The message of a line.
ghost use Rattle.std.specs.Prelude.{◌≡◌, Some, IfOk, IfErr, Err};
ghost use Rattle.phx_message.specs.declared.message.MessageFault.{MessageFault as Fault};
ghost use Rattle.phx_message.specs.Reading.{Answers, decoded};
ghost use Rattle.presence_stdio.specs.Reading.{bytes_fault, message_in, line_message};

use phx_message::{Limits, Message, MessageFault, decode};
use std::alloc::Global;

/// The message that a line is under these limits, without its line feed. A line that is too long, or
/// no UTF-8, is refused without memory.
#[tactic(auto, unfolding(crate::specs::Reading::message_in))]
pub fn message_within(alloc: Global, line: &[u8], limits: Limits) -> Result<Message, MessageFault>
    ensures message { Answers result (message_in limits line.now) }
    ensures none { (fault : Fault) → bytes_fault limits line.now ≡ Some fault → result ≡ Err fault }
{
    if line.len() > limits.bytes {
        return Err(MessageFault::TooLong);
    }
    match str::from_utf8(line) {
        Ok(text) => decode(alloc, text, limits),
        Err(_) => Err(MessageFault::NotJson),
    }
}

/// The text that a client's line is, without its line feed, or why it is no message.
#[tactic(auto, unfolding(crate::specs::Reading::message_in))]
pub fn text_of_line(line: &[u8]) -> Result<&str, MessageFault>
    ensures text { IfOk result (λ text. line_message line.now ≡ decoded Limits.CLIENT text.now) }
    ensures fault { IfErr result (λ fault. line_message line.now ≡ Err fault) }
{
    if line.len() > Limits::CLIENT.bytes {
        return Err(MessageFault::TooLong);
    }
    match str::from_utf8(line) {
        Ok(text) => Ok(text),
        Err(_) => Err(MessageFault::NotJson),
    }
}
