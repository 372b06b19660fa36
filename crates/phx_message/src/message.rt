//! The message, its limits and faults.
use presence_base::{Json, Text, Topic};
use std::alloc::AllocError;
use thiserror::Error;

/// The longest event, in bytes.
pub const MAX_EVENT_BYTES: usize = 64;

/// A reference that a client picked.
#[derive(PartialEq, Eq, Debug, Drop)]
pub enum MsgRef {
    Text(Text),
    Number(u64),
}

impl Clone for MsgRef {
    ghost use Rattle.std.specs.Prelude.{◌≡◌};

    ghost is_clone = { λ r s. s ≡ r };

    fn clone(&self) -> Result<MsgRef, AllocError> {
        match self {
            MsgRef::Text(text) => Ok(MsgRef::Text(text.clone()?)),
            MsgRef::Number(n) => Ok(MsgRef::Number(*n)),
        }
    }
}

/// A message of a channel (Phoenix.Socket.Message).
#[derive(Debug, Drop)]
pub struct Message {
    /// The reference of the join that the message belongs to.
    pub join_ref: Option<MsgRef>,
    /// The reference that a reply repeats.
    pub msg_ref: Option<MsgRef>,
    pub topic: Topic,
    pub event: Text,
    pub payload: Json,
}

impl Clone for Message {
    ghost use Rattle.std.specs.Prelude.{◌≡◌};

    ghost is_clone = { λ m n. n ≡ m };

    fn clone(&self) -> Result<Message, AllocError> {
        let join_ref = self.join_ref.clone()?;
        let msg_ref = self.msg_ref.clone()?;
        let topic = self.topic.clone()?;
        let event = self.event.clone()?;
        let payload = self.payload.clone()?;
        Ok(Message {
            join_ref,
            msg_ref,
            topic,
            event,
            payload,
        })
    }
}

/// How many bytes a text may have, and how deep its payload may nest.
#[derive(Clone, Copy, PartialEq, Eq, Debug)]
pub struct Limits {
    pub bytes: usize,
    pub depth: u32,
}

impl Limits {
    /// What a client may send.
    pub const CLIENT: Limits = Limits {
        bytes: 65_536,
        depth: 64,
    };
    /// What a client reads.
    pub const FRAME: Limits = Limits {
        bytes: 16_777_216,
        depth: 96,
    };
}

/// Why a text is no message. Of several reasons the first in this order is told, and want of
/// memory in its place, but for a text that is too long, which is found without memory.
#[derive(Clone, Copy, PartialEq, Eq, Debug, Error)]
pub enum MessageFault {
    #[error("the text is too long: 65536 bytes are allowed from a client, 16777216 in a frame")]
    TooLong,
    #[error("the text is not JSON: one value that nests at most 127 deep is allowed")]
    NotJson,
    #[error("the text is not an array of five members: join reference, reference, topic, event, payload")]
    NotFive,
    #[error("a reference is not null, a text or a whole number from 0 to 18446744073709551615")]
    BadRef,
    #[error("the topic is not a text of 1 to 255 bytes")]
    BadTopic,
    #[error("the event is not a text of 1 to 64 bytes")]
    BadEvent,
    #[error("the payload is too deep: 64 levels are allowed from a client, 96 in a frame")]
    TooDeep,
    #[error("a number in the payload is not a whole number of 64 bits")]
    Fraction,
    #[error("out of memory")]
    OutOfMemory,
}
