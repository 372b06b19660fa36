//! The messages of Phoenix channels in their second version: one JSON array of five members each,
//! the join reference, the reference, the topic, the event and the payload.
//!
//! Its public contracts cite these definitions, and no others:
//! - `specs/Message`: the value that a message is written as, and the limits of messages
//! - `specs/Reading`: what a text is read as
//! - `specs/Making`: replies, pushes and closes
//! - `specs/Pushing`: the texts of pushes and replies, round the text of what they tell
//! - `specs/Lines`: texts without a line feed
//! - `specs/Laws`: the laws, each stated by a function of `laws`; `specs/Orderly`: a value as it is once it was read
//!
//! `specs/Members` is of five members as lemmas see them.
#![tactic(auto)]

mod decoding;
mod encoding;
pub mod laws;
mod making;
mod message;
mod pushing;
mod quoting;

pub use decoding::decode;
pub use encoding::encode;
pub use making::{Status, broadcast, close_of, push, reply, reply_error, reply_ok};
pub use message::{Limits, MAX_EVENT_BYTES, Message, MessageFault, MsgRef};
pub use pushing::{push_text, reply_text};
pub use quoting::{push_quoted, push_ref, quoted};
