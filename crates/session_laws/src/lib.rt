//! Laws of sessions over one lent shard, and of a run of lines over one: what they answer there, and what a client
//! makes of it, that folds all that was written. No program uses them.
//!
//! `specs/Mirrors` has what a client makes of messages, `specs/Keeping` a session's lines, `specs/Turns` what is in
//! force by turns, `specs/Laws` the laws; `specs/Naming`, that a session names each topic on which a row of its own
//! stands, `specs/Subscribed`, that it knows each subscriber that it made, and `specs/LeftBehind`, that an accepted
//! end leaves nothing of it there; `specs/Pieces`, that a client makes the same of states in pieces;
//! `specs/Mirrored`, what such a client holds behind each line of a run.
#![tactic(auto)]

pub mod ended;
pub mod laws;
pub mod pieces;
mod stdio_laws;

pub use stdio_laws::mirrors;
