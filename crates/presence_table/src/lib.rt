//! The presence table as plain data, on a page, and the laws that a shard's journal and its calls say what it says. No program
//! uses them. The contracts of `laws` cite these definitions:
//! - `specs/Plain`: the table of a history: what a step comes to, what it leaves, and what subscribers are told
//! - `specs/Others`: what other nodes' steps, time and rebirths do to it
//! - `specs/Calls`: what a call answers and leaves, or the first refusal
//! - `specs/Laws`: that the history says the same
//! - `specs/CallLaws`: that each call of a shard but the cut does what the table says
//! - `specs/Checkpoints`: that a checkpoint keeps the table
#![tactic(auto)]

pub mod laws;
