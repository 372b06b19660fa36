//! How many rows one connection may have, and how many bytes they may take, so that no client fills a topic by
//! itself; how many those of a node may have and take at one topic, so that no crowd does; and the ports that
//! refuse what is beyond these limits, and what takes memory where memory is tight.
//!
//! Its contracts cite `specs/Rows`: which rows count for a connection and what has room beside them,
//! `specs/Connections`: how the rows of connections change, `specs/Ledgers`: what is taken of a topic, and how it
//! is given back, `specs/Memory`: when memory is tight; `specs/Rationing`: what a port counts of the calls that go
//! through it, and which it refuses, and `specs/Guarding`: which it refuses where memory is tight.
#![tactic(auto)]

mod amount;
mod budgets;
mod guarding;
pub mod laws;
mod ledger;
mod memory;
mod ration;
mod rationing;
mod rations;

pub use amount::Amount;
pub use budgets::{Budgets, OwnBudgets, SharedBudgets, TopicBudgets};
pub use guarding::GuardedPort;
pub use ledger::Ledger;
pub use memory::{LACK_MILLISECONDS, MemoryMark, is_recent, is_tight};
pub use ration::{MAX_ROW_BYTES, MAX_ROWS, amount_of, row_bytes};
pub use rationing::RationedPort;
pub use rations::Rations;
