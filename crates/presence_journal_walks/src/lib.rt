//! What a shard's journal answers, each by a walk over its entries; and what it says of a subscriber without taking
//! memory: its topic, and whether something waits for it.
//!
//! Its public contracts cite presence_journal's `History`, `Laws`, `Present`, `Queue` and `Table`; `specs/Pending`
//! says what waits, as the code gives it. `specs/Changes`, `specs/Rows` and `specs/Waits` are of loops.
#![tactic(auto)]

mod again;
mod changing;
mod diff;
mod entries;
mod lists;
mod pending;
mod rows;
mod steps;
mod told;
mod topics;
mod waits;

pub use diff::walk_diff;
pub use lists::{walk_get, walk_list, walk_own_row, walk_own_rows};
pub use pending::{Pending, walk_pending};
pub use topics::walk_topic;
pub use waits::walk_waits;
