//! The journal of a shard: what was asked and told, with the answers, and what these say of who is present; and
//! what it is made of: steps, what they came to, entries, and rows as lists.
//!
//! Its public contracts cite these definitions, which stand on one another, and presence_base's `Refs`:
//! - `specs/History`: a history, and what it says of each dot and replica; `specs/Codes`: how the logic stores it
//! - `specs/EntryBytes`: the bytes that an entry keeps beside itself; `specs/KeptBytes`: those of all
//! - `specs/Limits` and `specs/StepLimits`: what a step may hold
//! - `specs/RowDots`: the dots of rows; `specs/ListedDots`: those of a list, wherever they lie
//! - `specs/Table`: the sequential presence table, and the histories that keep to it
//! - `specs/Present`: the rows of a topic, and how two such tables differ
//! - `specs/Queue`: what waits for a subscriber, what it took, and what a client makes of it
//! - `specs/Laws` and `specs/Merges`: the laws, each stated by a function of presence_journal_laws' `laws`, and the
//!   worked runs
//! - `specs/Sizes`: how many entries and items there may be
//!
//! `specs/Walk` is of tables as lemmas see them.
#![tactic(auto)]

mod entries;
mod entry;
mod journal;
mod kept_bytes;
pub mod laws;
mod limits;
mod listed_dots;
mod rows;
mod shared;
mod shared_rows;
mod shared_values;
mod step;
mod waiting;

pub use entry::{Dots, Entry, Outcome, Pairs, Start};
pub use journal::{Journal, MAX_ENTRIES, own_after, own_of};
pub use limits::{MAX_PAYLOAD_DEPTH, MAX_TAKEN, Payload, TakeLimit};
pub use listed_dots::ListedDots;
pub use rows::{Item, Place, RowDiff, Rows};
pub use shared::{SharedDiff, SharedShout};
pub use shared_rows::{SharedRows, dots_of_rows};
pub use shared_values::{SharedDot, SharedReplica, SharedTold};
pub use step::Step;
pub use waiting::MAX_WAITING;
