//! A JSON text read by its parts, so that no tree of the whole stands in memory.
//!
//! Its contracts cite these definitions:
//! - `specs/Places`: where a reader stands in a text, and the data of what is there
//! - `specs/Items`: the items of an array, one by one or the first few
//! - `specs/Outline`: a value without what is in its arrays and objects, and the first items of an array so
//! - `specs/Small`: a value that is small enough for a meta
#![tactic(auto)]

mod brief;
mod items;
mod numbers;
mod small;
mod whole;

pub use items::{Begun, begin, few_items, next_shallow, shallow};
pub use small::next_meta;
pub use whole::{MAX_DEPTH, is_json};
