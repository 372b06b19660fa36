//! What a shard's journal covers, which rows of it are live, and what it says of other replicas, by walks
//! over its entries.
//!
//! Its public contracts cite presence_journal's `History`, and `specs/Walked` and `specs/LeftOut` here. `specs/Reaching` is
//! of how far counts go on without a gap.
#![tactic(auto)]

mod counts;
mod known;
mod leaving;
mod reaching;
mod rebirths;
mod sets;
mod statuses;
mod walked;

pub use counts::{reborn_pairs, used_after, used_by, walk_count};
pub use leaving::walk_set;
pub use rebirths::{can_go_on, number_dots, walk_can_be_reborn, walk_pairs};
pub use sets::{walk_covers, walk_top};
pub use statuses::{hears_after, status_after, walk_status};
pub use walked::{made_row, reborn_row, row_of, walk_set_of};
