//! What a shard's journal tells other nodes of its own replica: a cut, or a part of all. And what is not told yet,
//! kept in place of walked (`Untold`): the rows above the last cut, the older counts that went since, and the
//! chains of the own rows, so that a cut costs what it tells. What the cuts told is kept too, joined, for nodes
//! that missed some.
//!
//! Its public contracts cite `specs/Cuts`: what a cut tells; `specs/KeptDeltas`: what is told from a count on;
//! `specs/Untold`: what is kept of that, and `specs/Listed`; and `specs/Parting`: how a part is made, which
//! `specs/ToldParts` says. `specs/Handing` says how long a chain gets, `specs/Chains` is of loops and parts, and
//! `specs/Changes` of what an entry changes of what is kept. `specs/Checkpoints` says when a Start stands for a
//! history. What other nodes make of cuts is in presence_journal_laws.
#![tactic(auto)]

mod chain;
mod change;
mod cut;
mod kept;
mod last;
mod listing;
mod older;
mod part;
mod putting;
mod recent;
mod rows;
mod start;
mod untold;

pub use chain::{Chain, MAX_CHAIN_RUNS, handed_chain};
pub use cut::walk_cut;
pub use kept::{kept_chains, kept_rows, kept_runs};
pub use last::{dots_out, walk_last_cut};
pub use older::push_all_gone;
pub use part::{rows_from, up_to, vacant_of, vacant_runs};
pub use recent::{added_row, drop_dots, put_row};
pub use untold::Untold;
