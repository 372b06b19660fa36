//! The lists in what a shard's journal begins with: runs and chains of counts, subscribers with their topics, their
//! numbers, and the standings of other replicas. Contracts see each as a list.
#![tactic(auto)]

mod gone;
mod kept;
mod lives;
mod standings;

pub use gone::GoneReplicas;
pub use kept::{Chains, Numbers, Runs, Subscribers};
pub use lives::Lives;
pub use standings::Standings;
