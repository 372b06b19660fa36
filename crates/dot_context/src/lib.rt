//! Sets of dots, each as the longest runs of counts of each replica.
//!
//! Its public contracts cite `specs/Sets`: sets of dots, and what runs stand for; `specs/Forms`: the one form of a
//! set; and `specs/Runs`, on which both stand: what runs hold, when they are apart, and what each change of them
//! leaves. `specs/Changes` is of what a change leaves of the runs of all replicas.
#![tactic(auto)]

mod context;
mod plan;
mod replicas;
mod runs;
mod views;

pub use context::{Context, one_form};
pub use plan::ContextPlan;
pub use runs::Runs;
pub use views::{Cloud, Ranges, ReplicaRuns, Tops};
