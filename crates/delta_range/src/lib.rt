//! Deltas of the observed-remove set: what an owner tells of a range of its counts, and joined deltas.
//!
//! Its contracts cite these definitions:
//! - `specs/Caps`: how many rows and older runs each kept delta may have: the generations cite them by these names
//! - `specs/Deltas`: deltas: what an owner tells of one range of its counts, with the older ones that it removed
//! - `specs/Fitting`: fitting: what a delta tells, counted by the ends of its older runs, before a dot is made of them
//! - `specs/Growing`: growing: a delta that takes in the next one in place, and all that it needs for that
//! - `specs/Joining`: joined: two deltas of one owner, the second of which goes on from the first, as one
//! - `specs/Keeping`: generations: three joined deltas, of which a shorter one begins later
//! - `specs/Laws`: what a joined delta tells, beside its two parts
//! - `specs/Longest`: longest runs of counts, made from any runs. A run is the pair of the count below its first one
//!   and its last one
//! - `specs/Planning`: planning: what a generation was, and what it becomes
#![tactic(auto)]

mod delta;
mod fault;
mod fitting;
mod generations;
mod growth;
mod joining;
pub mod laws;
mod runs;

pub use delta::Delta;
pub use fault::DeltaFault;
pub use generations::{Generations, LONG_CAP, MIDDLE_CAP, SHORT_CAP};
pub use runs::{longest, push_up_to};
