//! The observed-remove set of presence rows, what is told of it, and the check of what comes from outside (Bieniusa
//! et al., 2012).
//!
//! Its contracts cite these definitions:
//! - `specs/Checks`: what is wrong with a told value: the first fault, in order
//! - `specs/Full`: the full told value of a set: all that is told of it, each thing once and in order
//! - `specs/Laws`: what joins keep, whatever is joined, in any order and number
//! - `specs/Limits`: the limits of dots, rows and ranges
//! - `specs/Sets`: an observed-remove set: the dots that it covers, and the rows that are live
//! - `specs/Steps`: what the steps on covered dots and live rows leave, and which dots they gather
//! - `specs/Telling`: telling: what a told value covers, and which adds and removes it tells
#![tactic(auto)]

mod cut;
mod fitting;
mod form;
mod full;
mod joins;
pub mod laws;
mod limits;
mod plan;
mod raw;
mod rows;
mod set;
mod told;
pub mod told_laws;

pub use cut::ReplicaTest;
pub use form::Form;
pub use plan::JoinPlan;
pub use raw::{RawRow, RawTold};
pub use set::Orswot;
pub use told::{MAX_ROWS, Told, ToldFault};
