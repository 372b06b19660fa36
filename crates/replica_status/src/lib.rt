//! Which replicas are up, down or gone, by when they were last heard.
//!
//! Its contracts cite these definitions:
//! - `specs/Boards`: boards: the table applied to every replica
//! - `specs/Laws`: what the steps of a board make of each replica
//! - `specs/Limits`: after how many milliseconds of silence a replica is down, and gone: the table cites them by these
//!   names
//! - `specs/Replicas`: replicas are told apart by their order, and equal ones are one
//! - `specs/Table`: the status table: what is made of the standing of one replica, a line for each standing
#![tactic(auto)]

mod board;
mod change;
pub mod laws;
mod listed;
mod standing;
mod status;

pub use board::Board;
pub use change::Change;
pub use standing::{DOWN_AFTER_MS, GONE_AFTER_MS, Standing};
pub use status::Status;
