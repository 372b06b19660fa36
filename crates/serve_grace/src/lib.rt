//! How the clients of a server are let go before it stops: over a grace, evenly.
//!
//! Its contracts cite these definitions:
//! - `specs/Staying`: how many clients stay at a time of the grace
#![tactic(auto)]

mod grace;
pub mod laws;
mod rules;

pub use grace::Grace;
pub use rules::{leaving, staying};
