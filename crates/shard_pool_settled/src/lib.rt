//! When the receipts that callers keep of their calls and the journals of the shards agree.
//!
//! Its public contracts cite `specs/Settled`: what agrees, and each cause for which it doesn't. That stands on
//! `specs/Alike`, when two steps and two outcomes are alike, and on `specs/Seated`, which entry has a number and
//! how many have a seat. `specs/Words` says in words what agreeing receipts and journals are, which its laws are about.
#![tactic(auto)]

mod alike_outcomes;
mod alike_steps;
mod fault;
pub mod laws;
mod receipt;
mod seated;
mod settled;

pub use fault::SettleFault;
pub use receipt::Receipt;
pub use settled::check_receipts;
