//! The world of nodes: the lives of nodes with one shard, what they tell one another, and what holds of them over
//! every list of events; and that world, run: what happens to its nodes, and what they show.
//!
//! A node is a real `Shard`, so the world runs the code that serves. The contracts of `laws` cite these
//! definitions:
//! - `specs/World`: a world, and what an event makes of it
//! - `specs/Others`: what a node hears of what is told of others
//! - `specs/Claims`: what is never invented, never resurrected, and equal once a node is caught up
//! - `specs/Facts`, `specs/TrueWorlds`: what the claims rest on
//! - `specs/Needs`: runs that would break a claim, were a rule of the steps another one
//!
//! The run's contracts cite these beside:
//! - `specs/Living`: a life that cuts, and one that begins again
//! - `specs/Tellings`: what was told, by the form in which it is kept
//! - `specs/Asked`: what is asked of a world
//! - `specs/Codes` and `specs/LifeCodes`: how the logic stores a world and a life
//!
//! `specs/Taken` is of the shard's calls.
#![tactic(auto)]

mod asking;
mod event;
mod going_on;
mod happening;
pub mod laws;
mod life;
mod lives;
mod names;
mod others;
mod refused;
mod row;
mod running;
mod steps;
mod taking;
mod telling;
mod world;

pub use event::Event;
pub use names::has_name_twice;
pub use running::run;
pub use world::World;
