//! What a shard knows of its history, kept in place of walked: the dots that are covered with their live rows, the
//! standings of the other replicas with the time, and the own count. And the turn of an entry: the rows that it
//! shows and those that it hides, be it that it adds them or takes them out itself, that their replica comes up or
//! goes, or that a told value brings them.
//!
//! Its public contracts cite `specs/Known`, `specs/Standings`, `specs/Turns` with tracker_shown's `Turns`,
//! `specs/Picks` and `specs/Again`, and of `specs/Starts` `ListsStandings`.
#![tactic(auto)]

mod again;
mod fading;
mod gather;
mod known;
mod listing;
mod merge_turn;
mod others;
mod own;
mod starting;
mod told_again;
mod turn;

pub use known::Known;
