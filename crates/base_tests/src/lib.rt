//! Tests of what stands below a shard: names, dots, metas and messages, the presence list as a client keeps it with what a
//! server adds to it, and contexts, sets and told values, all by their public names.
//!
//! They have one crate, so that no crate that they test is proved anew with them, and what a program of tests is checked
//! for anew is checked once.
#![tactic(auto)]

#[cfg(test)]
mod dots;
#[cfg(test)]
mod lists;
#[cfg(test)]
mod messages;
#[cfg(test)]
mod metas;
#[cfg(test)]
mod names;
#[cfg(test)]
mod sets;
#[cfg(test)]
mod texts;
