//! Tests of a shard by its public calls, and of one that hears what other nodes tell: worked rows, whose answers were written
//! down by hand.
#![tactic(auto)]

#[cfg(test)]
mod calls;
#[cfg(test)]
mod current;
#[cfg(test)]
mod cuts;
#[cfg(test)]
mod desk;
#[cfg(test)]
mod full_journal;
#[cfg(test)]
mod kept_deltas;
#[cfg(test)]
mod long_chains;
#[cfg(test)]
mod merge_desk;
#[cfg(test)]
mod merging;
#[cfg(test)]
mod rebirths;
#[cfg(test)]
mod refused_growths;
#[cfg(test)]
mod resuming;
#[cfg(test)]
mod statuses;
#[cfg(test)]
mod tops;
