//! Tests of the world of nodes by its lines: worked runs, runs of random events, and lines that are refused.
#![tactic(auto)]

#[cfg(test)]
mod others;
#[cfg(test)]
mod parts;
#[cfg(test)]
mod rebirths;
#[cfg(test)]
mod refused;
#[cfg(test)]
mod runs;
#[cfg(test)]
mod script;
#[cfg(test)]
mod worked;
