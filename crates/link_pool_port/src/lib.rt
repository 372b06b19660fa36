//! What a link asks of a server's shards: a pool of shards, without a seat.
//!
//! What its contracts cite: `specs/Asking` has the pool's call for each question of a link, and the beat of a cut;
//! `specs/Fitting` what goes along with a beat; `specs/Parts` what is told in parts; `specs/Others` what is heard of what is
//! told.
#![tactic(auto)]

mod above;
mod beats;
mod fault;
mod fitting;
mod lengths;
mod link_port;
mod others;
mod parts;

pub use beats::beat_of;
pub use fitting::{bare_beat, fitting_beat};
pub use link_port::PoolLinkPort;
pub use parts::MAX_PART_BYTES;
