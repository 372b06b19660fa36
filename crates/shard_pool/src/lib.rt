//! Up to four shards, each behind a lock of its own, and seats that keep receipts of their calls: what a call does
//! with the guard lent, what it does behind the lock of one shard, and what it does to the pool.
//!
//! Its public contracts cite `specs/Calls`: what each call of a seat does, over `specs/Seats`: a seat at all
//! shards, and what a call does to it, `specs/Settling`: the seats by number and the journals handed back,
//! `specs/Lanes`: what the four shards begin with, and `specs/Blanks`: the ledgers that a pool is started with.
//! Those stand on what is said of one shard: `specs/Hands`: a seat there, and `specs/Lent`: what a call does to it
//! and to the shard; `specs/Seated`: what a seated call leaves, `specs/Unseated`: what stands behind the answer of
//! a call without a seat, and `specs/Due`: whether a journal is due for a checkpoint. `Seated` and `Unseated` name
//! a history behind the answer at most, since the lock is let go. All stand on tracker_shard's `Steps`, `Calls` and
//! `Asks`, and on the receipts of shard_pool_settled.
//!
//! What no contract says of a pool call: that the history behind its answer, one of that shard, is the one that its
//! lock held, and that a call without a seat makes its step. That is for tests with threads to say.
#![tactic(auto)]

mod blanks;
mod due;
mod gate;
mod lack;
mod lane;
mod lanes;
mod lent;
mod locked;
mod locked_asks;
mod locked_calls;
mod locking;
mod noting;
mod part;
mod pool;
mod reply;
mod seat;
mod seated;
mod settling;
mod start;
mod tried;
mod unseated;

pub use blanks::Blanks;
pub use due::DueFrom;
pub use gate::{Gate, NoGate};
pub use lane::Lane;
pub use lanes::{Four, Lanes};
pub use lent::lent_call;
pub use pool::Pool;
pub use reply::{PoolFault, Reply};
pub use seat::Seat;
pub use settling::check_seats;
pub use tried::Tried;
