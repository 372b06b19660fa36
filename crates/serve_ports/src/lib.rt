//! The ports of a server's sessions: a pool of shards, asked through a seat; one round it that counts the calls by
//! kind, and what was delivered, where kinds are known without a look at any text; and one that notes which topics
//! have something new: each worker tells those whose sessions follow them, so that none has to look at all of its
//! connections. What a client is told rests on none of these notes: a hint only says where to look first.
//!
//! What its contracts cite: `specs/Asking` has the pool's call for each question of a session, `specs/Counting`
//! what a call adds, `specs/Following` which topics are followed, and by whom, what is added to them, and what a
//! port notes of its calls.
#![tactic(auto)]

mod followed;
mod followers;
mod hinting;
mod inbox;
mod pool_port;
mod port;
mod tally;

pub use followed::Followed;
pub use followers::Followers;
pub use hinting::{HintingPort, Noted};
pub use inbox::{Inbox, Topics, follows};
pub use pool_port::PoolPort;
pub use port::CountingPort;
pub use tally::Tally;
