//! The threads of a node and what goes from one to another: some at work, one at the door, some at other tasks, and
//! the caller's own, which waits for the end; the queue by which connections go from the acceptor to the workers;
//! and what is posted to a thread shard by shard, of which it finds the last of each when it looks.
//!
//! What its contracts cite: `specs/HandedBack` says what the threads hand back; `specs/Rising` is the queue's rule,
//! and what giving a connection did; `specs/Latest` has what is kept of what is posted, `specs/Turns` in which
//! order it goes out. That threads get on, and when, no contract says, nor of what a mailbox holds, since others
//! post to it at any time.
#![tactic(auto)]

mod crew;
mod ends;
mod latest;
pub mod laws;
mod mailbox;
mod numbered;
mod queue;
mod tools;
mod turns;

pub use crew::{AwaitEnd, Crew, CrewFault, Posts, run_crew};
pub use ends::{GiveFault, Giver, NoneWaits, Taker};
pub use latest::Latest;
pub use mailbox::Mailbox;
pub use numbered::{LAST_NUMBER, Numbered};
pub use queue::MAX_QUEUED;
pub use tools::Tools;
pub use turns::{first_behind, from_shard};
