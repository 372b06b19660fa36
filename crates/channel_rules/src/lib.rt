//! The rules of the built-in channel, what they ask of a port, and the parts of their answers.
//!
//! `specs/Rules` has the rules as scripts of questions, `specs/Asks` the questions, `specs/Seen` their answers as
//! contracts see them, `specs/Questions` calls as questions, `specs/Shards` what a question is at its topic's shard,
//! `specs/Asked` what a payload asks to be tracked, `specs/Outcome` what the function of a rule promises,
//! `specs/Delivering` the script of a delivery, `specs/Said` what is said and by which messages it is told,
//! `specs/InForce` what a session holds and `specs/Limits` of how many topics.
#![tactic(auto)]

mod asked;
mod call;
mod calls;
mod kind;
pub mod laws;
mod port;
mod question;
mod reasons;
mod refusal;
mod replies;
mod stop;
mod topics;

pub use asked::{Asked, read_asked, read_key};
pub use call::{AtShard, Call, NoStep, told_to};
pub use calls::{
    Get, List, Shout, Subscribe, Take, Track, Unsubscribe, Untrack, UntrackAll, Update, Waits,
};
pub use kind::{EventKind, TopicEvent, is_phoenix, kind_of};
pub use port::Port;
pub use question::{Question, Told};
pub use reasons::{full_reason, stop_of, subscribe_reason, track_reason, update_reason};
pub use refusal::{Refusal, in_table};
pub use replies::{
    Listed, Reply, Written, empty_object, ref_response, write_close, write_error, write_listed,
    write_ok,
};
pub use stop::{Stop, StopKind, spoil, spoiling};
pub use topics::{Join, MAX_TOPICS, Topics};
