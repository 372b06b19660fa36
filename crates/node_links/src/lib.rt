//! Links between nodes: which actions each line asks for at one end, what these ask of a node's shards and what
//! comes of it, and one exchange over any stream.
//!
//! The table of exchanges is `specs/Exchanges`: `actions_of`, with `at_first` for the line that opens a link and
//! `later` for those behind it. `LinkPort` is what is asked of shards: `specs/Asks` has the questions and their
//! answers, `specs/Acting` what comes of a line's actions: `Acts`, with `Does` for one action, a line each.
//! `specs/Streams` says what reading and writing a line does to a stream. What an exchange does is `specs/Talking`:
//! `Accepts` and `Dials`.
#![tactic(auto)]

mod accepting;
mod act_outcome;
mod acting;
mod action;
mod bytes;
mod counts;
mod dialling;
mod exchanges;
mod fault;
mod forms;
mod hearing;
pub mod laws;
mod lines;
mod link;
mod outcome;
mod owns;
mod peer;
mod port;
mod turn;

pub use accepting::{accept_one, answer_line};
pub use act_outcome::Act;
pub use acting::act;
pub use action::LinkAction;
pub use dialling::{dial, exchange};
pub use fault::DialFault;
pub use forms::{begins_anew, form_told, next_form};
pub use hearing::hear_bytes;
pub use lines::{line_of_bytes, read_line, write_line};
pub use link::Link;
pub use outcome::{Exchanged, Untold, UntoldSize};
pub use peer::{End, Peer};
pub use port::{ActFault, LinkPort};
