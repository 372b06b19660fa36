//! What a server's clients may do beyond the usual, where its operator says so: send any number, and events of their
//! own; and have a message count only under the reference of the present join.
//!
//! All of it is done before a session reads a text, and behind the texts that it gives: the session, its port and the
//! shards see texts, shouts and joins as ever. By default each text stays as it is.
//!
//! What its contracts cite: `specs/Names` names of events, `specs/Events` which events are a client's own, `specs/Kept` as
//! what shouts they are kept, `specs/Meaning` what a session reads of a client's text, `specs/Telling` what a client gets of
//! its session's texts, `specs/Laws` the laws.
#![tactic(auto)]

mod events;
mod kept;
pub mod laws;
mod meaning;
mod settings;
mod telling;

pub use events::{EventNames, OwnEvents};
pub use meaning::{Meaning, Reading};
pub use settings::Settings;
