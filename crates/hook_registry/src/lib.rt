//! The routes of a server's topics, and what a server adds to what its clients are told.
//!
//! Its contracts cite these definitions:
//! - `specs/Codes`: how the logic stores the members of an extra
//! - `specs/Extras`: what may be told of a key beside its metas
//! - `specs/Laws`: rendered frames are read as the rows that they were made of, whatever a fetch adds
//! - `specs/Limits`: the limits, which the other definitions cite by their names
//! - `specs/Noted`: what is noted of the rows that join and leave
//! - `specs/Patterns`: patterns of topics: an exact topic, or a prefix followed by one `*`
//! - `specs/Rendered`: what is told of rows where a fetch adds members to each key's object
//! - `specs/Routes`: what routes answer
//! - `specs/Stored`: what a stored closure is asked with: references to a topic, a key and a dot
#![tactic(auto)]

mod extra;
mod hooks;
pub mod laws;
mod notice;
mod noting;
mod rendering;
mod routes;
mod stored;

pub use extra::{Extra, MAX_EXTRA_MEMBERS, MAX_EXTRA_NAME_BYTES, MAX_EXTRA_VALUE_DEPTH};
pub use hooks::{NoHooks, PresenceHooks};
pub use notice::{MAX_NOTICE_BYTES, Notice};
pub use noting::notices;
pub use rendering::{render_diff, render_state};
pub use routes::{MAX_PATTERN_BYTES, MAX_ROUTES, RouteFault, Routes};
pub use stored::{Fetch, Hooks, Tell};
