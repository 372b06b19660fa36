//! What the server says on standard error: a line for a client that is refused, dropped or closed for cause, at most some a
//! second for each reason, and the server's own lines, as texts or as objects of JSON.
//!
//! What its contracts cite: `specs/Counted` says which events have a line and for how many a line stands, `specs/Lines` what a
//! line says.
#![tactic(auto)]

pub mod laws;
mod lines;
mod log;
mod quota;
mod quotas;
mod reasons;
mod time;

pub use lines::LogFormat;
pub use log::{Log, say_line};
pub use quota::LINES_A_SECOND;
pub use reasons::{Deed, Level, Reason, Shown};
