//! The lines that nodes exchange over a link, one JSON array and a line feed each; and their members: arrays of
//! just so many, numbers, replicas and told values; and why a link ends.
//!
//! Its contracts cite these definitions:
//! - `specs/Kinds`: the kind that an array's first member names
//! - `specs/Limits`: the limits of lines
//! - `specs/Reading`: which line a text is, or the first thing that is wrong with it
//! - `specs/Values`: the JSON value that a line is written as
//! - `specs/Writing`: the text that a line is written as
//! - `specs/Arrays`: arrays of just so many values
//! - `specs/Members`: the members of a line: which JSON values are numbers within limits, names, replicas, dots and
//!   ranges
//! - `specs/ReadingMembers`: what was read where a reader stands, and where it stands then
//! - `specs/Results`: what a step of reading answers: what it found, or the first fault
//! - `specs/Rows`: a row read in parts, and what is kept of its meta
//! - `specs/Taken`: the data of the members of an array, lent or taken out
//! - `specs/Telling`: which JSON values are the parts of a told value: ranges, dots and rows, and lists of these
//! - `specs/Told`: which JSON value is a told value, and what is wrong with one
#![tactic(auto)]

mod arrays;
mod fault;
mod hearer;
mod kinds;
pub mod laws;
mod lines;
mod members;
mod reading;
mod telling;
mod texts;
mod told;
mod values;

pub use fault::LinkFault;
pub use hearer::{Hearer, Telling};
pub use lines::{Line, MAX_LINE_BYTES};
pub use members::replica_of;
pub use texts::{decode_line, encode_line};
