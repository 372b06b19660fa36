//! Lines whose numbers are marked as they are read, and unmarked as they are written.
//!
//! A reader and a writer that stand before others, so that what reads lines through the one and writes them through the
//! other never sees a number that a message may not have.
#![tactic(auto)]

mod reading;
mod writing;

pub use reading::{MarkingReader, client_lines, frame_lines};
pub use writing::UnmarkingWriter;
