//! What the program does over the standard streams. `stdio` is one session over one shard, which a port lends it:
//! each line of an input is answered, and what is delivered behind it is written before the next one is read.
//! `fold` folds presence frames as a client folds them, and prints them as one object. The program itself adds to
//! presences nothing beside metas, and a notice of each row that joins or leaves.
//!
//! What its contracts cite: `specs/Session` says what a line is answered; `specs/Run` what is written for the lines
//! of an input, and `specs/Outlets` where it goes; `specs/Told` how a fault is told; `specs/Local` what the port
//! answers that lends a shard, and what a script comes to over it. `specs/Lines` cuts an input at its line feeds;
//! `specs/Bytes` says what reading and writing do to the bytes of a reader and a writer; `specs/Reading` which
//! message a line is; `specs/RefusalTold` how a refused line is told. `specs/Mirrors` has the clients' lists and
//! the object that they are printed as; `specs/Folding` says what lines of frames are folded to; `specs/FoldTold`
//! how a fault is told; `specs/Notes` what is noted of a row that came or went. What a client that folds it all
//! holds behind each line is a law (session_laws).
#![tactic(auto)]

mod fault;
mod fold;
mod fold_fault;
mod fold_telling;
pub mod laws;
mod lines;
mod local;
mod local_port;
mod mirrors;
mod outlets;
mod reading;
mod references;
mod refusal_line;
mod run;
mod stream_fault;
mod telling;

pub use fault::{LineFault, StdioFault};
pub use fold::{fold_lines, run_fold};
pub use fold_fault::FoldFault;
pub use fold_telling::{fold_status_of, fold_told_line, fold_words};
pub use lines::{MAX_INTERRUPTS, read_line};
pub use local::{LocalSession, Output};
pub use local_port::LocalPort;
pub use outlets::Outlets;
pub use references::ReferenceNotices;
pub use run::run_stdio;
pub use stream_fault::StreamFault;
pub use telling::{status_of, told_line, told_words};
