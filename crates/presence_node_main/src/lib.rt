//! The program itself: it reads the words of its command line, runs what they ask for over the standard streams,
//! and tells how that ended.
//!
//! What its contracts cite: `specs/Ending` says which line goes to which stream, and with which status;
//! `specs/Ends` how a run of the server at given options may end, and `specs/ServeEnds` with which status and line
//! it ends, and when receipts are told as settled; `specs/ClientSettings` what clients may do by the options, and
//! `specs/Laws` that it is nothing by default; `specs/KeyFiles` what a file of keys gives.
#![tactic(auto)]

mod end;
mod ending;
mod error_stream;
pub mod laws;
mod running;
mod serving;
mod settling;
mod token;
mod words;

pub use ending::{
    Ending, Stream, fold_ending, help_ending, serve_ending, stdio_ending, stopped_ending,
    usage_ending,
};
pub use running::{run_program, run_program_with, run_with, serve_with};
// What a server needs of the system.
pub use presence_server::ServeRuntime;
// What an ending is of.
pub use channel_session::SessionFault;
pub use presence_stdio::{LocalSession, Outlets, StdioFault, run_stdio, status_of, told_line};
