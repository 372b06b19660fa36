//! A long state, told in pieces: when it is, and a port round a session's own over which a client is told it so,
//! one piece for each take.
//!
//! `specs/Pieces` says which items tell a state, `specs/Laws` that they are folded to the very same table, and
//! `specs/Piecewise` what the port answers. That a client makes the same of it as of what the port inside gives is
//! a law (`pieces` of session_laws).
#![tactic(auto)]

pub mod laws;
mod piece;
mod port;
mod telling;

pub use port::PiecewisePort;
pub use telling::Telling;
