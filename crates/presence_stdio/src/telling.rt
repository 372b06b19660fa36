//! Numbers and statuses.
ghost use Rattle.std.specs.Prelude.{◌≡◌, IfOk, option_map, string_bytes, codes};
ghost use Rattle.presence_stdio.specs.RefusalTold.{told_line as told_line_of};
ghost use Rattle.presence_stdio.specs.Told.{session_number, told_of, status_number};

use crate::fault::StdioFault;
use crate::refusal_line::{number_of, refusal_line};
use channel_session::SessionFault;
use std::alloc::{AllocError, Global};

// The number of a session's fault, as it is told.
fn session_number_of(fault: SessionFault) -> u8
    ensures { result ≡ session_number fault }
{
    match fault {
        SessionFault::BadMessage(_) => 1,
        SessionFault::OutOfMemory => 2,
        SessionFault::ShardFull => 3,
        SessionFault::Failed => 4,
    }
}

// What is told of a line at which the session stopped.
fn stop_line(alloc: Global, n: u64, stop: SessionFault) -> Result<String, AllocError>
    ensures { IfOk result (λ s. string_bytes s ≡ told_line_of n (codes "C") (session_number stop)) }
{
    let number = session_number_of(stop);
    format!(in alloc; "line {n}: C{number}")
}

/// What is told of a line that ended the run: its number and that of its fault.
pub fn told_line(alloc: Global, fault: &StdioFault) -> Result<Option<String>, AllocError>
    ensures { IfOk result (λ o. option_map string_bytes o ≡ told_of fault.now) }
{
    match fault {
        StdioFault::Line(n, refusal) => Ok(Some(refusal_line(alloc, *n, number_of(*refusal))?)),
        StdioFault::Session(n, stop) => Ok(Some(stop_line(alloc, *n, *stop)?)),
        StdioFault::Read(_) | StdioFault::Write | StdioFault::Memory => Ok(None),
    }
}

/// A fault in words, without the number of its line.
pub fn told_words(alloc: Global, fault: &StdioFault) -> Result<String, AllocError> {
    match fault {
        StdioFault::Line(_, refusal) => refusal.to_string(alloc),
        StdioFault::Session(_, stop) => stop.to_string(alloc),
        StdioFault::Read(_) | StdioFault::Write | StdioFault::Memory => fault.to_string(alloc),
    }
}

/// The status that a fault ends the program with.
pub fn status_of(fault: &StdioFault) -> u8
    ensures { result ≡ status_number fault.now }
{
    match fault {
        StdioFault::Memory => 2,
        StdioFault::Line(_, _)
        | StdioFault::Session(_, _)
        | StdioFault::Read(_)
        | StdioFault::Write => 1,
    }
}
