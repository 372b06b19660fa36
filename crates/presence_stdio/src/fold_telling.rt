//! Numbers and statuses.
ghost use Rattle.std.specs.Prelude.{◌≡◌, IfOk, option_map, string_bytes, codes};
ghost use Rattle.presence_stdio.specs.RefusalTold.{told_line};
ghost use Rattle.presence_stdio.specs.FoldTold.{frame_number, told_of_fold, fold_status_number};

use crate::fold_fault::FoldFault;
use crate::refusal_line::{number_of, refusal_line};
use presence_metas::FrameFault;
use std::alloc::{AllocError, Global};

// The number of a frame's refusal, as it is told.
fn frame_number_of(fault: FrameFault) -> u8
    ensures { result ≡ frame_number fault }
{
    match fault {
        FrameFault::NotPresence => 1,
        FrameFault::BadShape => 2,
        FrameFault::NoRef => 3,
        FrameFault::OutOfMemory => 4,
    }
}

// A frame's refusal as it is told.
fn frame_line(alloc: Global, n: u64, number: u8) -> Result<String, AllocError>
    ensures { IfOk result (λ s. string_bytes s ≡ told_line n (codes "F") number) }
{
    format!(in alloc; "line {n}: F{number}")
}

/// What is told of a refused line: its number and that of its refusal.
pub fn fold_told_line(alloc: Global, fault: &FoldFault) -> Result<Option<String>, AllocError>
    ensures { IfOk result (λ o. option_map string_bytes o ≡ told_of_fold fault.now) }
{
    match fault {
        FoldFault::Line(n, refusal) => Ok(Some(refusal_line(alloc, *n, number_of(*refusal))?)),
        FoldFault::Frame(n, refusal) => Ok(Some(frame_line(alloc, *n, frame_number_of(*refusal))?)),
        FoldFault::Read(_) | FoldFault::Write | FoldFault::Memory => Ok(None),
    }
}

/// A fault in words, without the number of its line.
pub fn fold_words(alloc: Global, fault: &FoldFault) -> Result<String, AllocError> {
    match fault {
        FoldFault::Line(_, refusal) => refusal.to_string(alloc),
        FoldFault::Frame(_, refusal) => refusal.to_string(alloc),
        FoldFault::Read(_) | FoldFault::Write | FoldFault::Memory => fault.to_string(alloc),
    }
}

/// The status that a fault ends the program with.
pub fn fold_status_of(fault: &FoldFault) -> u8
    ensures { result ≡ fold_status_number fault.now }
{
    match fault {
        FoldFault::Memory => 2,
        FoldFault::Line(_, _) | FoldFault::Frame(_, _) | FoldFault::Read(_) | FoldFault::Write => 1,
    }
}
