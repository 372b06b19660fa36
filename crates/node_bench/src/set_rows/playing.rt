// One call of a row, made and told.
use delta_range::DeltaFault;
use orswot_core::ToldFault;
use std::alloc::{AllocError, AllocFailed, Global};
use std::{fmt, io};
use thiserror::Error;

/// Why a call gave nothing.
#[derive(Clone, Copy, PartialEq, Eq, Debug, Drop, Error)]
pub enum Fault {
    #[error("{0}")]
    Told(ToldFault),
    #[error("{0}")]
    Joined(DeltaFault),
    #[error("no delta")]
    NoDelta,
    #[error("outside the limits")]
    Limits,
    #[error("out of memory")]
    OutOfMemory,
}

impl From<AllocError> for Fault {
    fn from(_e: AllocError) -> Fault {
        Fault::OutOfMemory
    }
}

impl<T: Drop> From<AllocFailed<T>> for Fault {
    fn from(_e: AllocFailed<T>) -> Fault {
        Fault::OutOfMemory
    }
}

impl From<ToldFault> for Fault {
    fn from(fault: ToldFault) -> Fault {
        match fault {
            ToldFault::OutOfMemory => Fault::OutOfMemory,
            other => Fault::Told(other),
        }
    }
}

impl From<DeltaFault> for Fault {
    fn from(fault: DeltaFault) -> Fault {
        match fault {
            DeltaFault::OutOfMemory => Fault::OutOfMemory,
            other => Fault::Joined(other),
        }
    }
}

/// A value that rows are played on.
pub trait Played {
    /// A call, with what it is given.
    type Call;

    /// Makes the call.
    fn make(&mut self, alloc: Global, call: &Self::Call) -> Result<(), Fault>;

    /// What its public calls say of the value.
    fn tell(&self, alloc: Global) -> Result<String, Fault>;
}

fn io_error(fault: Fault) -> io::Error {
    match fault {
        Fault::OutOfMemory => io::Error::from(io::ErrorKind::OutOfMemory),
        _ => io::Error::from(io::ErrorKind::InvalidData),
    }
}

// What the value is. It is asked once more where memory was refused.
fn told<P: Played>(alloc: Global, value: &P) -> io::Result<String> {
    match value.tell(alloc) {
        Err(Fault::OutOfMemory) => value.tell(alloc).map_err(io_error),
        other => other.map_err(io_error),
    }
}

// Tells that a call was refused memory, and whether the value is as it was before.
fn tell_refusal<P: Played, R: Print + AllocGlobal>(
    rt: &R,
    value: &P,
    before: &str,
) -> io::Result<()> {
    let now = told(rt.alloc(), value)?;
    if now.as_str() == before {
        rt.println("  refused, as before")
    } else {
        println!(rt; "  refused, changed: {now}")
    }
}

// Makes the call, once more where it was refused memory, and tells what the value then is.
fn play<P: Played, R: Print + AllocGlobal>(
    rt: &R,
    value: &mut P,
    what: &str,
    call: &P::Call,
) -> io::Result<()> {
    let alloc = rt.alloc();
    let before = told(alloc, value)?;
    let mut answer = value.make(alloc, call);
    if answer == Err(Fault::OutOfMemory) {
        tell_refusal(rt, value, before.as_str())?;
        answer = value.make(alloc, call);
    }
    let now = told(alloc, value)?;
    match answer {
        Ok(()) => println!(rt; "  {what}: {now}"),
        Err(Fault::OutOfMemory) => Err(io_error(Fault::OutOfMemory)),
        Err(fault) => println!(rt; "  {what}: {fault}; {now}"),
    }
}

/// Plays the calls in turn.
pub fn play_all<P: Played, R: Print + AllocGlobal>(
    rt: &R,
    value: &mut P,
    calls: &[(&str, P::Call)],
) -> io::Result<()> {
    for (what, call) in calls {
        play(rt, value, what, call)?;
    }
    Ok(())
}
