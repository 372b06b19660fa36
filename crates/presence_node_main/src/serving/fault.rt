//! Why a server that has its port can't begin.
use node_threads::CrewFault;
use std::alloc::AllocError;
use std::io;
use std::io::ErrorKind;

/// Why a server that has its port can't begin.
#[derive(Clone, Copy, PartialEq, Eq, Debug)]
pub(crate) enum BeginFault {
    /// The system gives no thread, or nothing to wait on.
    NoThread,
    Memory,
}

impl From<io::Error> for BeginFault {
    fn from(error: io::Error) -> BeginFault {
        match error.kind() {
            ErrorKind::OutOfMemory => BeginFault::Memory,
            _ => BeginFault::NoThread,
        }
    }
}

impl From<AllocError> for BeginFault {
    fn from(_error: AllocError) -> BeginFault {
        BeginFault::Memory
    }
}

impl From<CrewFault> for BeginFault {
    fn from(fault: CrewFault) -> BeginFault {
        match fault {
            CrewFault::NoThread => BeginFault::NoThread,
            CrewFault::Memory => BeginFault::Memory,
        }
    }
}
