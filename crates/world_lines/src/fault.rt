//! Why a line does nothing.
use std::alloc::AllocError;
use thiserror::Error;

/// Why a line does nothing.
#[derive(Clone, Copy, PartialEq, Eq, Debug, Error)]
pub enum LineFault {
    #[error("the line is none that is allowed here")]
    Unknown,
    #[error("out of memory")]
    OutOfMemory,
}

impl From<AllocError> for LineFault {
    fn from(_e: AllocError) -> LineFault {
        LineFault::OutOfMemory
    }
}
