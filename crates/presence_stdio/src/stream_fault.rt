//! Faults of streams.
use thiserror::Error;

/// Why a stream went no further.
#[derive(Clone, Copy, PartialEq, Eq, Debug, Error)]
pub enum StreamFault {
    #[error("the input could not be read")]
    Read,
    #[error("the output could not be written")]
    Write,
    #[error("out of memory")]
    Memory,
}

/// Why an input was not read to its end.
#[derive(Clone, Copy, PartialEq, Eq, Debug, Error)]
pub enum ReadFault {
    #[error("the input could not be read")]
    Failed,
    #[error("the input has more than 1048576 lines")]
    TooManyLines,
}
