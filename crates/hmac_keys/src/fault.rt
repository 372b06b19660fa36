//! Why a file is no file of keys.
use thiserror::Error;

/// Why a line is no key.
#[derive(Clone, Copy, Debug, PartialEq, Eq, Error)]
pub enum KeyFault {
    #[error("behind `base64url:` there may only be base64url without padding")]
    NotBase64,
    #[error("a key without `base64url:` may have no spaces, and no bytes that aren't visible ASCII")]
    NotVisible,
    #[error("a key has 32 bytes at least")]
    TooShort,
    #[error("out of memory")]
    OutOfMemory,
}

/// Why a text is no file of keys.
#[derive(Clone, Copy, Debug, PartialEq, Eq, Error)]
pub enum KeysFault {
    /// Line 1 is the first.
    #[error("line {line}: {fault}")]
    Line { line: usize, fault: KeyFault },
    #[error("there is no key in it")]
    NoKey,
    #[error("out of memory")]
    OutOfMemory,
}
