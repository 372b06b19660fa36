//! Texts of a length or depth that is wanted.

use std::alloc::{AllocError, Global};

// So many letters.
pub fn letters(alloc: Global, count: usize) -> Result<String, AllocError> {
    "a".repeat(alloc, count)
}

// So many arrays, one in the other.
pub fn nested(alloc: Global, arrays: usize) -> Result<String, AllocError> {
    let opened = "[".repeat(alloc, arrays)?;
    let closed = "]".repeat(alloc, arrays)?;
    format!(in alloc; "{opened}{closed}")
}
