//! HMAC-SHA-256 (RFC 2104 with the SHA-256 of RFC 6234), a comparison of codes that looks at all of their bytes, and the
//! keys that a file has: one a line.
//!
//! What its contracts cite: `specs/Hmac` is the definition of the code, over the kit's definition of SHA-256; `specs/Lines`
//! says what a line of a file of keys is, what a file is, and the first thing that is wrong with one; `specs/Keys` has the
//! bytes of keys, and the file's text.
#![tactic(auto)]

mod fault;
#[cfg(test)]
mod hmac_tests;
#[cfg(test)]
mod key_tests;
mod keyed;
mod keys;
mod line;
mod same;

pub use fault::{KeyFault, KeysFault};
pub use keyed::{Hmac, hmac_sha256};
pub use keys::Keys;
pub use line::MIN_KEY_BYTES;
pub use same::are_same;
