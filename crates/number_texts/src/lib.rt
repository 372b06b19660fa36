//! Numbers that a message may not have, as marked texts: a fraction, an exponent, and a whole number beyond 64 bits.
//!
//! What a client sends is marked: each such number becomes a text of its digits behind the mark `\u0000`, and a text that
//! begins with the mark gets one more. What is sent to a client is unmarked. So a message keeps each number as it was
//! written, byte for byte, and all between sees texts. Names of an object's members are no numbers in JSON: a number that
//! stands as one is left as it is, and a name that is sent stays a text.
//!
//! What its contracts cite: `specs/Pieces` the pieces of a text, `specs/Numbers` which numbers are marked, and
//! `specs/Marks` a text once it is marked or unmarked; `specs/Allowed` what becomes of texts by which numbers are allowed;
//! `specs/Laws` the laws, and `specs/Written` JSON as it is written. `specs/Changes` is of pieces in code.
#![tactic(auto)]

mod allowed;
pub mod laws;
mod marks;
mod numbers;
mod pieces;

pub use allowed::Numbers;
pub use marks::{marked, unmarked};
pub use numbers::is_marked_number;
