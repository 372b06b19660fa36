//! Whether a text is JSON, with nothing kept of it.
ghost use Rattle.std.specs.Prelude.{◌≡◌, IfOk, is_some};
ghost use Rattle.serde_json.specs.Read.{read};
ghost use Rattle.json_parts.specs.Places.{are_in_range};

use crate::numbers::number_of;
use json::{Reader, Scratch, Token};
use std::alloc::AllocError;

/// How deep arrays and objects may nest.
pub const MAX_DEPTH: usize = 127;

// Whether each number that is still to come is in range.
fn are_numbers_in_range(reader: &mut Reader<'_>) -> bool
    ensures { result ≡ are_in_range reader.old }
{
    while let Some(token) = reader.next() {
        if let Token::Number(text) = token {
            if number_of(text).is_none() {
                return false;
            }
        }
    }
    true
}

/// Whether the text is one JSON value, as serde_json reads it.
pub fn is_json(text: &str, scratch: &mut Scratch) -> Result<bool, AllocError>
    ensures { IfOk result (λ b. b ≡ is_some (read text.now)) }
{
    let mut reader = Reader::new(text, scratch)?;
    if reader.skip_value(MAX_DEPTH).is_err() || reader.next().is_some() {
        return Ok(false);
    }
    let mut reader = Reader::new(text, scratch)?;
    Ok(are_numbers_in_range(&mut reader))
}
