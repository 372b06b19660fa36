//! What the parts encode.
ghost use Rattle.std.specs.Prelude.{◌≡◌};
ghost use Rattle.json.specs.Value.{value_view};
ghost use Rattle.tokens.specs.Answers.{Gives};
ghost use Rattle.tokens.specs.Parts.{bytes_in};
ghost use Rattle.tokens.specs.Unique.{fault_in, json_in};

use crate::fault::TokenFault;
use base64::DecodeAllocError;
use base64::engine::general_purpose::URL_SAFE_NO_PAD;
use json::{Error, Scratch, Value};
use std::alloc::Global;

/// The bytes that a part encodes.
pub(crate) fn bytes_of(alloc: Global, part: &[u8]) -> Result<Vec<u8>, TokenFault>
    ensures { Gives (λ v. v.items) result (bytes_in part.now) }
{
    match URL_SAFE_NO_PAD.decode(alloc, part) {
        Ok(bytes) => Ok(bytes),
        Err(DecodeAllocError::OutOfMemory) => Err(TokenFault::OutOfMemory),
        Err(DecodeAllocError::DecodeError(_)) => Err(TokenFault::Malformed),
    }
}

// Why a text that isn't read is no part of a token.
fn fault_of(error: Error) -> TokenFault
    ensures { result ≡ fault_in error }
{
    match error {
        Error::OutOfMemory => TokenFault::OutOfMemory,
        Error::Invalid | Error::DuplicateKey | Error::TooLong => TokenFault::Malformed,
    }
}

// The JSON value that a text is, where no object of it has a member twice.
fn json_of_text<'a>(
    alloc: Global,
    text: &'a str,
    scratch: &'a mut Scratch,
) -> Result<Value<'a>, TokenFault>
    ensures { Gives value_view result (json_in text.now) }
{
    match Value::parse_strict(alloc, text, scratch) {
        Ok(value) => Ok(value),
        Err(error) => Err(fault_of(error)),
    }
}

/// The JSON value that bytes are, where no object of it has a member twice.
pub(crate) fn json_of<'a>(
    alloc: Global,
    bytes: &'a [u8],
    scratch: &'a mut Scratch,
) -> Result<Value<'a>, TokenFault>
    ensures { Gives value_view result (json_in bytes.now) }
{
    match str::from_utf8(bytes) {
        Ok(text) => json_of_text(alloc, text, scratch),
        Err(_) => Err(TokenFault::Malformed),
    }
}
