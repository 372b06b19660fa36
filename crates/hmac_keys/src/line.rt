//! A key from its line.
ghost use Rattle.std.specs.Prelude.{◌≡◌, Ok};
ghost use Rattle.hmac_keys.specs.Lines.{Gives, are_visible as are_visible_in, bytes_in, decoded_in, key_in, plain_in};

use crate::fault::KeyFault;
use base64::DecodeAllocError;
use base64::engine::general_purpose::URL_SAFE_NO_PAD;
use std::alloc::Global;

/// The fewest bytes of a key: as many as SHA-256 has (RFC 7518, section 3.2).
pub const MIN_KEY_BYTES: usize = 32;

// The bytes that a text encodes.
fn decoded(alloc: Global, text: &[u8]) -> Result<Vec<u8>, KeyFault>
    ensures { Gives (λ v. v.items) result (decoded_in text.now) }
{
    match URL_SAFE_NO_PAD.decode(alloc, text) {
        Ok(bytes) => Ok(bytes),
        Err(DecodeAllocError::OutOfMemory) => Err(KeyFault::OutOfMemory),
        Err(DecodeAllocError::DecodeError(_)) => Err(KeyFault::NotBase64),
    }
}

// Whether each byte can be seen.
fn are_visible(text: &[u8]) -> bool
    ensures { result ≡ are_visible_in text.now }
{
    for byte in text {
        if !byte.is_ascii_graphic() {
            return false;
        }
    }
    true
}

// The bytes that a text is.
fn plain(alloc: Global, text: &[u8]) -> Result<Vec<u8>, KeyFault>
    ensures { Gives (λ v. v.items) result (plain_in text.now) }
{
    if !are_visible(text) {
        return Err(KeyFault::NotVisible);
    }
    match text.to_vec(alloc) {
        Ok(bytes) => Ok(bytes),
        Err(_) => Err(KeyFault::OutOfMemory),
    }
}

// The bytes of a line's key, however many.
fn bytes_of(alloc: Global, line: &[u8]) -> Result<Vec<u8>, KeyFault>
    ensures { Gives (λ v. v.items) result (bytes_in line.now) }
{
    match line.strip_prefix(b"base64url:") {
        Some(text) => decoded(alloc, text),
        None => plain(alloc, line),
    }
}

/// The key of a line.
pub(crate) fn key_of(alloc: Global, line: &[u8]) -> Result<Vec<u8>, KeyFault>
    ensures { Gives (λ v. v.items) result (key_in line.now) }
{
    let key = bytes_of(alloc, line)?;
    if key.len() < MIN_KEY_BYTES {
        return Err(KeyFault::TooShort);
    }
    Ok(key)
}
