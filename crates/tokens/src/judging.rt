//! Whether a token is taken.
ghost use Rattle.std.specs.Prelude.{◌≡◌, map, IfOk};
ghost use Rattle.hmac_keys.specs.Hmac.{hmac_sha256 as code_in};
ghost use Rattle.tokens.specs.Answers.{Gives};
ghost use Rattle.tokens.specs.Certified.{IsCertified};
ghost use Rattle.tokens.specs.Judging.{in_time as time_of, is_signed as signed_by, judged, judged_claims, judged_head};
ghost use Rattle.tokens.specs.Parts.{signed_text};
ghost use Rattle.tokens.specs.Views.{granted_by};

use crate::claims::{Claims, claims_of, is_hs256};
use crate::fault::TokenFault;
use crate::parts::parts_of;
use crate::reading::{bytes_of, json_of};
use hmac_keys::{Hmac, are_same};
use json::Scratch;
use std::alloc::Global;

/// The code of a head and claims under a key.
pub(crate) fn code_of(key: &[u8], head: &[u8], claims: &[u8]) -> [u8; 32]
    ensures { result ≡ code_in key.now (signed_text head.now claims.now) }
{
    let mut code = Hmac::new(key);
    code.update(head);
    code.update(b".");
    code.update(claims);
    code.finalize()
}

// Whether one of the keys signs a head and claims so.
fn is_signed(keys: &[Vec<u8>], head: &[u8], claims: &[u8], signature: &[u8]) -> bool
    ensures { result ≡ signed_by (map (λ k. k.items) keys.now) head.now claims.now signature.now }
{
    for key in keys {
        if are_same(&code_of(key.as_slice(), head, claims), signature) {
            return true;
        }
    }
    false
}

// Looks at the head: what it must name, and no more.
fn judge_head(alloc: Global, part: &[u8]) -> Result<(), TokenFault>
    ensures { Gives (λ _. tt) result (judged_head part.now) }
{
    let bytes = bytes_of(alloc, part)?;
    let mut scratch = Scratch::new(alloc);
    let head = json_of(alloc, bytes.as_slice(), &mut scratch)?;
    if is_hs256(&head) {
        Ok(())
    } else {
        Err(TokenFault::OtherAlgorithm)
    }
}

// The claims, if it is the time for them.
fn in_time(claims: Claims, now: u64) -> Result<Claims, TokenFault>
    ensures { Gives granted_by result (time_of now (granted_by claims)) }
{
    if now < claims.begins {
        return Err(TokenFault::TooEarly);
    }
    if claims.ends <= now {
        return Err(TokenFault::Expired);
    }
    Ok(claims)
}

// What is claimed in a part, if it is the time for it.
fn judge_claims(alloc: Global, part: &[u8], now: u64) -> Result<Claims, TokenFault>
    ensures { Gives granted_by result (judged_claims now part.now) }
{
    let bytes = bytes_of(alloc, part)?;
    let mut scratch = Scratch::new(alloc);
    let value = json_of(alloc, bytes.as_slice(), &mut scratch)?;
    let claims = claims_of(alloc, &value)?;
    in_time(claims, now)
}

// What a token grants at this second, under these keys, or the first thing that is wrong with it.
#[tactic(auto, unfolding(crate::specs::Judging::judged))]
fn judge(alloc: Global, keys: &[Vec<u8>], now: u64, token: &[u8]) -> Result<Claims, TokenFault>
    ensures { Gives granted_by result (judged (map (λ k. k.items) keys.now) now token.now) }
{
    let Some(parts) = parts_of(token) else {
        return Err(TokenFault::Malformed);
    };
    judge_head(alloc, parts.head)?;
    let signature = bytes_of(alloc, parts.signature)?;
    if !is_signed(keys, parts.head, parts.claims, signature.as_slice()) {
        return Err(TokenFault::BadSignature);
    }
    judge_claims(alloc, parts.claims, now)
}

/// What a token grants at this second, under these keys, or the first thing that is wrong with it. Want of memory is answered
/// in place of any other answer.
pub fn verify(alloc: Global, keys: &[Vec<u8>], now: u64, token: &[u8]) -> Result<Claims, TokenFault>
    ensures exact { Gives granted_by result (judged (map (λ k. k.items) keys.now) now token.now) }
    ensures certified { IfOk result (λ c. IsCertified (map (λ k. k.items) keys.now) now token.now (granted_by c)) }
{
    judge(alloc, keys, now, token)
}
