//! Why a token is not taken.
use thiserror::Error;

/// Why a token is not taken.
#[derive(Clone, Copy, Debug, PartialEq, Eq, Error)]
pub enum TokenFault {
    /// It isn't three parts in base64url with dots between them, of which the first two are JSON with no member twice.
    #[error("this is no token")]
    Malformed,
    /// Its head doesn't name HMAC with SHA-256, or asks for more than that.
    #[error("the token is not signed by HS256 alone")]
    OtherAlgorithm,
    /// Its signature is that of none of the keys.
    #[error("the token is signed by none of this server's keys")]
    BadSignature,
    /// It has no `exp`, or a claim is not of its kind.
    #[error("the token's claims are not what they may be")]
    BadClaims,
    #[error("the token is not valid yet")]
    TooEarly,
    #[error("the token has expired")]
    Expired,
    #[error("out of memory")]
    OutOfMemory,
}
