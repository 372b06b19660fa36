//! Why a client isn't signed in.
ghost use Rattle.std.specs.Prelude.{◌≡◌};
ghost use Rattle.serve_handshakes.specs.SigningIn.{refused_for};

use crate::answer::Answer;
use tokens::TokenFault;

/// Why a client isn't signed in that shows a token, or none.
#[derive(Clone, Copy, PartialEq, Eq, Debug)]
pub enum Unsigned {
    NoToken,
    Malformed,
    OtherAlgorithm,
    BadSignature,
    BadClaims,
    TooEarly,
    Expired,
}

/// What a client gets whose token isn't taken for this. Want of memory is none of its own.
pub(crate) fn refused_for(fault: TokenFault) -> Answer
    ensures { result ≡ refused_for fault }
{
    match fault {
        TokenFault::Malformed => Answer::Unauthorized(Unsigned::Malformed),
        TokenFault::OtherAlgorithm => Answer::Unauthorized(Unsigned::OtherAlgorithm),
        TokenFault::BadSignature => Answer::Unauthorized(Unsigned::BadSignature),
        TokenFault::BadClaims => Answer::Unauthorized(Unsigned::BadClaims),
        TokenFault::TooEarly => Answer::Unauthorized(Unsigned::TooEarly),
        TokenFault::Expired => Answer::Unauthorized(Unsigned::Expired),
        TokenFault::OutOfMemory => Answer::Full,
    }
}
