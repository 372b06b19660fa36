//! Who is let in by the token that a request shows.
ghost use Rattle.serve_handshakes.specs.SigningIn.{Carries, SignsIn};

use crate::answer::Answer;
use crate::front::Keeper;
use crate::head::Request;
use crate::shown::token_of;
use crate::unsigned::{Unsigned, refused_for};
use std::alloc::Global;
use tokens::Signing;

/// Looks at the token that a request shows, where clients sign in. The stream carries it from then on, if it is taken; if it
/// isn't, this is the answer.
pub(crate) fn sign_in<S, K: Keeper<S>>(
    alloc: Global,
    request: &Request<'_>,
    signing: Option<Signing<'_>>,
    keeper: &mut K,
    stream: &mut S,
) -> Result<(), Answer>
    ensures signs { SignsIn signing.entry request.now result }
    ensures carries { Carries signing.entry request.now result (K.shown stream.new) }
{
    let Some(signing) = signing else {
        return Ok(());
    };
    let Ok(shown) = token_of(alloc, request) else {
        return Err(Answer::Full);
    };
    let Some(token) = shown else {
        return Err(Answer::Unauthorized(Unsigned::NoToken));
    };
    match signing.judge(alloc, token.as_slice()) {
        Ok(_granted) => {
            keeper.shows(stream, token);
            Ok(())
        }
        Err(fault) => Err(refused_for(fault)),
    }
}
