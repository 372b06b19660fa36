//! What is granted to a client that shows a further token.
ghost use Rattle.std.specs.Prelude.{◌≡◌, option_map};
ghost use Rattle.std.specs.List.{list_all};
ghost use Rattle.serde_json.specs.View.{view};
ghost use Rattle.channel_session.specs.Ending.{topics_named};
ghost use Rattle.tokens.specs.Granting.{is_of_topics};
ghost use Rattle.tokens.specs.Held.{granted};
ghost use Rattle.serve_connections.specs.Renewing.{GivesRenewal, follows as follows_in, is_renewal as is_renewal_in, token_shown as token_shown_in};

use crate::cause::Cause;
use channel_rules::is_phoenix;
use channel_session::Session;
use phx_message::Message;
use serde_json::Value;
use std::alloc::Global;
use tokens::{Grant, Signing, TokenFault};

/// Why nothing is granted to a client that shows a further token.
#[derive(Clone, Copy, PartialEq, Eq, Debug)]
pub(crate) enum Unrenewed {
    /// Its payload shows none.
    BadPayload,
    /// The token isn't taken, is another subject's, or lacks a topic of the session.
    Unauthorized,
    OutOfMemory,
}

/// Whether the message shows a further token.
pub(crate) fn is_renewal(message: &Message) -> bool
    ensures { result ≡ is_renewal_in message.now }
{
    is_phoenix(&message.topic) && message.event.as_str() == "access_token"
}

// The token that a payload shows.
fn token_shown(payload: &Value) -> Option<&str>
    ensures { option_map (λ t. t.now) result ≡ token_shown_in (view payload.now) }
{
    match payload.get("access_token") {
        Some(Value::String(token)) => Some(token.as_str()),
        _ => None,
    }
}

// Whether each topic that the session names is granted.
fn has_all(grant: &Grant, session: &Session) -> bool
    ensures { result ≡ list_all (is_of_topics (granted grant.now).topics) (topics_named session.now) }
{
    session.joined().all(|topic| grant.has_topic(topic))
}

// Whether this may be granted next.
fn follows(held: &Result<Grant, Cause>, session: &Session, next: &Grant) -> bool
    ensures { result ≡ follows_in held.now (topics_named session.now) (granted next.now) }
{
    match held {
        Ok(held) => held.has_subject_of(next) && has_all(next, session),
        Err(_) => false,
    }
}

/// What is granted next to a client to whom this is granted, by a payload that shows a token.
pub(crate) fn renewal_of(
    alloc: Global,
    signing: Signing<'_>,
    held: &Result<Grant, Cause>,
    session: &Session,
    payload: &Value,
) -> Result<Grant, Unrenewed>
    ensures { GivesRenewal signing.entry held.now (topics_named session.now)
        (token_shown_in (view payload.now)) result }
{
    let Some(token) = token_shown(payload) else {
        return Err(Unrenewed::BadPayload);
    };
    match Grant::take(alloc, signing, token.as_bytes()) {
        Ok(next) => {
            if follows(held, session, &next) {
                Ok(next)
            } else {
                Err(Unrenewed::Unauthorized)
            }
        }
        Err(TokenFault::OutOfMemory) => Err(Unrenewed::OutOfMemory),
        Err(_) => Err(Unrenewed::Unauthorized),
    }
}
