//! What is logged of who comes to the door.
use node_log::Reason;
use serve_handshakes::{Answer, GivenUp};
use serve_metrics::Dropped;

/// What is logged of a client that gets this answer: why it is refused, or that its WebSocket is open.
pub(crate) fn told_of(answer: Answer) -> Option<Reason> {
    match answer {
        Answer::Socket(_) => Some(Reason::Opened),
        Answer::Page | Answer::Script | Answer::Health | Answer::Metrics => None,
        Answer::Options | Answer::Unwell | Answer::Draining => None,
        Answer::BadRequest | Answer::NoHost => Some(Reason::BadRequest),
        Answer::Forbidden => Some(Reason::Forbidden),
        Answer::NotFound | Answer::Elsewhere => Some(Reason::NotFound),
        Answer::NotAllowed => Some(Reason::NotAllowed),
        Answer::LongHead => Some(Reason::LongHead),
        Answer::LongBody => Some(Reason::LongBody),
        Answer::Full => Some(Reason::Full),
        Answer::Crowded => Some(Reason::Crowded),
        Answer::Hasty => Some(Reason::Hasty),
        Answer::Unauthorized(_) => Some(Reason::Unauthorized),
    }
}

/// Why a client has gone that was given up for this, if it wasn't answered.
pub(crate) fn given_up_by(cause: GivenUp) -> Option<Reason> {
    match cause {
        GivenUp::Answered => None,
        GivenUp::Failed => Some(Reason::Gone),
        GivenUp::Silent => Some(Reason::Late),
        GivenUp::Junk => Some(Reason::NoHttp),
    }
}

/// Why a connection is dropped.
pub(crate) fn dropped_by(why: Dropped) -> Reason {
    match why {
        Dropped::Handshakes => Reason::Handshakes,
        Dropped::Watch => Reason::Unwatched,
        Dropped::Queue => Reason::Queue,
    }
}
