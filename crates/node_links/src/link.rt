//! A link.
use crate::peer::Peer;

/// A link: the stream of its lines, and the peer that hears and says them at this end.
#[derive(Drop)]
pub struct Link<S> {
    pub stream: S,
    pub peer: Peer,
}
