//! What requests are answered from.
use crate::answer::Answer;
use crate::greeting::GivenUp;
use crate::seating::Admission;
use std::alloc::{AllocError, Global};
use std::net::IpAddr;
use tokens::Signing;

/// How the program is.
#[derive(Clone, Copy, PartialEq, Eq, Debug)]
pub enum Wellness {
    Well,
    /// Calls fail.
    Unwell,
    /// It lets its clients go.
    Draining,
}

/// What is told of the program, and what it is told of its clients.
pub trait Tells {
    /// What it has counted.
    fn metrics(&self, alloc: Global) -> Result<String, AllocError>;

    /// How it is.
    fn wellness(&self) -> Wellness;

    /// A request of the client at this address got this answer.
    fn answered(&self, answer: Answer, address: &IpAddr);

    /// The client at this address got none.
    fn gave_up(&self, cause: GivenUp, address: &IpAddr);
}

/// Who knows the clients of each address, and their streams.
pub trait Keeper<S> {
    ghost use Rattle.std.specs.Prelude.{◌≡◌, ℕ, List, Option, Some};

    /// The token that a stream carries.
    ghost shown: { S → Option (List ℕ) };

    /// How the client at this address stands whom a proxy brings on this stream.
    fn standing_of(&mut self, alloc: Global, stream: &mut S, address: IpAddr) -> Admission;

    /// Ends the server's side of a stream, behind all that was sent.
    fn hang_up(&mut self, stream: &mut S);

    /// A stream carries the token that its client has shown.
    fn shows(&mut self, stream: &mut S, token: Vec<u8>)
        ensures { shown stream.new ≡ Some token.items };
}

/// What requests are answered from.
#[derive(Drop)]
pub struct Front<'a, T, K> {
    /// Pages of these origins may open a WebSocket, or those of any where none is named.
    pub origins: &'a [String],
    /// Whether it is the port of clients.
    pub has_clients: bool,
    /// Whether what was counted is told there.
    pub has_metrics: bool,
    /// What these tell of their clients' addresses is believed.
    pub proxies: &'a [IpAddr],
    /// How many further clients may be told that a WebSocket follows.
    pub places: u64,
    pub tells: &'a T,
    pub keeper: &'a mut K,
    /// How clients sign in, where they have to.
    pub signing: Option<Signing<'a>>,
}
