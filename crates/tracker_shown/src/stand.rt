//! Where a row is kept.
use presence_base::{Dot, Key, Topic};

/// A value in an order with two ends: before all values, at one, or after all.
#[derive(PartialEq, Eq, PartialOrd, Ord, Drop)]
pub(crate) enum Mark<T> {
    First,
    At(T),
    Last,
}

/// For whom a row is kept: for all that see its topic, or for the session that owns it.
#[derive(Clone, Copy, PartialEq, Eq, PartialOrd, Ord)]
pub(crate) enum Holder {
    Room,
    Session(u64),
}

/// Where a row is kept: for whom, on which topic, at which key and dot.
#[derive(PartialEq, Eq, PartialOrd, Ord, Drop)]
pub(crate) struct Stand {
    pub holder: Holder,
    pub topic: Topic,
    pub key: Mark<Key>,
    pub dot: Mark<Dot>,
}

/// The two ends of a part of what is kept. No row stands at an end.
#[derive(Drop)]
pub(crate) struct Ends {
    pub first: Stand,
    pub last: Stand,
}
