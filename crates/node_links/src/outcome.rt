//! What an exchange came to.
/// How much a told value has that fits no line.
#[derive(Clone, Copy, PartialEq, Eq, Debug)]
pub struct UntoldSize {
    pub rows: usize,
    /// The extras, or in the second form the ranges.
    pub beside: usize,
}

/// What was wanted of a shard and fits no line: all that is known of it.
#[derive(Clone, Copy, PartialEq, Eq, Debug)]
pub struct Untold {
    pub shard: u32,
    /// Where its bytes are too many. Where its rows, with its extras or ranges, are, no value is made of them.
    pub size: Option<UntoldSize>,
}

/// What an exchange at the end that dialled comes to.
#[derive(Clone, Copy, PartialEq, Eq, Debug)]
pub enum Exchanged {
    Done,
    /// This node's own incarnation is gone at the other end.
    GivenUp,
    /// The other end stays without what it wanted.
    Untold(Untold),
}
