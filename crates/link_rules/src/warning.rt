//! What is odd about a link, and its lines.
use node_links::Untold;

/// What is odd about a link that goes on.
#[derive(Clone, Copy, PartialEq, Eq, Debug)]
pub enum LinkWarning {
    /// The other node stays without what it wants of a shard, since no line holds it.
    Untold(Untold),
    /// The other node dials this one, which dials none of its name.
    NotDialled,
    /// The other node, which this one dials, doesn't dial this one.
    NotDialling,
    /// Another node of the same name speaks over a link of its own.
    TwoNodes,
    /// The other node counts below what is known of it.
    CountsBelow,
    /// The other node tells of counts of this one's own incarnation that it never made.
    OwnCounts,
}
