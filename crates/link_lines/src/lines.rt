//! The lines, and their limits.
use crate::hearer::Telling;
use presence_base::Replica;

/// The longest line without its line feed, in bytes.
pub const MAX_LINE_BYTES: usize = 4_194_304;

/// One line of a link.
///
/// A replica names a node in one of its lives, a shard is told by its number, and what is told of a
/// shard's rows has been checked.
#[derive(Drop)]
pub enum Line {
    /// Who speaks, over how many shards its rows lie, and up to which version it speaks; where that isn't told, the first.
    Hello {
        replica: Replica,
        shards: u32,
        version: Option<u64>,
    },
    /// The replica is alive, and has used so many counts of the shard. What is new may come along.
    Beat {
        shard: u32,
        replica: Replica,
        count: u64,
        delta: Option<Telling>,
    },
    /// Up to which count the hearer covers the replica's dots, when that isn't all.
    Want {
        shard: u32,
        replica: Replica,
        top: u64,
    },
    /// What is told of a shard.
    Told {
        shard: u32,
        told: Telling,
    },
    /// The replica has ended.
    PermDown {
        replica: Replica,
    },
    /// The replica is gone at the hearer, and never comes back there.
    Gone {
        replica: Replica,
    },
    /// Heard.
    Ok,
}
