//! What a line may ask for.
use link_lines::Line;
use orswot_core::{Form, Told};
use presence_base::Replica;

/// What a line asks of a node's shards, and of the link.
#[derive(Drop)]
pub enum LinkAction {
    /// Where the replica is gone on that shard, it is told so, and the actions that follow are dropped.
    UnlessGone {
        shard: u32,
        replica: Replica,
    },
    /// The replica was heard on that shard, at a time in milliseconds.
    Heard {
        shard: u32,
        replica: Replica,
        now: u64,
    },
    /// That shard takes in what is told.
    Merge {
        shard: u32,
        told: Told,
    },
    /// The replica is down for good, on every shard.
    PermDown {
        replica: Replica,
    },
    /// The shard's top of the replica is answered where it is below this count, else that all is there.
    AnswerTop {
        shard: u32,
        replica: Replica,
        count: u64,
    },
    /// What that shard tells is answered, in the link's form: what it counted itself above `from`, or all of it. In
    /// `Form::Two` it is to have no dots beside its ranges, since a line has no place for them.
    AnswerTold {
        shard: u32,
        from: Option<u64>,
        form: Form,
    },
    /// This line is answered.
    Answer(Line),
    /// This node's own incarnation is gone at the other end.
    GivenUp,
}
