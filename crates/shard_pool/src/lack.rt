// What a call lacked that a checkpoint may give.
ghost use Rattle.std.specs.Prelude.{◌≡◌, true, false};
ghost use Rattle.shard_pool.specs.Lent.{is_lack, lacks_room};

use tracker_shard::ShardFault;

/// What a call lacked that a checkpoint may give.
#[derive(Clone, Copy, PartialEq, Eq, Debug)]
pub(crate) enum Lack {
    Nothing,
    /// The journal was full.
    Room,
    Memory,
}

// What the call lacked.
pub(crate) fn lack_of<A: Drop>(answer: &Result<A, ShardFault>) -> Lack
    ensures { is_lack result ≡ lacks_room answer.now }
{
    match answer {
        Err(ShardFault::JournalFull) => Lack::Room,
        Err(ShardFault::OutOfMemory) => Lack::Memory,
        _ => Lack::Nothing,
    }
}
