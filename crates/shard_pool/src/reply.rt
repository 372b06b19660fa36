//! Replies.
ghost use Rattle.std.specs.Prelude.{◌≡◌};
ghost use Rattle.shard_pool.specs.Lent.{reply_of};

use tracker_shard::ShardFault;

/// The answer of a seated call, with the shard and the number of its entry.
#[derive(Debug, Drop)]
pub struct Reply<T> {
    pub shard: u32,
    pub number: u64,
    pub value: T,
}

/// Why a seated call was refused: as the shard refuses, or for want of memory for the receipt.
pub type PoolFault = ShardFault;

// The answer with the shard and the number of its entry.
pub(crate) fn reply_to<T: Drop>(
    shard: u32,
    number: u64,
    answer: Result<T, ShardFault>,
) -> Result<Reply<T>, PoolFault>
    ensures { result ≡ reply_of shard number answer }
{
    match answer {
        Ok(value) => Ok(Reply {
            shard,
            number,
            value,
        }),
        Err(fault) => Err(fault),
    }
}
