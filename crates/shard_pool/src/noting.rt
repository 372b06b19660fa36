// Whether a step was made, and how it is counted.
ghost use Rattle.std.specs.Prelude.{◌≡◌};
ghost use Rattle.shard_pool.specs.Lent.{is_step, counted};

use crate::lane::Lane;
use std::sync::ledger::{Book, Share};
use tracker_shard::ShardFault;

// Whether the answer stands for a step that was made.
pub(crate) fn is_made<T: Drop>(answer: &Result<T, ShardFault>) -> bool
    ensures { result ≡ is_step answer.now }
{
    match answer {
        Ok(_) | Err(ShardFault::AlreadyTracked | ShardFault::NoPresence) => true,
        Err(_) => false,
    }
}

// One call more in the book and in the share, where a step was made.
pub(crate) fn count_call<L: Lane>(calls: &mut Book<L>, share: &mut Share<L>, made: bool)
    requires { share.old.parts ≡ 1 }
    ensures total { calls.new.total ≡ counted calls.old.total made }
    ensures amount { share.new.amount ≡ counted share.old.amount made }
    ensures parts { share.new.parts ≡ share.old.parts }
{
    if made {
        calls.add(share, 1);
    }
}
