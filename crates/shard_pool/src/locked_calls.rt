//! A seated call between lock and unlock.
ghost use Rattle.shard_pool.specs.Lines.{IsOfShard};
ghost use Rattle.shard_pool.specs.Seated.{Called};

use crate::gate::Gate;
use crate::lane::Lane;
use crate::locked::Locked;
use crate::locking::lock_of;
use crate::part::Part;
use crate::reply::{PoolFault, Reply};
use crate::tried::{Tried, lent_tried};
use std::alloc::Global;
use std::sync::{Mutex, Wait};
use tracker_shard::SeatCall;

/// A call behind its shard's lock, with the gate around it: a lent one, which makes room where it lacks some. The room for its
/// receipt is taken before the lock, so that it is held no longer for that.
#[tactic(auto, using(crate::proofs::Calls::called))]
pub fn locked_call<G: Gate, L: Lane, R: Wait, C: SeatCall>(
    rt: &R,
    alloc: Global,
    gate: &G,
    shard: &Mutex<Locked<L>>,
    part: &mut Part<L>,
    call: &C,
) -> Tried<Result<Reply<C::Answer>, PoolFault>>
    ensures { Called (IsOfShard L.node L.begins) (C.there call.now) part.old part.new (C.step call.now)
        (C.gives call.now) result.answer }
{
    gate.before(part.seat(), part.shard());
    // Where there is no memory for it the call finds that once more.
    let _room = part.make_room();
    let mut guard = lock_of(rt, shard);
    gate.inside(part.seat(), part.shard());
    let tried = lent_tried(alloc, &mut *guard, part, call);
    drop(guard);
    gate.after(part.seat(), part.shard());
    tried
}
