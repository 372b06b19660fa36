// The calls without a seat, each behind the lock of one shard. The journal is read to show that it is legal
// and of the node.
ghost use Rattle.std.specs.Prelude.{◌≡◌};
ghost use Rattle.presence_journal.specs.History.{start_of};
ghost use Rattle.shard_pool.specs.Hands.{without_receipts};
ghost use Rattle.shard_pool.specs.Lines.{IsOfShard};
ghost use Rattle.shard_pool.specs.Unseated.{IsBehindOf, IsCheckpointed, IsDone, IsMadeWhereQuiet};

use crate::due::{DueFrom, is_due};
use crate::lane::Lane;
use crate::locked::Locked;
use crate::locking::lock_of;
use crate::part::Part;
use crate::reply::PoolFault;
use crate::tried::{Tried, make_tried};
use std::alloc::Global;
use std::sync::{Mutex, Wait};
use tracker_shard::{Ask, Call, StartNumber};

/// A call without a seat, which makes room where it lacks some.
#[tactic(auto, using(crate::proofs::Calls::unseated))]
pub fn locked_make<L: Lane, R: Wait, C: Call>(
    rt: &R,
    alloc: Global,
    shard: &Mutex<Locked<L>>,
    call: &C,
) -> Tried<Result<C::Answer, PoolFault>>
    ensures { IsBehindOf (IsOfShard L.node L.begins)
        (λ h. IsDone (C.there call.now) (C.gives call.now) h (C.step call.now) result.answer) }
{
    let mut guard = lock_of(rt, shard);
    make_tried(alloc, &mut *guard, call)
}

/// What is asked without a step.
#[tactic(auto, using(crate::proofs::Calls::unseated))]
pub fn locked_ask<L: Lane, R: Wait, A: Ask>(rt: &R, shard: &Mutex<Locked<L>>, ask: &A) -> A::Answer
    ensures { IsBehindOf (IsOfShard L.node L.begins) (λ h. A.tells ask.now h result) }
{
    let mut guard = lock_of(rt, shard);
    let _journal = guard.journal();
    guard.ask(ask)
}

/// Puts a Start that stands for the journal in its place.
#[tactic(auto, using(crate::proofs::Calls::unseated))]
pub fn locked_checkpoint<L: Lane, R: Wait>(
    rt: &R,
    alloc: Global,
    shard: &Mutex<Locked<L>>,
) -> Result<(), PoolFault>
    ensures { IsBehindOf (IsOfShard L.node L.begins) (λ h. IsCheckpointed h result) }
{
    let mut guard = lock_of(rt, shard);
    let _journal = guard.journal();
    guard.checkpoint(alloc)
}

/// Puts a Start that stands for the journal in its place where the journal is due once the lock is had, and no item waits
/// for a subscriber that isn't behind. What waits for each subscriber is then as it was. `Ok(false)` means that it isn't so,
/// and that nothing changed.
#[tactic(auto, using(crate::proofs::Calls::where_quiet))]
pub fn locked_checkpoint_where_quiet<L: Lane, R: Wait>(
    rt: &R,
    alloc: Global,
    shard: &Mutex<Locked<L>>,
    due: DueFrom,
) -> Result<bool, PoolFault>
    ensures { IsBehindOf (IsOfShard L.node L.begins) (λ h. IsMadeWhereQuiet due h result) }
{
    let mut guard = lock_of(rt, shard);
    let _journal = guard.journal();
    if !is_due(&guard, due) {
        return Ok(false);
    }
    if !guard.is_quiet(alloc)? {
        return Ok(false);
    }
    guard.checkpoint_keeping_current(alloc)?;
    Ok(true)
}

/// Drops the receipts of a seat's part up to the Start of its shard's journal, those that have no entry any more, and gives
/// the number of that Start.
pub fn locked_trim<L: Lane, R: Wait>(rt: &R, shard: &Mutex<Locked<L>>, part: &mut Part<L>) -> u64
    ensures start { IsBehindOf (IsOfShard L.node L.begins) (λ h. result ≡ (start_of h).number) }
    ensures forgets { part.new ≡ without_receipts part.old result }
{
    let start = locked_ask(rt, shard, &StartNumber);
    part.forget(start);
    start
}
