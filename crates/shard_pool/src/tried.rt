//! A call that makes room where it lacks some, once, and is made again.
ghost use Rattle.std.specs.Prelude.{◌≡◌};
ghost use Rattle.shard_pool.specs.Lent.{is_step, counted, CalledFrom, MadeFrom};
ghost use Rattle.shard_pool.specs.Lines.{IsOfShard};

use crate::lane::Lane;
use crate::lent::lent_call;
use crate::locked::Locked;
use crate::part::Part;
use crate::reply::{PoolFault, Reply};
use std::alloc::Global;
use tracker_shard::{Call, SeatCall, ShardFault};

/// An answer, and whether the journal was begun again for it: receipts from before have no entry then, and each subscriber
/// is owed its topic's state.
#[derive(Drop)]
pub struct Tried<T> {
    pub answer: T,
    pub has_begun_again: bool,
}

impl<T: Drop> Tried<T> {
    ghost use Rattle.std.specs.Prelude.{◌≡◌};

    /// The answer alone.
    pub fn into_answer(self) -> T
        ensures { result ≡ self.answer }
    {
        let Tried {
            answer,
            has_begun_again: _,
        } = self;
        answer
    }
}

/// A call of a seat with the guard lent. Where it finds the journal full, or no memory that the journal may give back, the
/// journal is begun again once, and the call made again there.
#[tactic(auto, using(crate::proofs::Tries::called))]
pub fn lent_tried<L: Lane, C: SeatCall>(
    alloc: Global,
    locked: &mut Locked<L>,
    part: &mut Part<L>,
    call: &C,
) -> Tried<Result<Reply<C::Answer>, PoolFault>>
    ensures called { CalledFrom (IsOfShard L.node L.begins) (C.there call.now) locked.old.shard locked.new.shard
        part.old part.new (C.step call.now) (C.gives call.now) result.answer }
    ensures total { locked.new.calls.total ≡ counted locked.old.calls.total (is_step result.answer) }
{
    let _journal = locked.journal();
    let answer = lent_call(alloc, locked, part, call);
    if !locked.makes_room(alloc, &answer) {
        return Tried {
            answer,
            has_begun_again: false,
        };
    }
    let _begun = locked.journal();
    let answer = lent_call(alloc, locked, part, call);
    Tried {
        answer,
        has_begun_again: true,
    }
}

/// The same of a call without a seat.
#[tactic(auto, using(crate::proofs::Tries::made))]
pub fn make_tried<L: Lane, C: Call>(
    alloc: Global,
    locked: &mut Locked<L>,
    call: &C,
) -> Tried<Result<C::Answer, ShardFault>>
    ensures made { MadeFrom (IsOfShard L.node L.begins) (C.there call.now) locked.old.shard locked.new.shard
        (C.step call.now) (C.gives call.now) result.answer }
    ensures total { locked.new.calls.total ≡ locked.old.calls.total }
{
    let _journal = locked.journal();
    let answer = locked.make(alloc, call);
    if !locked.makes_room(alloc, &answer) {
        return Tried {
            answer,
            has_begun_again: false,
        };
    }
    let _begun = locked.journal();
    let answer = locked.make(alloc, call);
    Tried {
        answer,
        has_begun_again: true,
    }
}
