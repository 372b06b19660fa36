//! The calls with the guard lent.
ghost use Rattle.std.specs.Prelude.{◌≡◌, ◌+◌, ◌≤◌, ◌<◌, ◌^◌, true, Some, IfOk, OnOk, IsTrue, vec_len, vec_capacity};
ghost use Rattle.presence_journal.specs.History.{last_number};
ghost use Rattle.presence_journal.specs.Limits.{is_payload, is_take_limit};
ghost use Rattle.presence_journal.specs.Present.{listed, dots_of};
ghost use Rattle.presence_journal.specs.Queue.{items_given};
ghost use Rattle.presence_journal.specs.Table.{rows_of_key, rows_of_pid, listed_key};
ghost use Rattle.tracker_shard.specs.Steps.{IsDue, Stepped, refusal, refusal_at, slot_of};
ghost use Rattle.shard_pool.specs.Hands.{receipt};
ghost use Rattle.shard_pool.specs.Lent.{is_step, counted, Notes, Replies, RepliesDot};

use crate::lane::Lane;
use crate::locked::Locked;
use crate::part::Part;
use crate::reply::{PoolFault, Reply, reply_to};
use presence_base::{Dot, Json, Key, Meta, Row, Topic};
use presence_journal::{Item, Outcome, SharedRows, Step};
use shard_pool_settled::Receipt;
use std::alloc::{AllocError, Global};
use tracker_shard::{
    Found, Get, List, SeatCall, Shout, Sub, Subscribe, Take, Track, Unsubscribe, Untrack,
    UntrackAll, Update,
};

/// A list of receipts that is full takes room for so many more at once, and no more, however long it is.
const GROWTH: usize = 4_096;

// Makes room for one more receipt.
fn make_room(receipts: &mut Vec<Receipt>) -> Result<(), AllocError>
    ensures items { receipts.new.items ≡ receipts.old.items }
    ensures len { vec_len receipts.new ≡ vec_len receipts.old }
    ensures room { OnOk result (vec_len receipts.new < vec_capacity receipts.new) }
{
    if receipts.len() < GROWTH {
        return receipts.reserve(1);
    }
    if receipts.len() < receipts.capacity() {
        return Ok(());
    }
    receipts.reserve_exact(GROWTH)
}

// The receipt of a step at the shard's end, made ready before the step, so that nothing can be wanting once it is made.
fn receipt_of(
    shard: u32,
    number: u64,
    step: &Step,
    outcome: &Outcome,
) -> Result<Receipt, AllocError>
    ensures { IfOk result (λ r. r ≡ receipt shard number step.now outcome.now) }
{
    let step = step.clone()?;
    let outcome = outcome.clone()?;
    Ok(Receipt {
        shard,
        number,
        step,
        outcome,
    })
}

/// A call with the guard lent: looks up what it comes to, makes its step, and leaves its receipt with the seat.
#[tactic(auto, using(crate::proofs::Notes::notes, crate::proofs::Notes::seated))]
pub fn lent_call<L: Lane, C: SeatCall>(
    alloc: Global,
    locked: &mut Locked<L>,
    part: &mut Part<L>,
    call: &C,
) -> Result<Reply<C::Answer>, PoolFault>
    ensures step { Stepped locked.old.shard locked.new.shard (Some part.old.seat) (C.step call.now) result }
    ensures answer { Replies part.old.shard locked.old.shard (C.step call.now)
        (C.gives call.now locked.old.shard) result }
    ensures due { IsDue result (refusal (C.there call.now locked.old.shard) locked.old.shard (C.step call.now)) }
    ensures notes { Notes locked.old.shard part.old part.new (C.step call.now) result }
    ensures total { locked.new.calls.total ≡ counted locked.old.calls.total (is_step result) }
{
    let Part {
        seat,
        shard,
        receipts,
        share,
    } = part;
    let Found {
        step,
        outcome,
        answer,
    } = locked.look(alloc, call)?;
    make_room(receipts)?;
    let number = locked.next_number();
    let receipt = receipt_of(*shard, number, &step, &outcome)?;
    locked.enter(alloc, share, *seat, step, outcome)?;
    receipts.push_reserved(receipt);
    reply_to(*shard, number, answer)
}

/// A track with the guard lent.
pub fn lent_track<L: Lane>(
    alloc: Global,
    locked: &mut Locked<L>,
    part: &mut Part<L>,
    pid: u64,
    topic: &Topic,
    key: &Key,
    meta: &Meta,
) -> Result<Reply<Dot>, PoolFault>
    requires pid { pid ≤ 2 ^ 62 }
    ensures step { Stepped locked.old.shard locked.new.shard (Some part.old.seat)
        (Step.Track pid topic.now key.now meta.now) result }
    ensures answer { RepliesDot part.old.shard locked.old.shard (Step.Track pid topic.now key.now meta.now) result }
    ensures due { IsDue result (refusal true locked.old.shard (Step.Track pid topic.now key.now meta.now)) }
    ensures notes { Notes locked.old.shard part.old part.new (Step.Track pid topic.now key.now meta.now) result }
    ensures total { locked.new.calls.total ≡ counted locked.old.calls.total (is_step result) }
{
    lent_call(
        alloc,
        locked,
        part,
        &Track {
            pid,
            topic,
            key,
            meta,
        },
    )
}

/// An update with the guard lent.
pub fn lent_update<L: Lane>(
    alloc: Global,
    locked: &mut Locked<L>,
    part: &mut Part<L>,
    pid: u64,
    topic: &Topic,
    key: &Key,
    meta: &Meta,
) -> Result<Reply<Dot>, PoolFault>
    requires pid { pid ≤ 2 ^ 62 }
    ensures step { Stepped locked.old.shard locked.new.shard (Some part.old.seat)
        (Step.Update pid topic.now key.now meta.now) result }
    ensures answer { RepliesDot part.old.shard locked.old.shard (Step.Update pid topic.now key.now meta.now) result }
    ensures due { IsDue result (refusal true locked.old.shard (Step.Update pid topic.now key.now meta.now)) }
    ensures notes { Notes locked.old.shard part.old part.new (Step.Update pid topic.now key.now meta.now) result }
    ensures total { locked.new.calls.total ≡ counted locked.old.calls.total (is_step result) }
{
    lent_call(
        alloc,
        locked,
        part,
        &Update {
            pid,
            topic,
            key,
            meta,
        },
    )
}

/// An untrack with the guard lent.
pub fn lent_untrack<L: Lane>(
    alloc: Global,
    locked: &mut Locked<L>,
    part: &mut Part<L>,
    pid: u64,
    topic: &Topic,
    key: &Key,
) -> Result<Reply<Vec<Dot>>, PoolFault>
    ensures step { Stepped locked.old.shard locked.new.shard (Some part.old.seat)
        (Step.Untrack pid topic.now key.now) result }
    ensures answer { Replies part.old.shard locked.old.shard
        (Step.Untrack pid topic.now key.now)
        (λ dots. dots.items ≡ dots_of (rows_of_key locked.old.shard pid topic.now key.now)) result }
    ensures due { IsDue result (refusal true locked.old.shard (Step.Untrack pid topic.now key.now)) }
    ensures notes { Notes locked.old.shard part.old part.new (Step.Untrack pid topic.now key.now) result }
    ensures total { locked.new.calls.total ≡ counted locked.old.calls.total (is_step result) }
{
    lent_call(alloc, locked, part, &Untrack { pid, topic, key })
}

/// An untrack of all keys with the guard lent.
pub fn lent_untrack_all<L: Lane>(
    alloc: Global,
    locked: &mut Locked<L>,
    part: &mut Part<L>,
    pid: u64,
    topic: &Topic,
) -> Result<Reply<Vec<Dot>>, PoolFault>
    ensures step { Stepped locked.old.shard locked.new.shard (Some part.old.seat)
        (Step.UntrackAll pid topic.now) result }
    ensures answer { Replies part.old.shard locked.old.shard
        (Step.UntrackAll pid topic.now)
        (λ dots. dots.items ≡ dots_of (rows_of_pid locked.old.shard pid topic.now)) result }
    ensures due { IsDue result (refusal true locked.old.shard (Step.UntrackAll pid topic.now)) }
    ensures notes { Notes locked.old.shard part.old part.new (Step.UntrackAll pid topic.now) result }
    ensures total { locked.new.calls.total ≡ counted locked.old.calls.total (is_step result) }
{
    lent_call(alloc, locked, part, &UntrackAll { pid, topic })
}

/// A list with the guard lent.
pub fn lent_list<L: Lane>(
    alloc: Global,
    locked: &mut Locked<L>,
    part: &mut Part<L>,
    topic: &Topic,
) -> Result<Reply<SharedRows>, PoolFault>
    ensures step { Stepped locked.old.shard locked.new.shard (Some part.old.seat) (Step.List topic.now) result }
    ensures answer { Replies part.old.shard locked.old.shard
        (Step.List topic.now)
        (λ rows. rows ≡ listed locked.old.shard topic.now) result }
    ensures due { IsDue result (refusal true locked.old.shard (Step.List topic.now)) }
    ensures notes { Notes locked.old.shard part.old part.new (Step.List topic.now) result }
    ensures total { locked.new.calls.total ≡ counted locked.old.calls.total (is_step result) }
{
    lent_call(alloc, locked, part, &List { topic })
}

/// A get with the guard lent.
pub fn lent_get<L: Lane>(
    alloc: Global,
    locked: &mut Locked<L>,
    part: &mut Part<L>,
    topic: &Topic,
    key: &Key,
) -> Result<Reply<Vec<(Dot, Row)>>, PoolFault>
    ensures step { Stepped locked.old.shard locked.new.shard (Some part.old.seat) (Step.Get topic.now key.now) result }
    ensures answer { Replies part.old.shard locked.old.shard
        (Step.Get topic.now key.now)
        (λ rows. rows.items ≡ listed_key locked.old.shard topic.now key.now) result }
    ensures due { IsDue result (refusal true locked.old.shard (Step.Get topic.now key.now)) }
    ensures notes { Notes locked.old.shard part.old part.new (Step.Get topic.now key.now) result }
    ensures total { locked.new.calls.total ≡ counted locked.old.calls.total (is_step result) }
{
    lent_call(alloc, locked, part, &Get { topic, key })
}

/// A subscribe with the guard lent.
pub fn lent_subscribe<L: Lane>(
    alloc: Global,
    locked: &mut Locked<L>,
    part: &mut Part<L>,
    topic: &Topic,
) -> Result<Reply<Sub>, PoolFault>
    ensures step { Stepped locked.old.shard locked.new.shard (Some part.old.seat) (Step.Subscribe topic.now) result }
    ensures answer { Replies part.old.shard locked.old.shard
        (Step.Subscribe topic.now)
        (λ sub. (sub.number ≡ last_number locked.old.shard + 1) × (sub.slot ≡ slot_of sub.number)) result }
    ensures due { IsDue result (refusal true locked.old.shard (Step.Subscribe topic.now)) }
    ensures notes { Notes locked.old.shard part.old part.new (Step.Subscribe topic.now) result }
    ensures total { locked.new.calls.total ≡ counted locked.old.calls.total (is_step result) }
{
    lent_call(alloc, locked, part, &Subscribe { topic })
}

/// A take with the guard lent.
pub fn lent_take<L: Lane>(
    alloc: Global,
    locked: &mut Locked<L>,
    part: &mut Part<L>,
    sub: &Sub,
    max: u32,
) -> Result<Reply<Vec<Item>>, PoolFault>
    requires limit { IsTrue (is_take_limit max) }
    ensures step { Stepped locked.old.shard locked.new.shard (Some part.old.seat)
        (Step.Take sub.now.number max) result }
    ensures answer { Replies part.old.shard locked.old.shard
        (Step.Take sub.now.number max)
        (λ items. items.items ≡ items_given locked.old.shard sub.now.number max) result }
    ensures due { IsDue result (refusal_at sub.now.slot sub.now.number locked.old.shard
        (Step.Take sub.now.number max)) }
    ensures notes { Notes locked.old.shard part.old part.new (Step.Take sub.now.number max) result }
    ensures total { locked.new.calls.total ≡ counted locked.old.calls.total (is_step result) }
{
    lent_call(alloc, locked, part, &Take { sub: *sub, max })
}

/// An unsubscribe with the guard lent.
pub fn lent_unsubscribe<L: Lane>(
    alloc: Global,
    locked: &mut Locked<L>,
    part: &mut Part<L>,
    sub: &Sub,
) -> Result<Reply<()>, PoolFault>
    ensures step { Stepped locked.old.shard locked.new.shard (Some part.old.seat)
        (Step.Unsubscribe sub.now.number) result }
    ensures answer { Replies part.old.shard locked.old.shard (Step.Unsubscribe sub.now.number) (λ _. Unit {0}) result }
    ensures due { IsDue result (refusal_at sub.now.slot sub.now.number locked.old.shard
        (Step.Unsubscribe sub.now.number)) }
    ensures notes { Notes locked.old.shard part.old part.new (Step.Unsubscribe sub.now.number) result }
    ensures total { locked.new.calls.total ≡ counted locked.old.calls.total (is_step result) }
{
    lent_call(alloc, locked, part, &Unsubscribe { sub: *sub })
}

/// A shout with the guard lent.
pub fn lent_shout<L: Lane>(
    alloc: Global,
    locked: &mut Locked<L>,
    part: &mut Part<L>,
    topic: &Topic,
    payload: &Json,
) -> Result<Reply<()>, PoolFault>
    requires payload { IsTrue (is_payload payload.now) }
    ensures step { Stepped locked.old.shard locked.new.shard (Some part.old.seat)
        (Step.Shout topic.now payload.now) result }
    ensures answer { Replies part.old.shard locked.old.shard (Step.Shout topic.now payload.now) (λ _. Unit {0}) result }
    ensures due { IsDue result (refusal true locked.old.shard (Step.Shout topic.now payload.now)) }
    ensures notes { Notes locked.old.shard part.old part.new (Step.Shout topic.now payload.now) result }
    ensures total { locked.new.calls.total ≡ counted locked.old.calls.total (is_step result) }
{
    lent_call(alloc, locked, part, &Shout { topic, payload })
}
