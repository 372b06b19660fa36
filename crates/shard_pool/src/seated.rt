//! The calls of seats.
ghost use Rattle.std.specs.Prelude.{◌≤◌, ◌^◌, IsTrue};
ghost use Rattle.presence_journal.specs.Limits.{is_payload, is_take_limit};
ghost use Rattle.shard_pool.specs.Seats.{CalledAt, IsOfShardAt, shard_of};
ghost use Rattle.shard_pool.specs.Calls.{Tracks, Updates, Untracks, UntracksAll, Lists, Fetches, Subscribes, Takes, Unsubscribes, Shouts};

use crate::gate::Gate;
use crate::lanes::Lanes;
use crate::locked_calls::locked_call;
use crate::pool::Pool;
use crate::reply::{PoolFault, Reply};
use crate::seat::Seat;
use crate::tried::Tried;
use presence_base::{Dot, Json, Key, Meta, Row, Topic, shard_of};
use presence_journal::{Item, SharedRows};
use std::alloc::Global;
use std::sync::Wait;
use tracker_shard::{
    Get, List, SeatCall, Shout, Sub, Subscribe, Take, Track, Unsubscribe, Untrack, UntrackAll,
    Update,
};

impl<G: Gate, L: Lanes> Pool<G, L> {
    /// Makes a call through a seat, at its topic's shard. Where it finds the shard's journal full, or no memory that the journal
    /// may give back, the journal is begun again once, under the lock, and the call made again there; so it refuses with
    /// `JournalFull` only where that is refused.
    pub fn call<R: Wait, Q: SeatCall>(
        &self,
        rt: &R,
        alloc: Global,
        seat: &mut Seat<L>,
        topic: &Topic,
        call: &Q,
    ) -> Tried<Result<Reply<Q::Answer>, PoolFault>>
        ensures { CalledAt (IsOfShardAt self.now.own.name L.begins) (Q.there call.now)
            seat.old seat.new (shard_of topic.now self.now.shards) (Q.step call.now) (Q.gives call.now) result.answer }
    {
        let shard = shard_of(topic, self.shards);
        let Seat {
            number: _,
            first,
            second,
            third,
            fourth,
        } = seat;
        if shard == 0 {
            return locked_call(rt, alloc, &self.gate, &self.first, first, call);
        }
        if shard == 1 {
            return locked_call(rt, alloc, &self.gate, &self.second, second, call);
        }
        if shard == 2 {
            return locked_call(rt, alloc, &self.gate, &self.third, third, call);
        }
        locked_call(rt, alloc, &self.gate, &self.fourth, fourth, call)
    }

    /// Tracks the pid under the key on the topic, and answers the dot of the new row.
    pub fn track<R: Wait>(
        &self,
        rt: &R,
        alloc: Global,
        seat: &mut Seat<L>,
        pid: u64,
        topic: &Topic,
        key: &Key,
        meta: &Meta,
    ) -> Result<Reply<Dot>, PoolFault>
        requires pid { pid ≤ 2 ^ 62 }
        ensures { Tracks (IsOfShardAt self.now.own.name L.begins)
            self.now.shards seat.old seat.new pid topic.now key.now meta.now result }
    {
        self.call(
            rt,
            alloc,
            seat,
            topic,
            &Track {
                pid,
                topic,
                key,
                meta,
            },
        )
        .into_answer()
    }

    /// Replaces what the pid tells under the key on the topic, and answers the dot of the new row.
    pub fn update<R: Wait>(
        &self,
        rt: &R,
        alloc: Global,
        seat: &mut Seat<L>,
        pid: u64,
        topic: &Topic,
        key: &Key,
        meta: &Meta,
    ) -> Result<Reply<Dot>, PoolFault>
        requires pid { pid ≤ 2 ^ 62 }
        ensures { Updates (IsOfShardAt self.now.own.name L.begins)
            self.now.shards seat.old seat.new pid topic.now key.now meta.now result }
    {
        self.call(
            rt,
            alloc,
            seat,
            topic,
            &Update {
                pid,
                topic,
                key,
                meta,
            },
        )
        .into_answer()
    }

    /// Takes out the pid's row under the key on the topic, and answers its dot, or none.
    pub fn untrack<R: Wait>(
        &self,
        rt: &R,
        alloc: Global,
        seat: &mut Seat<L>,
        pid: u64,
        topic: &Topic,
        key: &Key,
    ) -> Result<Reply<Vec<Dot>>, PoolFault>
        ensures { Untracks (IsOfShardAt self.now.own.name L.begins)
            self.now.shards seat.old seat.new pid topic.now key.now result }
    {
        self.call(rt, alloc, seat, topic, &Untrack { pid, topic, key })
            .into_answer()
    }

    /// Takes out each row of the pid on the topic, and answers their dots in order of key and then dot.
    pub fn untrack_all<R: Wait>(
        &self,
        rt: &R,
        alloc: Global,
        seat: &mut Seat<L>,
        pid: u64,
        topic: &Topic,
    ) -> Result<Reply<Vec<Dot>>, PoolFault>
        ensures { UntracksAll (IsOfShardAt self.now.own.name L.begins)
            self.now.shards seat.old seat.new pid topic.now result }
    {
        self.call(rt, alloc, seat, topic, &UntrackAll { pid, topic })
            .into_answer()
    }

    /// The rows that are present on the topic, in order of key and then dot.
    pub fn list<R: Wait>(
        &self,
        rt: &R,
        alloc: Global,
        seat: &mut Seat<L>,
        topic: &Topic,
    ) -> Result<Reply<SharedRows>, PoolFault>
        ensures { Lists (IsOfShardAt self.now.own.name L.begins) self.now.shards seat.old seat.new topic.now result }
    {
        self.call(rt, alloc, seat, topic, &List { topic })
            .into_answer()
    }

    /// The rows that are present under the key on the topic, in order of dot.
    pub fn get<R: Wait>(
        &self,
        rt: &R,
        alloc: Global,
        seat: &mut Seat<L>,
        topic: &Topic,
        key: &Key,
    ) -> Result<Reply<Vec<(Dot, Row)>>, PoolFault>
        ensures { Fetches (IsOfShardAt self.now.own.name L.begins)
            self.now.shards seat.old seat.new topic.now key.now result }
    {
        self.call(rt, alloc, seat, topic, &Get { topic, key })
            .into_answer()
    }

    /// A new subscriber of the topic.
    pub fn subscribe<R: Wait>(
        &self,
        rt: &R,
        alloc: Global,
        seat: &mut Seat<L>,
        topic: &Topic,
    ) -> Result<Reply<Sub>, PoolFault>
        ensures { Subscribes (IsOfShardAt self.now.own.name L.begins)
            self.now.shards seat.old seat.new topic.now result }
    {
        self.call(rt, alloc, seat, topic, &Subscribe { topic })
            .into_answer()
    }

    /// Up to `max` of the items that wait for a subscriber of the topic, or the topic's state where it is behind.
    pub fn take<R: Wait>(
        &self,
        rt: &R,
        alloc: Global,
        seat: &mut Seat<L>,
        topic: &Topic,
        sub: &Sub,
        max: u32,
    ) -> Result<Reply<Vec<Item>>, PoolFault>
        requires limit { IsTrue (is_take_limit max) }
        ensures { Takes (IsOfShardAt self.now.own.name L.begins)
            self.now.shards seat.old seat.new topic.now sub.now max result }
    {
        self.call(rt, alloc, seat, topic, &Take { sub: *sub, max })
            .into_answer()
    }

    /// Ends a subscriber of the topic.
    pub fn unsubscribe<R: Wait>(
        &self,
        rt: &R,
        alloc: Global,
        seat: &mut Seat<L>,
        topic: &Topic,
        sub: &Sub,
    ) -> Result<Reply<()>, PoolFault>
        ensures { Unsubscribes (IsOfShardAt self.now.own.name L.begins)
            self.now.shards seat.old seat.new topic.now sub.now result }
    {
        self.call(rt, alloc, seat, topic, &Unsubscribe { sub: *sub })
            .into_answer()
    }

    /// Sends the payload to each subscriber of the topic.
    pub fn shout<R: Wait>(
        &self,
        rt: &R,
        alloc: Global,
        seat: &mut Seat<L>,
        topic: &Topic,
        payload: &Json,
    ) -> Result<Reply<()>, PoolFault>
        requires payload { IsTrue (is_payload payload.now) }
        ensures { Shouts (IsOfShardAt self.now.own.name L.begins)
            self.now.shards seat.old seat.new topic.now payload.now result }
    {
        self.call(rt, alloc, seat, topic, &Shout { topic, payload })
            .into_answer()
    }
}
