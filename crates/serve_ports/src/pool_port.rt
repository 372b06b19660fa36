//! The pool as the port of a session, through a seat.
ghost use Rattle.std.specs.Prelude.{◌≡◌};
ghost use Rattle.shard_pool.specs.Seats.{IsOfShardAt};
ghost use Rattle.serve_ports.specs.Asking.{Asked, Keeps, value_of};

use channel_rules::{AtShard, Call, Port, Refusal, Told, told_to};
use presence_base::Topic;
use shard_pool::{Gate, Lanes, Pool, PoolFault, Reply, Seat, Tried};
use std::alloc::Global;
use std::sync::Wait;
use tracker_shard::SeatCall;

/// A port over a pool: each of its calls is that call of the pool, through the seat that it is lent. It waits for the lock
/// of its topic's shard.
#[derive(Drop)]
pub struct PoolPort<'a, R: Wait, G: Gate, L: Lanes> {
    rt: &'a R,
    pool: &'a Pool<G, L>,
    seat: &'a mut Seat<L>,
    /// Whether a shard's journal was begun again for a call.
    has_made_room: bool,
}

// The value of a reply, without the shard and the number of its entry.
fn value<T: Drop>(reply: Result<Reply<T>, PoolFault>) -> Result<T, Refusal>
    ensures { result ≡ value_of reply }
{
    match reply {
        Ok(
            Reply {
                shard: _,
                number: _,
                value,
            },
        ) => Ok(value),
        Err(fault) => Err(Refusal::Table(fault)),
    }
}

impl<'a, R: Wait, G: Gate, L: Lanes> PoolPort<'a, R, G, L> {
    ghost use Rattle.std.specs.Prelude.{◌≡◌, false};

    /// The port of a seat of this pool.
    pub fn new(rt: &'a R, pool: &'a Pool<G, L>, seat: &'a mut Seat<L>) -> PoolPort<'a, R, G, L>
        ensures same_reference { result.seat.ghost_name ≡ seat.entry.ghost_name }
        ensures pool { result.pool.now ≡ pool.now }
        ensures seat { result.seat.now ≡ seat.old }
        ensures room { result.has_made_room ≡ false }
    {
        PoolPort {
            rt,
            pool,
            seat,
            has_made_room: false,
        }
    }

    /// Whether a shard's journal was begun again for a call that found it full, or no memory, so that receipts from before
    /// have no entry any more.
    pub fn has_made_room(&self) -> bool
        ensures { result ≡ self.now.has_made_room }
    {
        self.has_made_room
    }

    // Makes a call of the topic's shard.
    fn make<S: SeatCall>(
        &mut self,
        alloc: Global,
        topic: &Topic,
        call: &S,
    ) -> Result<S::Answer, Refusal>
        ensures kept { Keeps self.old.pool self.new.pool self.old.seat.ghost_name self.new.seat.ghost_name }
        ensures asked { Asked (IsOfShardAt self.old.pool.now.own.name L.begins) (S.there call.now)
            self.old.pool.now.shards self.old.seat.now self.new.seat.now topic.now (S.step call.now) (S.gives call.now)
            result }
    {
        let Tried {
            answer,
            has_begun_again,
        } = self.pool.call(self.rt, alloc, &mut *self.seat, topic, call);
        self.has_made_room = self.has_made_room || has_begun_again;
        value(answer)
    }
}

impl<'a, R: Wait, G: Gate, L: Lanes> Port for PoolPort<'a, R, G, L> {
    ghost use Rattle.serve_ports.specs.Asking.{PoolStep};

    ghost step = { λ pid old q a new. Keeps old.pool new.pool old.seat.ghost_name new.seat.ghost_name × PoolStep (IsOfShardAt old.pool.now.own.name L.begins) old.pool.now.shards pid old.seat.now q a new.seat.now };

    fn call<C: Call>(&mut self, alloc: Global, pid: u64, call: &C) -> Result<C::Answer, Refusal> {
        let topic = call.question().topic();
        match call.at_shard(pid) {
            AtShard::Step(step) => self.make(alloc, topic, &step),
            AtShard::Waits(sub) => {
                match self.pool.waits(self.rt, self.pool.shard_of(topic), &sub) {
                    Ok(waits) => Ok(told_to(call, Told::Waits(waits))),
                    Err(fault) => Err(Refusal::Table(fault)),
                }
            }
        }
    }
}
