//! The pool as the port of a link.
ghost use Rattle.std.specs.Prelude.{◌≡◌, Some};

use crate::above::tells_above;
use crate::fault::told;
use crate::others::{highest_life, shared_of_others};
use crate::parts::{is_there, is_told_in_parts, part_on_line, shorter_reply};
use node_links::{ActFault, LinkPort};
use orswot_core::{Form, Told};
use presence_base::Replica;
use presence_journal::SharedTold;
use replica_status::Status;
use shard_pool::{Gate, Lanes, Pool, Tried};
use std::alloc::Global;
use std::sync::Wait;
use tracker_shard::{Call, Heard, Merge, PermDown};

/// The port of a link over a pool: each of its calls is that call of the pool, without a seat, and waits for the lock of
/// the shard.
#[derive(Drop)]
pub struct PoolLinkPort<'a, R: Wait, G: Gate, L: Lanes> {
    rt: &'a R,
    pool: &'a Pool<G, L>,
    shards: u32,
    /// Whether the replica of the last status was shown.
    is_up: bool,
    has_changed: bool,
    /// Whether the other node was told something, or was to be.
    has_told: bool,
    /// Whether a part of what the other node wants was told.
    has_part: bool,
    /// The node's own replica, where it is looked for in what is told: what is told of its name isn't heard.
    own: Option<Replica>,
    /// By how much a life of its name may be above that one and be counted.
    most_ahead: u64,
    /// The highest incarnation of the node's own name that was told of, or 0.
    own_life: u64,
    /// Whether something was told of the own replica that it never did.
    has_own_counts: bool,
    ghost all: { shards ≡ pool.now.shards },
}

impl<'a, R: Wait, G: Gate, L: Lanes> PoolLinkPort<'a, R, G, L> {
    ghost use Rattle.std.specs.Prelude.{◌≡◌, ◌⊎◌};
    ghost use Rattle.shard_pool.specs.Seats.{IsOfShardAt};
    ghost use Rattle.link_pool_port.specs.Asking.{Called, HasNoShard};

    /// The port of this pool, which has so many shards.
    pub fn new(rt: &'a R, pool: &'a Pool<G, L>, shards: u32) -> PoolLinkPort<'a, R, G, L>
        requires { shards ≡ pool.now.shards }
        ensures { result.pool.now ≡ pool.now }
    {
        PoolLinkPort {
            rt,
            pool,
            shards,
            is_up: false,
            has_changed: false,
            has_told: false,
            has_part: false,
            own: None,
            most_ahead: 0,
            own_life: 0,
            has_own_counts: false,
        }
    }

    /// Whether a call may have changed what clients are shown. It is a hint.
    pub fn has_changed(&self) -> bool {
        self.has_changed
    }

    /// Whether the other node asked to be told something.
    pub fn has_told(&self) -> bool {
        self.has_told
    }

    /// Whether a part of what the other node wants was told, behind which it may want more.
    pub fn has_part(&self) -> bool {
        self.has_part
    }

    /// The highest incarnation of this node's own name that the other node told of, of those that count, or 0.
    pub fn own_life(&self) -> u64 {
        self.own_life
    }

    /// From now on what is told of this replica, the node's own, is looked at, and what is told of its name isn't heard. A life of
    /// its name that is further ahead of it than that hides no other one that is told of.
    pub fn looks_for(&mut self, own: Replica, most_ahead: u64)
        ensures pool { self.new.pool ≡ self.old.pool }
        ensures own { self.new.own ≡ Some own }
    {
        self.own = Some(own);
        self.most_ahead = most_ahead;
    }

    // Whether counts of the node's own replica are told that the shard doesn't have.
    fn tells_own(&self, shard: u32, told: &Told) -> bool {
        if shard >= self.shards {
            return false;
        }
        match &self.own {
            Some(own) => tells_above(own, self.pool.top(self.rt, shard, own), told),
            None => false,
        }
    }

    // What is told of the node's own name is looked at.
    fn looks_at(&mut self, shard: u32, told: &Told)
        ensures pool { self.new.pool ≡ self.old.pool }
        ensures own { self.new.own ≡ self.old.own }
    {
        self.has_own_counts = self.has_own_counts || self.tells_own(shard, told);
        if let Some(own) = &self.own {
            self.own_life = highest_life(own, self.most_ahead, told).max(self.own_life);
        }
    }

    /// Whether the other node told of counts of this node's own incarnation that it never made.
    pub fn has_own_counts(&self) -> bool {
        self.has_own_counts
    }

    // Makes a call of a shard, where there is such a shard, and tells the answer.
    fn make<C: Call>(&mut self, alloc: Global, shard: u32, call: &C) -> Result<C::Answer, ActFault>
        ensures pool { self.new.pool ≡ self.old.pool }
        ensures own { self.new.own ≡ self.old.own }
        ensures called { HasNoShard self.old.pool.now.shards shard result
            ⊎ Called (IsOfShardAt self.old.pool.now.own.name L.begins shard) (C.there call.now) (C.gives call.now)
            (C.step call.now) result }
    {
        if shard >= self.shards {
            return Err(ActFault::ShardFull);
        }
        let Tried {
            answer,
            has_begun_again,
        } = self.pool.make(self.rt, alloc, shard, call);
        self.has_changed = self.has_changed || has_begun_again;
        told(answer)
    }
}

impl<'a, R: Wait, G: Gate, L: Lanes> LinkPort for PoolLinkPort<'a, R, G, L> {
    ghost use Rattle.std.specs.Prelude.{◌≡◌};
    ghost use Rattle.shard_pool.specs.Seats.{IsOfShardAt};
    ghost use Rattle.link_pool_port.specs.Asking.{LinkStep};

    ghost step = { λ old q a new. (new.pool ≡ old.pool) × (new.own ≡ old.own)
        × LinkStep (IsOfShardAt old.pool.now.own.name L.begins) old.own old.pool.now.shards q a };

    ghost shard_count = { λ p. p.pool.now.shards };

    fn shards(&self) -> u32 {
        self.shards
    }

    fn status(
        &mut self,
        _alloc: Global,
        shard: u32,
        replica: &Replica,
    ) -> Result<Status, ActFault> {
        if shard >= self.shards {
            return Err(ActFault::ShardFull);
        }
        let status = self.pool.status(self.rt, shard, replica);
        self.is_up = matches!(&status, Status::Up);
        Ok(status)
    }

    #[tactic(auto, using(crate::proofs::CallLemmas::called))]
    fn heard(
        &mut self,
        alloc: Global,
        shard: u32,
        replica: Replica,
        now: u64,
    ) -> Result<(), ActFault> {
        self.has_changed |= !self.is_up;
        self.make(alloc, shard, &Heard { replica, now })
    }

    #[tactic(auto, using(crate::proofs::CallLemmas::called))]
    fn merge(&mut self, alloc: Global, shard: u32, told: Told) -> Result<(), ActFault> {
        self.looks_at(shard, &told);
        let Ok(shared) = shared_of_others(alloc, &self.own, told) else {
            return Err(ActFault::OutOfMemory);
        };
        self.has_changed = true;
        self.make(alloc, shard, &Merge { told: &shared })
    }

    #[tactic(auto, using(crate::proofs::CallLemmas::called))]
    fn permdown(&mut self, alloc: Global, shard: u32, replica: Replica) -> Result<(), ActFault> {
        self.has_changed = true;
        self.make(alloc, shard, &PermDown { replica })
    }

    fn top(&mut self, _alloc: Global, shard: u32, replica: &Replica) -> Result<u64, ActFault> {
        if shard >= self.shards {
            return Err(ActFault::ShardFull);
        }
        Ok(self.pool.top(self.rt, shard, replica))
    }

    fn told_from(
        &mut self,
        alloc: Global,
        shard: u32,
        from: u64,
        form: Form,
    ) -> Result<Option<Told>, ActFault> {
        self.has_told = true;
        if shard >= self.shards {
            return Err(ActFault::ShardFull);
        }
        let whole = self.pool.fitting(self.rt, alloc, shard, Some(from), form);
        if is_told_in_parts(shard, form, &whole) {
            let part = part_on_line(self.rt, alloc, self.pool, shard, from);
            self.has_part = is_there(&part);
            return told(shorter_reply(shard, whole, part));
        }
        told(whole)
    }

    fn full(&mut self, alloc: Global, shard: u32, form: Form) -> Result<Option<Told>, ActFault> {
        self.has_told = true;
        if shard >= self.shards {
            return Err(ActFault::ShardFull);
        }
        told(self.pool.fitting(self.rt, alloc, shard, None, form))
    }
}
