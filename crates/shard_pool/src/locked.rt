//! A shard with its count, and its steps.
ghost use Rattle.std.specs.Prelude.{◌≡◌, ◌+◌, ◌-◌, ◌≤◌, ◌^◌, min, true, false, Some, None, IfOk, IfErr, OnOk, OnErr};
ghost use Rattle.presence_base.specs.Refs.{IsCount};
ghost use Rattle.presence_journal.specs.History.{begun, own, entry_count, is_full, last_number};
ghost use Rattle.presence_journal.specs.KeptBytes.{kept_bytes};
ghost use Rattle.presence_journal.specs.Queue.{CurrentStay, AllAreBehind};
ghost use Rattle.presence_journal.specs.StepLimits.{is_within_limits};
ghost use Rattle.presence_journal.specs.Table.{IsLegal, outcome_of};
ghost use Rattle.tracker_feeds.specs.Quiet.{TellsQuiet};
ghost use Rattle.tracker_shard.specs.Calls.{Looks, is_callers};
ghost use Rattle.tracker_shard.specs.Steps.{Stepped, Answers, IsDue, RefusesForRoom, refusal, checkpoint_refusal};
ghost use Rattle.tracker_index.specs.Starting.{seats, IsBegunAgain};
ghost use Rattle.shard_pool.specs.Lent.{is_step, counted, lacks_room};
ghost use Rattle.shard_pool.specs.Lines.{IsOfLane};

use crate::lack::{Lack, lack_of};
use crate::lane::Lane;
use crate::noting::{count_call, is_made};
use presence_base::Replica;
use presence_journal::{Journal, Outcome, Step};
use std::alloc::{AllocError, Global};
use std::sync::ledger::{Book, Share};
use tracker_shard::{Ask, Call, Found, Shard, ShardFault};

/// Where memory is wanting a checkpoint is tried of a journal with so many entries, which it gives back.
const MIN_ENTRIES: u64 = 64;

/// A shard with the count of its seated calls: what stands behind a lock of the pool.
pub struct Locked<L: Lane> {
    shard: Shard,
    calls: Book<L>,
    // Whether a call found no memory, so that the journal was to give some back, and none has found some since.
    has_lacked: bool,
    ghost counted: { calls.total ≡ seats shard },
    ghost of_node: { (own shard).name ≡ L.node },
    ghost of_lane: { IsOfLane L.begins shard },
}

// Written, as the shard's is.
impl<L: Lane> Drop for Locked<L> {
    fn drop(self) {
        let Locked {
            shard,
            calls,
            has_lacked: _,
        } = self;
        drop(shard);
        drop(calls);
    }
}

impl<L: Lane> Locked<L> {
    /// A new shard of the replica, with the book of a new ledger.
    #[tactic(auto, using(crate::proofs::Counts::counts))]
    pub fn new(alloc: Global, own: Replica, calls: Book<L>) -> Locked<L>
        requires count { IsCount own.incarnation }
        requires book { calls.total ≡ 0 }
        requires node { own.name ≡ L.node }
        requires begins { L.begins (begun own) }
        ensures { (result.shard ≡ begun own) × (result.calls.total ≡ 0) }
    {
        let mut shard = Shard::new(alloc, own);
        // Where memory is refused the journal takes more as it grows.
        let _reserved = shard.reserve();
        Locked {
            shard,
            calls,
            has_lacked: false,
        }
    }

    /// The shard's journal, which is legal, of the ledger's node, and comes of what the shard began with.
    pub fn journal(&self) -> &Journal
        ensures journal { result.now ≡ self.now.shard }
        ensures legal { IsLegal self.now.shard }
        ensures node { (own self.now.shard).name ≡ L.node }
        ensures lane { IsOfLane L.begins self.now.shard }
    {
        self.shard.journal()
    }

    /// How many entries the journal has, its Start counted.
    pub fn entry_count(&self) -> u64
        ensures { result ≡ entry_count self.now.shard }
    {
        self.shard.journal().entries().len() as u64 + 1
    }

    /// The bytes that the journal's entries keep beside themselves, or the most that a count of 64 bits tells.
    pub fn kept_bytes(&self) -> u64
        ensures { result ≡ min (kept_bytes self.now.shard) (2 ^ 64 - 1) }
    {
        self.shard.journal().kept_bytes()
    }

    // The number that the next entry gets.
    pub(crate) fn next_number(&self) -> u64
        ensures { result ≡ last_number self.now.shard + 1 }
    {
        self.shard.journal().last_number() + 1
    }

    // What a call comes to, without making its step.
    pub(crate) fn look<C: Call>(
        &mut self,
        alloc: Global,
        call: &C,
    ) -> Result<Found<C::Answer>, ShardFault>
        ensures same { self.new.shard ≡ self.old.shard }
        ensures calls { self.new.calls ≡ self.old.calls }
        ensures found { Looks (C.gives call.now self.old.shard) (C.there call.now self.old.shard) self.old.shard
            (C.step call.now) result }
    {
        self.shard.look(alloc, call)
    }

    // Makes the step that a call was found to come to, and counts it.
    #[tactic(auto, using(crate::proofs::Counts::counts, crate::proofs::Notes::seated))]
    pub(crate) fn enter(
        &mut self,
        alloc: Global,
        share: &mut Share<L>,
        seat: u32,
        step: Step,
        outcome: Outcome,
    ) -> Result<(), ShardFault>
        requires table { outcome_of self.old.shard step ≡ Some outcome }
        requires room { is_full self.old.shard ≡ false }
        requires limits { is_within_limits step ≡ true }
        requires callers { is_callers step ≡ true }
        requires share { share.old.parts ≡ 1 }
        ensures step { Stepped self.old.shard self.new.shard (Some seat) step result }
        ensures memory { IfErr result (λ e. e ≡ ShardFault.OutOfMemory) }
        ensures total { self.new.calls.total ≡ counted self.old.calls.total (is_step result) }
        ensures amount { share.new.amount ≡ counted share.old.amount (is_step result) }
        ensures parts { share.new.parts ≡ share.old.parts }
    {
        let Locked {
            shard,
            calls,
            has_lacked: _,
        } = self;
        let answer = shard.enter(alloc, Some(seat), step, outcome);
        count_call(calls, share, is_made(&answer));
        answer
    }

    /// Makes a call without a seat, as `Shard::perform` does.
    #[tactic(auto, using(crate::proofs::Counts::counts, crate::proofs::Notes::unseated))]
    pub fn make<C: Call>(&mut self, alloc: Global, call: &C) -> Result<C::Answer, ShardFault>
        ensures step { Stepped self.old.shard self.new.shard None (C.step call.now) result }
        ensures answer { Answers (C.gives call.now self.old.shard) (outcome_of self.old.shard (C.step call.now)) result }
        ensures due { IsDue result (refusal (C.there call.now self.old.shard) self.old.shard (C.step call.now)) }
        ensures total { self.new.calls.total ≡ self.old.calls.total }
    {
        self.shard.perform(alloc, None, call)
    }

    /// Asks the shard. It is no step.
    #[tactic(auto, using(crate::proofs::Counts::counts))]
    pub fn ask<A: Ask>(&mut self, ask: &A) -> A::Answer
        ensures same { self.new.shard ≡ self.old.shard }
        ensures total { self.new.calls.total ≡ self.old.calls.total }
        ensures told { A.tells ask.now self.old.shard result }
    {
        ask.read(&mut self.shard)
    }

    /// Puts a Start that stands for the journal in its place, as `Shard::checkpoint` does. It is no step.
    #[tactic(auto, using(crate::proofs::Counts::counts))]
    pub fn checkpoint(&mut self, alloc: Global) -> Result<(), ShardFault>
        ensures ok { OnOk result (IsBegunAgain self.old.shard self.new.shard) }
        ensures behind { OnOk result (AllAreBehind self.new.shard) }
        ensures err { OnErr result (self.new.shard ≡ self.old.shard) }
        ensures due { IsDue result (checkpoint_refusal self.old.shard) }
        ensures room { RefusesForRoom result }
        ensures total { self.new.calls.total ≡ self.old.calls.total }
    {
        let made = self.shard.checkpoint(alloc);
        // The journal's room went with it. Where memory is refused the new one takes more as it grows.
        let _reserved = self.shard.reserve();
        made
    }

    /// The same, with the subscribers for which nothing waits left as they are, as its namesake does. It
    /// is no step.
    #[tactic(auto, using(crate::proofs::Counts::counts))]
    pub fn checkpoint_keeping_current(&mut self, alloc: Global) -> Result<(), ShardFault>
        ensures ok { OnOk result (IsBegunAgain self.old.shard self.new.shard) }
        ensures current { OnOk result (CurrentStay self.old.shard self.new.shard) }
        ensures err { OnErr result (self.new.shard ≡ self.old.shard) }
        ensures due { IsDue result (checkpoint_refusal self.old.shard) }
        ensures room { RefusesForRoom result }
        ensures total { self.new.calls.total ≡ self.old.calls.total }
    {
        let made = self.shard.checkpoint_keeping_current(alloc);
        let _reserved = self.shard.reserve();
        made
    }

    /// Whether no item waits for a present subscriber, as `Shard::is_quiet` tells it. It is no step.
    #[tactic(auto, using(crate::proofs::Counts::counts))]
    pub fn is_quiet(&mut self, alloc: Global) -> Result<bool, AllocError>
        ensures quiet { IfOk result (TellsQuiet self.old.shard) }
        ensures same { self.new.shard ≡ self.old.shard }
        ensures total { self.new.calls.total ≡ self.old.calls.total }
    {
        self.shard.is_quiet(alloc)
    }

    /// Begins the journal again where the answer says that it lacks room, or memory that the journal may give back. Of
    /// memory that is asked once until a call finds some: it costs a copy of all that the shard keeps.
    #[tactic(auto, using(crate::proofs::Counts::counts))]
    pub fn makes_room<A: Drop>(&mut self, alloc: Global, answer: &Result<A, ShardFault>) -> bool
        ensures lack { result ≡ true → lacks_room answer.now ≡ true }
        ensures begun { result ≡ true → IsBegunAgain self.old.shard self.new.shard }
        ensures behind { result ≡ true → AllAreBehind self.new.shard }
        ensures same { result ≡ false → self.new.shard ≡ self.old.shard }
        ensures total { self.new.calls.total ≡ self.old.calls.total }
    {
        match lack_of(answer) {
            Lack::Nothing => {
                self.has_lacked = false;
                false
            }
            Lack::Room => self.checkpoint(alloc).is_ok(),
            Lack::Memory => self.gives_memory(alloc),
        }
    }

    // Begins a journal of some length again, if none was that gave no memory since a call found some.
    fn gives_memory(&mut self, alloc: Global) -> bool
        ensures begun { result ≡ true → IsBegunAgain self.old.shard self.new.shard }
        ensures behind { result ≡ true → AllAreBehind self.new.shard }
        ensures same { result ≡ false → self.new.shard ≡ self.old.shard }
        ensures total { self.new.calls.total ≡ self.old.calls.total }
    {
        if self.has_lacked || self.entry_count() < MIN_ENTRIES {
            return false;
        }
        self.has_lacked = true;
        self.checkpoint(alloc).is_ok()
    }

    /// The journal, where the shard is done with.
    pub fn into_journal(self) -> Journal
        ensures { result ≡ self.shard }
    {
        let Locked {
            shard,
            calls: _,
            has_lacked: _,
        } = self;
        shard.into_journal()
    }
}
