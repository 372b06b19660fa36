//! A port that refuses a row beyond what its connection, or all of its topic, may have.
ghost use Rattle.std.specs.Prelude.{◌≡◌, ◌≤◌, ◌^◌};
ghost use Rattle.serve_rations.specs.Connections.{IsNow, rows_of, all_but_last};
ghost use Rattle.channel_rules.specs.Asks.{track as tracks, update as updates, untrack as untracks, untrack_all as untracks_all};
ghost use Rattle.channel_rules.specs.Seen.{seen_by};
ghost use Rattle.serve_rations.specs.Rationing.{Admits, Charges, Rationed, RationedAs, Released, books, tracked};

use crate::amount::Amount;
use crate::budgets::Budgets;
use crate::ration::{amount_of, row_bytes};
use crate::rations::Rations;
use channel_rules::{Call, Port, Question, Refusal, Track, Untrack, UntrackAll, Update};
use presence_base::{Key, Topic};
use std::alloc::{AllocError, Global};
use tracker_shard::ShardFault;

// Charges so much more of a topic, if it is anything.
fn charge<B: Budgets>(budgets: &mut B, topic: &Topic, more: Amount) -> Result<(), Refusal>
    ensures { Charges B.charged budgets.old topic.now more result budgets.new }
{
    if more.is_nothing() {
        return Ok(());
    }
    match budgets.charge(topic, more) {
        Ok(true) => Ok(()),
        Ok(false) => Err(Refusal::OverRation),
        Err(AllocError) => Err(Refusal::Table(ShardFault::OutOfMemory)),
    }
}

// Gives so much of a topic back, if it is anything.
fn release<B: Budgets>(budgets: &mut B, topic: &Topic, less: Amount)
    ensures { Released B.released budgets.old topic.now less budgets.new }
{
    if !less.is_nothing() {
        budgets.release(topic, less);
    }
}

/// A port whose calls are those of the port inside, but that a row beyond what its connection may have, or beyond what all
/// rows of the node may take of its topic, is refused, and the port inside isn't asked.
#[derive(Drop)]
pub struct RationedPort<'a, P, B> {
    port: P,
    rations: &'a mut Rations,
    budgets: B,
}

impl<'a, P: Port + Drop, B: Budgets + Drop> RationedPort<'a, P, B> {
    /// A port over these rations and budgets.
    pub fn new(port: P, rations: &'a mut Rations, budgets: B) -> RationedPort<'a, P, B>
        ensures port { result.port ≡ port }
        ensures rations { result.rations.now ≡ rations.old }
        ensures budgets { result.budgets ≡ budgets }
    {
        RationedPort {
            port,
            rations,
            budgets,
        }
    }

    /// The port inside.
    pub fn port(&self) -> &P
        ensures { result.now ≡ self.now.port }
    {
        &self.port
    }

    /// What the rows are charged to.
    pub fn budgets(&self) -> &B
        ensures { result.now ≡ self.now.budgets }
    {
        &self.budgets
    }

    // Counts a new row of so many bytes and charges it, or refuses it.
    fn admit(
        &mut self,
        alloc: Global,
        pid: u64,
        topic: &Topic,
        key: &Key,
        bytes: usize,
    ) -> Result<(), Refusal>
        ensures port { self.new.port ≡ self.old.port }
        ensures row { Admits B.charged self.old.rations.now self.old.budgets
            (tracked self.old.rations.now pid topic.now key.now bytes) result self.new.rations.now self.new.budgets }
    {
        if self.rations.add(alloc, pid, topic, key, bytes).is_err() {
            return Err(Refusal::Table(ShardFault::OutOfMemory));
        }
        let charged = charge(&mut self.budgets, topic, amount_of(key, bytes));
        if charged.is_err() {
            self.rations.take_back(pid);
        }
        charged
    }

    // Has the last row of a connection no more, which wasn't tracked.
    fn take_back(&mut self, pid: u64, topic: &Topic, amount: Amount)
        ensures port { self.new.port ≡ self.old.port }
        ensures rows { IsNow self.old.rations.now pid (all_but_last (rows_of self.old.rations.now pid)) self.new.rations.now }
        ensures budgets { Released B.released self.old.budgets topic.now amount self.new.budgets }
    {
        self.rations.take_back(pid);
        release(&mut self.budgets, topic, amount);
    }

    // A new row is counted and charged, or refused.
    fn track<C: Call>(
        &mut self,
        alloc: Global,
        pid: u64,
        call: &C,
        track: Track<'_>,
    ) -> Result<C::Answer, Refusal>
        requires { pid ≤ 2 ^ 62 }
        ensures { RationedAs (P.step pid) B.charged B.released (books self.old.port self.old.rations.now self.old.budgets)
            (books self.new.port self.new.rations.now self.new.budgets) pid (tracks track.entry.topic.now track.entry.key.now track.entry.meta.now) (C.ask call.now)
            (seen_by (C.view call.now) result) }
    {
        let Track { topic, key, meta } = track;
        if self.rations.has(pid, topic, key) {
            return self.port.call(alloc, pid, call);
        }
        let bytes = row_bytes(topic, key, meta);
        if !self.rations.has_room(pid, topic, key, bytes) {
            return Err(Refusal::OverRation);
        }
        if let Err(refusal) = self.admit(alloc, pid, topic, key, bytes) {
            return Err(refusal);
        }
        match self.port.call(alloc, pid, call) {
            Ok(given) => Ok(given),
            Err(refusal) => {
                self.take_back(pid, topic, amount_of(key, bytes));
                Err(refusal)
            }
        }
    }

    // A change of a row that is there is counted and charged, or refused.
    fn update<C: Call>(
        &mut self,
        alloc: Global,
        pid: u64,
        call: &C,
        update: Update<'_>,
    ) -> Result<C::Answer, Refusal>
        requires { pid ≤ 2 ^ 62 }
        ensures { RationedAs (P.step pid) B.charged B.released (books self.old.port self.old.rations.now self.old.budgets)
            (books self.new.port self.new.rations.now self.new.budgets) pid (updates update.entry.topic.now update.entry.key.now update.entry.meta.now) (C.ask call.now)
            (seen_by (C.view call.now) result) }
    {
        let Update { topic, key, meta } = update;
        if !self.rations.has(pid, topic, key) {
            return self.port.call(alloc, pid, call);
        }
        let bytes = row_bytes(topic, key, meta);
        if !self.rations.has_room(pid, topic, key, bytes) {
            return Err(Refusal::OverRation);
        }
        let was = self.rations.taken_by_row(pid, topic, key);
        let now = amount_of(key, bytes);
        if let Err(refusal) = charge(&mut self.budgets, topic, now.without(was)) {
            return Err(refusal);
        }
        match self.port.call(alloc, pid, call) {
            Ok(given) => {
                self.rations.resize(pid, topic, key, bytes);
                release(&mut self.budgets, topic, was.without(now));
                Ok(given)
            }
            Err(refusal) => {
                release(&mut self.budgets, topic, now.without(was));
                Err(refusal)
            }
        }
    }

    // What a row takes is given back.
    fn untrack<C: Call>(
        &mut self,
        alloc: Global,
        pid: u64,
        call: &C,
        untrack: Untrack<'_>,
    ) -> Result<C::Answer, Refusal>
        requires { pid ≤ 2 ^ 62 }
        ensures { RationedAs (P.step pid) B.charged B.released (books self.old.port self.old.rations.now self.old.budgets)
            (books self.new.port self.new.rations.now self.new.budgets) pid (untracks untrack.entry.topic.now untrack.entry.key.now) (C.ask call.now)
            (seen_by (C.view call.now) result) }
    {
        let Untrack { topic, key } = untrack;
        match self.port.call(alloc, pid, call) {
            Ok(given) => {
                let taken = self.rations.taken_by_row(pid, topic, key);
                self.rations.forget(pid, topic, key);
                release(&mut self.budgets, topic, taken);
                Ok(given)
            }
            Err(refusal) => Err(refusal),
        }
    }

    // What all rows of the caller take of the topic is given back.
    fn untrack_all<C: Call>(
        &mut self,
        alloc: Global,
        pid: u64,
        call: &C,
        untrack_all: UntrackAll<'_>,
    ) -> Result<C::Answer, Refusal>
        requires { pid ≤ 2 ^ 62 }
        ensures { RationedAs (P.step pid) B.charged B.released (books self.old.port self.old.rations.now self.old.budgets)
            (books self.new.port self.new.rations.now self.new.budgets) pid (untracks_all untrack_all.entry.topic.now) (C.ask call.now)
            (seen_by (C.view call.now) result) }
    {
        let UntrackAll { topic } = untrack_all;
        match self.port.call(alloc, pid, call) {
            Ok(given) => {
                let taken = self.rations.taken_by_topic(pid, topic);
                self.rations.forget_topic(pid, topic);
                release(&mut self.budgets, topic, taken);
                Ok(given)
            }
            Err(refusal) => Err(refusal),
        }
    }
}

impl<P: Port + Drop, B: Budgets + Drop> Port for RationedPort<'_, P, B> {
    ghost step = { λ pid old q a new. Rationed (P.step pid) B.charged B.released (books old.port old.rations.now old.budgets) (books new.port new.rations.now new.budgets) pid q a };

    fn call<C: Call>(&mut self, alloc: Global, pid: u64, call: &C) -> Result<C::Answer, Refusal> {
        match call.question() {
            Question::Track(track) => self.track(alloc, pid, call, track),
            Question::Update(update) => self.update(alloc, pid, call, update),
            Question::Untrack(untrack) => self.untrack(alloc, pid, call, untrack),
            Question::UntrackAll(untrack_all) => self.untrack_all(alloc, pid, call, untrack_all),
            _ => self.port.call(alloc, pid, call),
        }
    }
}
