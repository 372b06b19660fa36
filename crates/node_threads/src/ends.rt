//! The two ends of the queue: the acceptor's, which numbers connections, and the workers'.
ghost use Rattle.std.specs.Prelude.{◌≡◌, ◌<◌, ◌≤◌, ◌+◌, true, IfOk, MatchResult};
ghost use Rattle.std.specs.Arc.{arc_value};
ghost use Rattle.crossbeam_queue.specs.Passes.{view, IsPassOf, ruled_capacity};
ghost use Rattle.node_threads.specs.Rising.{GivesNumber};
ghost use Rattle.node_threads.specs.declared.numbered.TheConstants.{LAST_NUMBER};
ghost use Rattle.node_threads.specs.declared.queue.TheConstants.{MAX_QUEUED};

use crate::numbered::{LAST_NUMBER, Numbered};
use crate::queue::{Knowledge, Line, MAX_QUEUED, give, line, take, taker};
use crossbeam_queue::Pass;
use std::alloc::{AllocError, Global};
use std::sync::{Arc, Wait};
use thiserror::Error;

/// Why a connection was dropped.
#[derive(Clone, Copy, PartialEq, Eq, Debug, Error)]
pub enum GiveFault {
    #[error("256 connections wait for a worker, and no more may")]
    Full,
    #[error("no number is left for a connection")]
    Spent,
}

/// That no connection waited when a worker's end looked. Only such a look makes one.
#[derive(Clone, Copy, PartialEq, Eq, Debug)]
pub struct NoneWaits {
    looked: (),
}

/// The acceptor's end. Its next number lies above each that it pushed.
#[derive(Drop)]
pub struct Giver<S: Drop> {
    line: Arc<Line<S>>,
    pass: Pass<Numbered<S>, Knowledge>,
    next: u64,
    ghost room: { ruled_capacity (arc_value line) ≡ MAX_QUEUED },
    ghost ours: { IsPassOf (arc_value line) pass },
    ghost pushes: { (view pass).pushes ≡ true },
    ghost below: { (view pass).pushed < next },
    ghost within: { next ≤ LAST_NUMBER + 1 },
}

/// A worker's end.
#[derive(Drop)]
pub struct Taker<S: Drop> {
    line: Arc<Line<S>>,
    pass: Pass<Numbered<S>, Knowledge>,
    ghost ours: { IsPassOf (arc_value line) pass },
}

impl<S: Drop> Giver<S> {
    /// A new queue. Numbers begin at 1.
    pub fn new(alloc: Global) -> Result<Giver<S>, AllocError>
        ensures { IfOk result (λ giver. giver.next ≡ 1) }
    {
        let (queue, pass) = line(alloc)?;
        let line = Arc::new(alloc, queue)?;
        Ok(Giver {
            line,
            pass,
            next: 1,
        })
    }

    /// A worker's end of the same queue, which has taken nothing.
    pub fn taker(&mut self) -> Result<Taker<S>, AllocError>
        ensures next { self.new.next ≡ self.old.next }
        ensures taker { IfOk result (λ taker. (view taker.pass).taken ≡ 0) }
        ensures pops { IfOk result (λ taker. (view taker.pass).pops ≡ 0) }
    {
        let line = Arc::try_clone(&self.line)?;
        let pass = taker(&self.line, &mut self.pass);
        Ok(Taker { line, pass })
    }

    /// Hands a connection over under the next number. It is dropped where the queue is full or the
    /// numbers are at their end.
    #[tactic(auto, using(crate::proofs::Risings::full_below))]
    pub fn give<R: Wait>(&mut self, rt: &R, stream: S) -> Result<u64, GiveFault>
        ensures { GivesNumber S self.old.next self.new.next result }
    {
        let number = self.next;
        if number > LAST_NUMBER {
            return Err(GiveFault::Spent);
        }
        match give(rt, &self.line, &mut self.pass, Numbered { number, stream }) {
            Ok(()) => {
                self.next = number + 1;
                Ok(number)
            }
            Err(_) => Err(GiveFault::Full),
        }
    }
}

impl<S: Drop> Taker<S> {
    /// The oldest connection that waits, or that none does. Its number is above each that this end took before. No other
    /// leaves the queue.
    pub fn take<R: Wait>(&mut self, rt: &R) -> Result<Numbered<S>, NoneWaits>
        ensures rises { MatchResult result
            (λ c. ((view self.old.pass).taken < c.number) × ((view self.new.pass).taken ≡ c.number))
            (λ _. (view self.new.pass).taken ≡ (view self.old.pass).taken) }
        ensures one { MatchResult result
            (λ c. (view self.new.pass).pops ≡ (view self.old.pass).pops + 1)
            (λ _. (view self.new.pass).pops ≡ (view self.old.pass).pops) }
    {
        match take(rt, &self.line, &mut self.pass) {
            Some(connection) => Ok(connection),
            None => Err(NoneWaits { looked: () }),
        }
    }
}
