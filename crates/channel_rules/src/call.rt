//! What the calls of a session have in common.
ghost use Rattle.std.specs.Prelude.{◌≡◌, is_some, true, Some};
ghost use Rattle.presence_journal.specs.declared.step.Step.TheVariants as steps_are;
ghost use Rattle.tracker_shard.specs.Calls.{always};
ghost use Rattle.channel_rules.specs.Questions.{given_as};

use crate::question::{Question, Told};
use std::alloc::Global;
use tracker_index::Indexed;
use tracker_shard::{Call as ShardCall, Found, SeatCall, ShardFault, Sub};

/// What a call comes to at the shard that has its topic.
#[derive(Drop)]
pub enum AtShard<S> {
    Step(S),
    /// It only asks whether something waits for this subscriber.
    Waits(Sub),
}

/// A call of a session: what it asks, and what it is given where it is accepted.
pub trait Call {
    ghost use Rattle.std.specs.Prelude.{◌≡◌, ◌≤◌, ◌^◌, option_map};
    ghost use Rattle.channel_rules.specs.Asks.{Ask, Given};
    ghost use Rattle.channel_rules.specs.Questions.{asks, given_as};
    ghost use Rattle.channel_rules.specs.Shards.{ComesTo};

    type Answer: Drop;

    /// The call of a shard that it is, which a seat makes.
    type Step: SeatCall<Answer = Self::Answer> + Drop;

    ghost ask: { Self → Ask };

    /// What is given, wherever it lies in memory.
    ghost view: { (c : Self) → Self.Answer → Given (ask c) };

    fn question(&self) -> Question<'_>
        ensures { asks result ≡ ask self.now };

    /// The answer that this is, where the call asks for such a one.
    fn answer(&self, told: Told) -> Option<Self::Answer>
        ensures { option_map (view self.now) result ≡ given_as (ask self.now) told };

    /// What it comes to, by the session of this number.
    fn at_shard(&self, pid: u64) -> AtShard<Self::Step>
        requires { pid ≤ 2 ^ 62 }
        ensures { ComesTo Self.Step.step Self.Step.there Self.Step.gives pid (ask self.now) (view self.now) result };
}

/// The step of a call that makes none: no call comes to it, and a shard does nothing for it.
#[derive(Clone, Copy)]
pub struct NoStep;

impl ShardCall for NoStep {
    type Answer = bool;

    ghost step = { λ c. steps_are.Unsubscribe 0 };

    ghost there = { λ c. always };

    ghost gives = { λ c h x. Unit {0} };

    fn is_there(&self, _table: &Indexed) -> bool {
        true
    }

    fn find(&self, _alloc: Global, _table: &mut Indexed) -> Result<Found<bool>, ShardFault> {
        Err(ShardFault::OutOfMemory)
    }
}

impl SeatCall for NoStep {
    ghost use Rattle.std.specs.Prelude.{refl};

    ghost callers = { λ c. refl };
}

/// The answer that this is to a call that asks for such a one.
pub fn told_to<C: Call>(call: &C, told: Told) -> C::Answer
    requires { is_some (given_as (C.ask call.now) told) ≡ true }
    ensures { given_as (C.ask call.now) told ≡ Some (C.view call.now result) }
{
    match call.answer(told) {
        Some(answer) => answer,
        None => unreachable!(),
    }
}
