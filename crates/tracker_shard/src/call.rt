//! What the calls of a shard have in common.
use crate::fault::ShardFault;
use presence_journal::{Outcome, Step};
use std::alloc::Global;
use tracker_index::Indexed;

/// What a call comes to where no refusal of the shard's stands against it: its entry's step and outcome, and the answer that
/// is given once the entry is there, which may be a refusal of the table's.
#[derive(Drop)]
pub struct Found<A> {
    pub step: Step,
    pub outcome: Outcome,
    pub answer: Result<A, ShardFault>,
}

/// A call of a shard: its step, and how its answer is read from what the table has.
pub trait Call {
    ghost use Rattle.std.specs.Prelude.{◌≡◌, Bool, true};
    ghost use Rattle.presence_journal.specs.declared.step.Step.{Step as StepValue};
    ghost use Rattle.presence_journal.specs.History.{History};
    ghost use Rattle.tracker_shard.specs.Calls.{Finds};

    /// What it answers where it is accepted.
    type Answer: Drop;

    /// Its step.
    ghost step: { Self → StepValue };

    /// Whether the subscriber that it names, if it names one, is there.
    ghost there: { Self → History → Bool };

    /// What is answered by a shard of a history where the call is accepted.
    ghost gives: { Self → History → Self.Answer → Type 0 };

    /// Whether the subscriber that it names is there.
    fn is_there(&self, table: &Indexed) -> bool
        ensures { result ≡ there self.now table.now.history };

    /// What it comes to. Nothing is changed by that.
    fn find(&self, alloc: Global, table: &mut Indexed) -> Result<Found<Self::Answer>, ShardFault>
        requires ready { table.old.is_ready ≡ true }
        requires there { there self.now table.old.history ≡ true }
        ensures same { table.new ≡ table.old }
        ensures found { Finds (gives self.now table.old.history) table.old.history (step self.now) result };
}

/// A call that a seat makes.
pub trait SeatCall: Call {
    ghost use Rattle.std.specs.Prelude.{◌≡◌, true};
    ghost use Rattle.tracker_shard.specs.Calls.{is_callers};

    /// Its step is one that a caller asks for.
    ghost callers: { (c : Self) → is_callers (Self.step c) ≡ true };
}
