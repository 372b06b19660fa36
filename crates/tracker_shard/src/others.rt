//! The calls that no seat makes: what is heard of other nodes, time that passes, what is told to other nodes, and a rebirth.
ghost use Rattle.std.specs.Prelude.{◌≡◌, Some};
ghost use Rattle.presence_journal.specs.Table.{outcome_of};
ghost use Rattle.presence_journal.specs.declared.entry.Outcome.TheVariants as outcomes_are;
ghost use Rattle.presence_journal.specs.declared.step.Step.TheVariants as steps_are;
ghost use Rattle.tracker_shard.specs.Calls.{always};
ghost use Rattle.presence_journal_cuts.specs.Cuts.{IsCut};

use crate::answers::cut_outcome;
use crate::call::{Call, Found};
use crate::fault::ShardFault;
use delta_range::Delta;
use orswot_core::Told;
use presence_base::Replica;
use presence_journal::{Outcome, Pairs, SharedTold, Step};
use std::alloc::Global;
use tracker_index::Indexed;

/// The call that notes that a replica was heard at a time in milliseconds.
#[derive(Clone, Copy)]
pub struct Heard {
    pub replica: Replica,
    pub now: u64,
}

impl Call for Heard {
    type Answer = ();

    ghost step = { λ c. steps_are.Heard c.replica c.now };

    ghost there = { λ c. always };

    ghost gives = { λ c h _. Unit {0} };

    fn is_there(&self, _table: &Indexed) -> bool {
        true
    }

    #[tactic(auto, using(crate::proofs::Tables::tables, crate::proofs::Doors::finding))]
    fn find(&self, alloc: Global, _table: &mut Indexed) -> Result<Found<()>, ShardFault> {
        let step = Step::heard(alloc, self.replica, self.now)?;
        Ok(Found {
            step,
            outcome: Outcome::Noted,
            answer: Ok(()),
        })
    }
}

/// The call that lets time pass.
#[derive(Clone, Copy)]
pub struct Tick {
    pub now: u64,
}

impl Call for Tick {
    type Answer = ();

    ghost step = { λ c. steps_are.Tick c.now };

    ghost there = { λ c. always };

    ghost gives = { λ c h _. Unit {0} };

    fn is_there(&self, _table: &Indexed) -> bool {
        true
    }

    #[tactic(auto, using(crate::proofs::Tables::tables, crate::proofs::Doors::finding))]
    fn find(&self, _alloc: Global, _table: &mut Indexed) -> Result<Found<()>, ShardFault> {
        Ok(Found {
            step: Step::Tick { now: self.now },
            outcome: Outcome::Noted,
            answer: Ok(()),
        })
    }
}

/// The call that notes that a replica is gone for good.
#[derive(Clone, Copy)]
pub struct PermDown {
    pub replica: Replica,
}

impl Call for PermDown {
    type Answer = ();

    ghost step = { λ c. steps_are.PermDown c.replica };

    ghost there = { λ c. always };

    ghost gives = { λ c h _. Unit {0} };

    fn is_there(&self, _table: &Indexed) -> bool {
        true
    }

    #[tactic(auto, using(crate::proofs::Tables::tables, crate::proofs::Doors::finding))]
    fn find(&self, alloc: Global, _table: &mut Indexed) -> Result<Found<()>, ShardFault> {
        let step = Step::permdown(alloc, self.replica)?;
        Ok(Found {
            step,
            outcome: Outcome::Noted,
            answer: Ok(()),
        })
    }
}

/// The call that tells what the own replica did since the last cut.
#[derive(Clone, Copy)]
pub struct Cut;

impl Call for Cut {
    type Answer = Delta;

    ghost step = { λ c. steps_are.Cut };

    ghost there = { λ c. always };

    ghost gives = { λ c h delta. IsCut h delta };

    fn is_there(&self, _table: &Indexed) -> bool {
        true
    }

    #[tactic(auto, using(crate::proofs::Tables::tables, crate::proofs::Doors::finding))]
    fn find(&self, alloc: Global, table: &mut Indexed) -> Result<Found<Delta>, ShardFault> {
        let delta = table.cut(alloc)?;
        let outcome = cut_outcome(&delta);
        Ok(Found {
            step: Step::Cut,
            outcome,
            answer: Ok(delta),
        })
    }
}

/// The call that takes in what another node told. The journal's entry shares it.
#[derive(Clone, Copy)]
pub struct Merge<'a> {
    pub told: &'a SharedTold,
}

impl Call for Merge<'_> {
    type Answer = ();

    ghost step = { λ c. steps_are.Merge c.told.now };

    ghost there = { λ c. always };

    ghost gives = { λ c h _. Unit {0} };

    fn is_there(&self, _table: &Indexed) -> bool {
        true
    }

    #[tactic(auto, using(crate::proofs::Tables::tables, crate::proofs::Doors::finding))]
    fn find(&self, _alloc: Global, _table: &mut Indexed) -> Result<Found<()>, ShardFault> {
        let step = Step::merge_shared(self.told)?;
        Ok(Found {
            step,
            outcome: Outcome::Merged,
            answer: Ok(()),
        })
    }
}

/// The call that takes in a copy of what another node told.
#[derive(Clone, Copy)]
pub struct MergeCopy<'a> {
    pub told: &'a Told,
}

impl Call for MergeCopy<'_> {
    type Answer = ();

    ghost step = { λ c. steps_are.Merge c.told.now };

    ghost there = { λ c. always };

    ghost gives = { λ c h _. Unit {0} };

    fn is_there(&self, _table: &Indexed) -> bool {
        true
    }

    #[tactic(auto, using(crate::proofs::Tables::tables, crate::proofs::Doors::finding))]
    fn find(&self, alloc: Global, _table: &mut Indexed) -> Result<Found<()>, ShardFault> {
        let step = Step::merge(alloc, self.told)?;
        Ok(Found {
            step,
            outcome: Outcome::Merged,
            answer: Ok(()),
        })
    }
}

/// The call by which a shard goes on under a higher incarnation. It answers each new dot with its old one; the journal's entry
/// shares them.
#[derive(Clone, Copy)]
pub struct Rebirth {
    pub incarnation: u64,
}

impl Call for Rebirth {
    type Answer = Pairs;

    ghost step = { λ c. steps_are.Rebirth c.incarnation };

    ghost there = { λ c. always };

    ghost gives = { λ c h pairs. outcome_of h (steps_are.Rebirth c.incarnation) ≡ Some (outcomes_are.Reborn pairs) };

    fn is_there(&self, _table: &Indexed) -> bool {
        true
    }

    #[tactic(auto, using(crate::proofs::Tables::tables, crate::proofs::Doors::finding))]
    fn find(&self, alloc: Global, table: &mut Indexed) -> Result<Found<Pairs>, ShardFault> {
        if !table.can_be_reborn(self.incarnation) {
            return Err(ShardFault::BadIncarnation);
        }
        let pairs = table.pairs_of(alloc, self.incarnation)?;
        let answer = pairs.clone()?;
        Ok(Found {
            step: Step::Rebirth {
                incarnation: self.incarnation,
            },
            outcome: Outcome::Reborn(pairs),
            answer: Ok(answer),
        })
    }
}
