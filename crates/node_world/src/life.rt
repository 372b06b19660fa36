//! One life of a node, with each row that it made.
ghost use Rattle.std.specs.Prelude.{◌≡◌, true, IfOk, OnOk, OnErr};
ghost use Rattle.presence_base.specs.Refs.{IsCount};
ghost use Rattle.presence_journal.specs.Table.{accepted, is_step, outcome_of, IsLegal};
ghost use Rattle.presence_journal.specs.History.{IsTop, count, status};
ghost use Rattle.node_world.specs.GoingOn.{going_on};
ghost use Rattle.node_world.specs.Living.{Cuts, BeginsAgain};
ghost use Rattle.node_world.specs.Taken.{RefusesMissing};
ghost use Rattle.node_world.specs.World.{newborn, stepped, TellsPartIf, TellsWhole};

use crate::going_on::made_rows;
use crate::refused::refused;
use crate::telling::Telling;
use crate::{steps, taking};
use orswot_core::Form;
use presence_base::{Dot, Replica, Row};
use presence_journal::{Journal, Step};
use replica_status::Status;
use std::alloc::{AllocError, Global};
use std::marker::Model;
use tracker_shard::{Call, Shard};

/// One life of a node: its shard, and each row that its own steps ever added, with its dot.
pub struct Life {
    shard: Shard,
    made: Vec<(Dot, Row)>,
}

impl Drop for Life {
    fn drop(self) {
        let Life { shard, made } = self;
        drop(shard);
        drop(made);
    }
}

impl Model for Life {
    ghost use Rattle.node_world.specs.World.{LifeValue};
    ghost use Rattle.node_world.specs.LifeCodes.{life_code};

    ghost Value = { LifeValue };

    ghost coded = { life_code };

    ghost view = { λ l. record { history = l.shard; made = l.made.items } };
}

impl Life {
    /// A new life, with nothing.
    pub fn new(alloc: Global, own: Replica) -> Life
        requires { IsCount own.incarnation }
        ensures { result ≡ newborn own }
    {
        Life {
            shard: Shard::new(alloc, own),
            made: Vec::new(alloc),
        }
    }

    pub fn journal(&self) -> &Journal
        ensures journal { result.now ≡ self.now.history }
        ensures legal { IsLegal self.now.history }
    {
        self.shard.journal()
    }

    /// How many counts it used.
    #[tactic(auto, using(crate::proofs::LifeFacts::counted))]
    pub fn count(&self) -> u64
        ensures { result ≡ count self.now.history }
    {
        self.shard.top(&self.shard.journal().own())
    }

    /// The count up to which all of a replica's dots are covered.
    pub fn top(&self, replica: &Replica) -> u64
        ensures { IsTop self.now.history replica.now result }
    {
        self.shard.top(replica)
    }

    pub fn status(&self, replica: &Replica) -> Status
        ensures { result ≡ status self.now.history replica.now }
    {
        self.shard.status(replica)
    }

    /// A step.
    pub fn step(&mut self, alloc: Global, step: &Step) -> Result<(), AllocError>
        requires { is_step step.now ≡ true }
        ensures stepped { OnOk result (self.new ≡ stepped step.now self.old) }
        ensures same { OnErr result (self.new ≡ self.old) }
    {
        steps::take(self, alloc, step)
    }

    /// The step of a call.
    #[tactic(auto, using(crate::proofs::LifeFacts::parts_same))]
    pub(crate) fn call<C: Call>(&mut self, alloc: Global, call: &C) -> Result<(), AllocError>
        requires { RefusesMissing (C.there call.now self.old.history)
            (outcome_of self.old.history (C.step call.now)) }
        ensures stepped { OnOk result (self.new ≡ stepped (C.step call.now) self.old) }
        ensures same { OnErr result (self.new ≡ self.old) }
    {
        taking::take(&mut self.shard, &mut self.made, alloc, call)
    }

    /// What it did since its last cut, in the form, where there is room for the entry.
    #[tactic(auto, using(crate::proofs::LifeFacts::parts_same))]
    pub fn cut(&mut self, alloc: Global, form: Form) -> Result<Option<Telling>, AllocError>
        ensures history { IfOk result (Cuts form self.old.history self.new.history) }
        ensures made { self.new.made ≡ self.old.made }
        ensures same { OnErr result (self.new ≡ self.old) }
    {
        taking::cut(&mut self.shard, alloc, form)
    }

    /// All that it knows, or what a node missed that knows its dots up to a count, in the form.
    pub fn told(
        &mut self,
        alloc: Global,
        from: Option<u64>,
        form: Form,
    ) -> Result<Telling, AllocError>
        ensures same { self.new ≡ self.old }
        ensures told { IfOk result (TellsWhole form self.old.history from) }
    {
        taking::told(&mut self.shard, alloc, from, form)
    }

    /// A part of what a node missed that knows its dots up to a count, in the form: as far as fits a line, or up to a count.
    pub fn part(
        &mut self,
        alloc: Global,
        from: u64,
        to: Option<u64>,
        form: Form,
    ) -> Result<Option<Telling>, AllocError>
        ensures same { self.new ≡ self.old }
        ensures told { IfOk result (TellsPartIf form self.old.history from) }
    {
        taking::part(&mut self.shard, alloc, from, to, form)
    }

    /// Puts a Start in the place of its journal, where a number is left.
    #[tactic(auto, using(crate::proofs::LifeFacts::parts_same))]
    pub fn checkpoint(&mut self, alloc: Global) -> Result<(), AllocError>
        ensures history { OnOk result (BeginsAgain self.old.history self.new.history) }
        ensures made { self.new.made ≡ self.old.made }
        ensures same { OnErr result (self.new ≡ self.old) }
    {
        taking::checkpoint(&mut self.shard, alloc)
    }

    /// The life that goes on from this one under a higher incarnation, where it can; this one stays as it was. It costs what each
    /// entry of the journal did when it was made.
    pub fn reborn(&self, alloc: Global, incarnation: u64) -> Result<Option<Life>, AllocError>
        ensures { IfOk result (λ o. o ≡ going_on incarnation self.now
            (accepted self.now.history (Step.Rebirth incarnation))) }
    {
        let copy = self.journal().clone()?;
        let mut shard = Shard::of_journal(alloc, copy)?;
        match shard.rebirth(alloc, incarnation) {
            Ok(pairs) => {
                let made = made_rows(alloc, shard.journal(), pairs.as_slice())?;
                Ok(Some(Life { shard, made }))
            }
            Err(fault) => {
                refused(fault)?;
                Ok(None)
            }
        }
    }
}
