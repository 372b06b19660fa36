//! What a node told once.
ghost use Rattle.std.specs.Prelude.{◌≡◌, true, Some, IfOk};
ghost use Rattle.std.specs.List.{list_all};
ghost use Rattle.orswot_core.specs.Limits.{are_texts};
ghost use Rattle.delta_range.specs.Deltas.{telling_in, IsDelta};
ghost use Rattle.presence_journal.specs.StepLimits.{is_heard, is_named};
ghost use Rattle.presence_journal.specs.Table.{is_step};
ghost use Rattle.node_world.specs.Others.{of_others};

use crate::others::OtherNodes;
use delta_range::Delta;
use orswot_core::{Form, Told};
use presence_base::{Dot, Replica, Row};
use presence_journal::{SharedTold, Step};
use std::alloc::{AllocError, Global};
use std::marker::Model;

#[derive(Drop)]
enum Source {
    Cut(Delta, Form),
    Whole(Told),
}

/// What a node told once, seen by contracts as the told value. A cut stays the delta that it is, so that keeping it takes no
/// memory.
pub struct Telling {
    source: Source,
}

impl Drop for Telling {
    fn drop(self) {
        let Telling { source } = self;
        drop(source);
    }
}

impl Model for Telling {
    ghost use Rattle.std.specs.Prelude.{◌≡◌, true};
    ghost use Rattle.orswot_core.specs.Telling.{ToldValue};
    ghost use Rattle.orswot_core.specs.ToldCodes.{told_code};
    ghost use Rattle.presence_journal.specs.StepLimits.{is_heard};
    ghost use Rattle.node_world.specs.Tellings.{told_by};

    ghost Value = { ToldValue };

    ghost coded = { told_code };

    ghost view = { λ t. told_by t.source };

    ghost invariant = { λ t. is_heard (told_by t.source) ≡ true };
}

fn read_row(row: &(Dot, Row))
    ensures names { is_named row.now ≡ true }
    ensures texts { are_texts row.now.1 ≡ true }
{
    let _name = row.0.replica.name.as_str();
    let (_topic, _key, _meta) = (row.1.topic.as_str(), row.1.key.as_str(), row.1.meta.text());
}

// Reads the names and texts of rows, whose types keep their limits.
fn read_rows(live: &[(Dot, Row)])
    ensures names { list_all is_named live.now ≡ true }
    ensures texts { list_all (λ x. are_texts x.1) live.now ≡ true }
{
    for row in live {
        read_row(row);
    }
}

// What a delta tells is within the limits of what is heard.
#[tactic(auto, using(crate::proofs::Tellings::heard))]
fn read_delta(delta: &Delta, form: Form)
    ensures { is_heard (telling_in form delta.now) ≡ true }
{
    read_rows(delta.live());
}

#[tactic(auto, using(crate::proofs::Tellings::heard))]
fn read_told(told: &Told)
    ensures { is_heard told.now ≡ true }
{
    read_rows(told.live());
}

impl Telling {
    /// What a cut tells in the form. Takes no memory.
    pub fn of_cut(delta: Delta, form: Form) -> Telling
        ensures tells { result ≡ telling_in form delta }
        ensures delta { IsDelta delta }
        ensures limits { is_heard result ≡ true }
    {
        read_delta(&delta, form);
        Telling {
            source: Source::Cut(delta, form),
        }
    }

    /// What is told in whole. Takes no memory.
    pub fn of_told(told: Told) -> Telling
        ensures tells { result ≡ told }
        ensures limits { is_heard result ≡ true }
    {
        read_told(&told);
        Telling {
            source: Source::Whole(told),
        }
    }

    fn told(&self, alloc: Global) -> Result<Told, AllocError>
        ensures { IfOk result (λ t. t ≡ self.now) }
    {
        match &self.source {
            Source::Cut(delta, form) => delta.told(alloc, *form),
            Source::Whole(told) => told.clone(),
        }
    }

    /// The step that takes it in.
    pub fn step(&self, alloc: Global) -> Result<Step, AllocError>
        ensures step { IfOk result (λ s. s ≡ Step.Merge self.now) }
        ensures limits { IfOk result (λ s. is_step s ≡ true) }
    {
        // Read for the proof alone: what was told is within its limits.
        let _source = &self.source;
        let told = SharedTold::new(alloc, self.told(alloc)?)?;
        Ok(Step::Merge { told })
    }

    /// The step that takes in what it tells of other nodes than the one of which this is a life.
    pub fn step_of_others(&self, alloc: Global, own: &Replica) -> Result<Step, AllocError>
        ensures step { IfOk result (λ s. s ≡ Step.Merge (of_others (Some own.now) self.now)) }
        ensures limits { IfOk result (λ s. is_step s ≡ true) }
    {
        let told = self.told(alloc)?;
        let others = told.cut_to(alloc, &OtherNodes { own: *own })?;
        read_told(&others);
        let told = SharedTold::new(alloc, others)?;
        Ok(Step::Merge { told })
    }
}
