//! The set of dots.
ghost use Rattle.std.specs.Prelude.{◌≡◌, ◌≤◌, ◌+◌, false, OnOk, OnErr, IfOk, IfErr};
ghost use Rattle.std.specs.FinSet as set;
ghost use Rattle.dot_context.specs.Sets.{DotSet, HasUpTo, TellsIfAny, range, others_dots};
ghost use Rattle.dot_context.specs.Forms.{vector_of, cloud_of, tops_of, HasOneForm, IfFormed};

use crate::plan::ContextPlan;
use crate::replicas::{covers_dot, has_runs, join_all, put_range, take_out, top_of_replica};
use crate::runs::Runs;
use crate::views::{Cloud, Ranges, ReplicaRuns, Tops};
use presence_base::{Dot, Replica};
use std::alloc::{AllocError, Global};
use std::collections::BTreeMap;
use std::marker::Model;

/// A set of dots: for each replica the count up to which all are there, and above it the longest runs
/// (the version vector and the cloud of Bieniusa et al., 2012).
///
/// A range of any length takes one entry. `covers` and `top` search, and cost the logarithm of the number of runs.
pub struct Context {
    pub(crate) replicas: BTreeMap<Replica, Runs>,
}

impl Drop for Context {
    fn drop(self) {
        let Context { replicas } = self;
        drop(replicas);
    }
}

impl Model for Context {
    ghost use Rattle.std.specs.FinSet as set;
    ghost use Rattle.presence_base.specs.Codes.{dot_code};
    ghost use Rattle.dot_context.specs.Sets.{DotSet, set_of, IsCompact};

    ghost Value = { DotSet };

    ghost coded = { set.code dot_code };

    ghost view = { λ a. set_of a.replicas.entries };

    ghost invariant = { λ a. IsCompact a.replicas };
}

impl Context {
    /// The empty set.
    pub fn new(alloc: Global) -> Context
        ensures { result ≡ set.empty }
    {
        Context {
            replicas: BTreeMap::new(alloc),
        }
    }

    /// Whether the dot is in the set.
    pub fn covers(&self, dot: &Dot) -> bool
        ensures { result ≡ set.contains self.now dot.now }
    {
        covers_dot(&self.replicas, dot)
    }

    /// The count up to which all of the replica's dots are in the set.
    pub fn top(&self, replica: &Replica) -> u64
        ensures below { HasUpTo self.now replica.now result }
        ensures next { set.contains self.now (record { replica = replica.now; count = result + 1 }) ≡ false }
    {
        top_of_replica(&self.replicas, replica)
    }

    /// Whether a dot of the replica is in the set. Takes no memory.
    pub fn has_dots(&self, replica: &Replica) -> bool
        ensures { TellsIfAny self.now replica.now result }
    {
        has_runs(&self.replicas, replica)
    }

    /// Adds the dots above `from`, up to `to`. The cost is that of one search and of the runs that the range swallows,
    /// whatever its length.
    pub fn add_range(
        &mut self,
        alloc: Global,
        replica: Replica,
        from: u64,
        to: u64,
    ) -> Result<(), AllocError>
        ensures ok { OnOk result (self.new ≡ set.union self.old (range replica from to)) }
        ensures err { OnErr result (self.new ≡ self.old) }
    {
        if from >= to {
            return Ok(());
        }
        put_range(&mut self.replicas, alloc, replica, from, to)
    }

    /// Adds the dot.
    pub fn add(&mut self, alloc: Global, dot: Dot) -> Result<(), AllocError>
        requires { 1 ≤ dot.count }
        ensures ok { OnOk result (self.new ≡ set.insert self.old dot) }
        ensures err { OnErr result (self.new ≡ self.old) }
    {
        let Dot { replica, count } = dot;
        self.add_range(alloc, replica, count - 1, count)
    }

    /// Adds the dots of `other`, or none where memory is refused. The cost is that of a few searches for each run of `other`,
    /// however large the set is.
    pub fn join(&mut self, alloc: Global, other: &Context) -> Result<(), AllocError>
        ensures ok { OnOk result (self.new ≡ set.union self.old other.now) }
        ensures err { OnErr result (self.new ≡ self.old) }
    {
        join_all(&mut self.replicas, alloc, &other.replicas)
    }

    /// Makes room for the dots of `more`, which then come in without memory. Where memory is refused, it answers the set as it
    /// was. The cost is that of `join`.
    pub fn plan_join(self, alloc: Global, more: Context) -> Result<ContextPlan, Context>
        ensures ok { IfOk result (λ p. p ≡ record { held = self; more = more }) }
        ensures err { IfErr result (λ s. s ≡ self) }
    {
        let Context { replicas } = self;
        let Context { replicas: more } = more;
        ContextPlan::new(alloc, replicas, more)
    }

    /// Takes out the replica's dots. Takes no memory.
    pub fn forget(&mut self, replica: &Replica)
        ensures { self.new ≡ others_dots self.old replica.now }
    {
        take_out(&mut self.replicas, replica);
    }

    /// The vector: each replica of which the count 1 is in the set, with the count up to which all are. Takes no memory.
    pub fn ranges(&self) -> Ranges<'_>
        ensures { IfFormed self.now (λ f. result ≡ vector_of f) }
    {
        Ranges {
            entries: self.replicas.iter(),
        }
    }

    /// The tops: each replica that has dots in the set, with the count up to which all are, which may be 0. Takes no memory.
    pub fn tops(&self) -> Tops<'_>
        ensures { IfFormed self.now (λ f. result ≡ tops_of f) }
    {
        Tops {
            entries: self.replicas.iter(),
        }
    }

    /// The cloud: each replica that has dots above its first gap, with the runs of these. Takes no memory.
    pub fn cloud(&self) -> Cloud<'_>
        ensures { IfFormed self.now (λ f. result ≡ cloud_of f) }
    {
        Cloud {
            entries: self.replicas.iter(),
        }
    }

    /// The runs: each replica that has dots in the set, with its longest runs. Takes no memory.
    pub fn runs(&self) -> ReplicaRuns<'_>
        ensures { IfFormed self.now (λ f. result ≡ f) }
    {
        ReplicaRuns {
            entries: self.replicas.iter(),
        }
    }
}

/// Equal sets have equal forms.
pub fn one_form()
    ensures { (s : DotSet) → HasOneForm s }
{}
