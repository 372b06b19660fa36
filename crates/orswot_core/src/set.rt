//! The set's calls.
ghost use Rattle.std.specs.Prelude.{◌≡◌, true, false, OnOk, OnErr, IfOk, IfErr, option_copied, ◌+◌};
ghost use Rattle.std.specs.List.{list_all};
ghost use Rattle.std.specs.FinSet as set;
ghost use Rattle.std.specs.FinMap as map;
ghost use Rattle.presence_base.specs.declared.dots.Dot.{Dot as DotValue};
ghost use Rattle.dot_context.specs.Sets.{HasUpTo, TellsIfAny};
ghost use Rattle.orswot_core.specs.Checks.{is_forward, WhereItFits};
ghost use Rattle.orswot_core.specs.Limits.{is_dot, is_row};
ghost use Rattle.orswot_core.specs.Telling.{covers, live_row, cut_to};
ghost use Rattle.orswot_core.specs.Full.{IsFullIn};
ghost use Rattle.orswot_core.specs.Laws.{TakesIn};
ghost use Rattle.orswot_core.specs.Sets.{with_dot, removed, IsJoin, without_replica, rows_by, rows_within};

use crate::cut::ReplicaTest;
use crate::fitting::fits_line;
use crate::form::Form;
use crate::full::full_told;
use crate::joins::{add_row, forget_rows, join_rows, parts_of, remove_rows};
use crate::plan::{JoinPlan, plan_parts};
use crate::rows::rows_in_range;
use crate::told::Told;
use dot_context::Context;
use presence_base::{Dot, MAX_COUNT, Replica, Row};
use std::alloc::{AllocError, Global};
use std::collections::BTreeMap;
use std::collections::btree_map::{Iter, Range};
use std::marker::Model;
use std::mem;

/// An observed-remove set of rows: the dots that are covered, and the rows that are live at some of
/// them. A dot that is covered and not live was removed; nothing is kept of its row.
pub struct Orswot {
    pub(crate) covered: Context,
    pub(crate) live: BTreeMap<Dot, Row>,
}

impl Drop for Orswot {
    fn drop(self) {
        let Orswot { covered, live } = self;
        drop(covered);
        drop(live);
    }
}

impl Model for Orswot {
    ghost use Rattle.orswot_core.specs.Sets.{DotRows, rows_of, IsSound};
    ghost use Rattle.orswot_core.specs.Codes.{rows_code};

    ghost Value = { DotRows };

    ghost coded = { rows_code };

    ghost view = { λ a. record { covered = a.covered; live = rows_of a.live.entries } };

    ghost invariant = { λ a. IsSound a.covered (rows_of a.live.entries) };
}

impl Orswot {
    pub fn new(alloc: Global) -> Orswot
        ensures { result ≡ record { covered = set.empty; live = map.empty } }
    {
        Orswot {
            covered: Context::new(alloc),
            live: BTreeMap::new(alloc),
        }
    }

    /// Whether the dot is covered.
    pub fn covers(&self, dot: &Dot) -> bool
        ensures { result ≡ set.contains self.now.covered dot.now }
    {
        self.covered.covers(dot)
    }

    /// The count up to which all of the replica's dots are covered.
    pub fn top(&self, replica: &Replica) -> u64
        ensures below { HasUpTo self.now.covered replica.now result }
        ensures next { set.contains self.now.covered (record { replica = replica.now; count = result + 1 }) ≡ false }
    {
        self.covered.top(replica)
    }

    /// Whether a dot of the replica is covered. Takes no memory.
    pub fn has_dots(&self, replica: &Replica) -> bool
        ensures { TellsIfAny self.now.covered replica.now result }
    {
        self.covered.has_dots(replica)
    }

    /// The row that is live at the dot.
    pub fn row(&self, dot: &Dot) -> Option<&Row>
        ensures { option_copied result ≡ map.get self.now.live dot.now }
    {
        self.live.get(dot)
    }

    /// The live rows, in order of dot. Takes no memory.
    pub fn rows(&self) -> Iter<'_, Dot, Row>
        ensures { result ≡ map.entries self.now.live }
    {
        self.live.iter()
    }

    /// The live rows of the replica, in order of dot. Takes no memory, and looks at no other rows.
    pub fn rows_of(&self, replica: &Replica) -> Range<'_, Dot, Row>
        ensures { result ≡ rows_by self.now.live replica.now }
    {
        let range = (*replica, 0, MAX_COUNT);
        rows_in_range(&self.live, &range)
    }

    /// The live rows in the range, in order of dot: those above its first count, up to its second. Takes no memory, and
    /// looks at no other rows.
    pub fn rows_in(&self, range: &(Replica, u64, u64)) -> Range<'_, Dot, Row>
        requires { is_forward range.now ≡ true }
        ensures { result ≡ rows_within self.now.live range.now }
    {
        rows_in_range(&self.live, range)
    }

    /// Covers the dot, and adds the row at it.
    pub fn add(&mut self, alloc: Global, dot: Dot, row: Row) -> Result<(), AllocError>
        requires new { set.contains self.old.covered dot ≡ false }
        requires dot { is_dot dot ≡ true }
        requires row { is_row row ≡ true }
        ensures ok { OnOk result (self.new ≡ with_dot self.old dot row) }
        ensures err { OnErr result (self.new ≡ self.old) }
    {
        add_row(&mut self.covered, &mut self.live, alloc, dot, row)
    }

    /// Takes out the rows of the dots, and covers the dots and the event of their removal.
    pub fn remove(&mut self, alloc: Global, dots: &[Dot], event: Dot) -> Result<(), AllocError>
        requires dots { list_all is_dot dots.now ≡ true }
        requires event { is_dot event ≡ true }
        ensures ok { OnOk result (self.new ≡ removed self.old dots.now event) }
        ensures err { OnErr result (self.new ≡ self.old) }
    {
        remove_rows(&mut self.covered, &mut self.live, alloc, dots, event)
    }

    /// Takes all the memory that a join with what is told needs. Where it is refused, it answers the set as it was. It costs
    /// what the told value costs, whatever the set holds.
    pub fn plan_join(self, alloc: Global, told: &Told) -> Result<JoinPlan, Orswot>
        ensures before { IfOk result (λ p. p.before ≡ self) }
        ensures joined { IfOk result (λ p. TakesIn self told.now p.after) }
        ensures err { IfErr result (λ s. s ≡ self) }
    {
        let Orswot { covered, live } = self;
        match parts_of(alloc, &covered, &live, told) {
            Ok(parts) => plan_parts(alloc, covered, live, parts),
            Err(_) => Err(Orswot { covered, live }),
        }
    }

    /// Takes in what is told. It costs what the told value costs, whatever the set holds.
    pub fn join(&mut self, alloc: Global, told: &Told) -> Result<(), AllocError>
        ensures ok { OnOk result (TakesIn self.old told.now self.new) }
        ensures err { OnErr result (self.new ≡ self.old) }
    {
        let set = mem::replace(self, Orswot::new(alloc));
        match set.plan_join(alloc, told) {
            Ok(plan) => {
                *self = plan.commit();
                Ok(())
            }
            Err(set) => {
                *self = set;
                Err(AllocError)
            }
        }
    }

    /// Takes all the memory that a join with what is told of some replicas needs: of those that the test takes.
    pub fn plan_join_some<T: ReplicaTest>(
        self,
        alloc: Global,
        told: &Told,
        test: &T,
    ) -> Result<JoinPlan, Orswot>
        ensures before { IfOk result (λ p. p.before ≡ self) }
        ensures joined { IfOk result (λ p. TakesIn self (cut_to (T.picks test.now) told.now) p.after) }
        ensures err { IfErr result (λ s. s ≡ self) }
    {
        match told.cut_to(alloc, test) {
            Ok(cut) => self.plan_join(alloc, &cut),
            Err(_) => Err(self),
        }
    }

    /// Takes in what is told of the replicas that the test takes.
    pub fn join_some<T: ReplicaTest>(
        &mut self,
        alloc: Global,
        told: &Told,
        test: &T,
    ) -> Result<(), AllocError>
        ensures ok { OnOk result (TakesIn self.old (cut_to (T.picks test.now) told.now) self.new) }
        ensures err { OnErr result (self.new ≡ self.old) }
    {
        let cut = told.cut_to(alloc, test)?;
        self.join(alloc, &cut)
    }

    /// Takes in the other set.
    pub fn join_all(&mut self, alloc: Global, other: &Orswot) -> Result<(), AllocError>
        ensures ok { OnOk result (IsJoin self.old (set.contains other.now.covered) (map.get other.now.live) self.new) }
        ensures err { OnErr result (self.new ≡ self.old) }
    {
        join_rows(
            &mut self.covered,
            &mut self.live,
            alloc,
            &other.covered,
            &other.live,
        )
    }

    /// All that is told of the set, in the form. It costs what it gives. In the first form it needs memory for each covered dot
    /// above its replica's first gap: a set that heard of a huge run above a gap can't be told in whole. In the second a run of
    /// any length is one range.
    pub fn told(&self, alloc: Global, form: Form) -> Result<Told, AllocError>
        ensures full { IfOk result (λ t. IsFullIn form self.now t) }
        ensures covers { IfOk result (λ t. (d : DotValue) → covers t d ≡ set.contains self.now.covered d) }
        ensures rows { IfOk result (λ t. (d : DotValue) → live_row t d ≡ map.get self.now.live d) }
    {
        full_told(alloc, form, &self.covered, &self.live)
    }

    /// The same where it has no more in the form than a node takes in: rows and extras in the first, rows and ranges in the second. What
    /// has more is counted by the ends of its runs, before a dot or a range is made, and needs no memory.
    pub fn fitting_told(&self, alloc: Global, form: Form) -> Result<Option<Told>, AllocError>
        ensures { IfOk result (WhereItFits form (IsFullIn form self.now)) }
    {
        if !fits_line(form, &self.covered, &self.live) {
            return Ok(None);
        }
        let told = self.told(alloc, form)?;
        Ok(Some(told))
    }

    /// Takes out the replica's dots and rows.
    pub fn forget(&mut self, replica: &Replica)
        ensures { self.new ≡ without_replica self.old replica.now }
    {
        self.covered.forget(replica);
        forget_rows(&mut self.live, replica);
    }
}
