//! What is known.
ghost use Rattle.std.specs.Prelude.{◌≡◌, ℕ, IfOk, OnOk, OnErr, option_copied, true};
ghost use Rattle.presence_journal.specs.StepLimits.{is_heard};
ghost use Rattle.presence_journal.specs.History.{History, Begin, begun, own, covered, count as counted, status, time as time_in, IsTop};
ghost use Rattle.presence_journal.specs.Laws.{is_callers};
ghost use Rattle.orswot_core.specs.declared.form.Form.TheVariants.{Two};
ghost use Rattle.presence_journal.specs.Walk.{is_rebirth};
ghost use Rattle.presence_journal.specs.Table.{can_be_reborn, pairs_for};
ghost use Rattle.orswot_core.specs.Checks.{WhereItFits};
ghost use Rattle.presence_journal_known.specs.Full.{IsFullOf};
ghost use Rattle.presence_journal_known.specs.LeftOut.{HoldsCovered};
ghost use Rattle.tracker_known.specs.Known.{IsKnownOf, IsOfOne, CanFollow, Follows, FollowsStep, Stays, kept, next_left, AreRowsOf};
ghost use Rattle.tracker_known.specs.Starts.{ListsStandings};
ghost use Rattle.tracker_known.specs.Turns.{TurnsEntry, TurnsStep};

use crate::again::rows_again;
use crate::fading::{forget_faded, forget_other};
use crate::listing::read_rows;
use crate::merge_turn::turn_of_merge;
use crate::others::{Others, is_gone, is_same, is_up, reborn};
use crate::own::{join_heard, take_own};
use crate::starting::{others_of, set_of};
use crate::told_again::join_again;
use crate::turn::{rows_added, rows_dropped, rows_of_replica, rows_taken, turn_of_replica};
use orswot_core::{Form, Orswot, Told};
use presence_base::{Dot, MAX_COUNT, Replica, Row};
use presence_journal::{Entry, Pairs, Start, Step, own_after};
use presence_journal_known::{can_go_on, number_dots, reborn_pairs, used_by};
use presence_journal_lists::Standings;
use replica_status::Status;
use std::alloc::{AllocError, Global};
use std::collections::btree_map::Range;
use tracker_shown::Turn;

/// What a shard knows of its history: the dots that are covered, with their live rows, without those of
/// replicas that are gone; the standings of the other replicas; and how many counts its own has used.
pub struct Known {
    pub(crate) set: Orswot,
    pub(crate) others: Others,
    count: u64,
}

impl Drop for Known {
    fn drop(self) {
        let Known {
            set,
            others,
            count: _,
        } = self;
        drop(set);
        drop(others);
    }
}

impl Known {
    /// What a new shard knows.
    pub fn new(alloc: Global, own: Replica) -> Known
        ensures { IsKnownOf (begun own) result }
    {
        Known {
            set: Orswot::new(alloc),
            others: Others::new(alloc, own),
            count: 0,
        }
    }

    /// What a shard knows that goes on from a Start.
    pub fn of_start(alloc: Global, start: &Start) -> Result<Known, AllocError>
        ensures { IfOk result (IsKnownOf (Begin start.now)) }
    {
        let others = others_of(start)?;
        let set = set_of(alloc, start, &others)?;
        Ok(Known {
            set,
            others,
            count: start.count,
        })
    }

    /// Whether the dot is covered. Takes no memory.
    pub fn covers(&self, dot: &Dot) -> bool
        ensures { (h : History) → IsKnownOf h self.now → result ≡ covered h dot.now }
    {
        self.set.covers(dot)
    }

    /// The count up to which all of a replica's dots are covered. Takes no memory.
    pub fn top(&self, replica: &Replica) -> u64
        ensures { (h : History) → IsKnownOf h self.now → IsTop h replica.now result }
    {
        self.set.top(replica)
    }

    /// The status of a replica. Takes no memory.
    pub fn status(&self, replica: &Replica) -> Status
        ensures { (h : History) → IsKnownOf h self.now → result ≡ status h replica.now }
    {
        self.others.status(replica)
    }

    /// The live row of the dot, where its replica is not gone. Takes no memory.
    pub fn row(&self, dot: &Dot) -> Option<&Row>
        ensures { (h : History) → IsKnownOf h self.now → option_copied result ≡ kept h dot.now }
    {
        self.set.row(dot)
    }

    /// The set of what is covered with its live rows, without the replicas that are gone. Takes no memory.
    pub fn set(&self) -> &Orswot
        ensures { (h : History) → IsKnownOf h self.now → HoldsCovered h result.now }
    {
        &self.set
    }

    /// The rows that are kept of a replica, in order of dot. Takes no memory, and looks at no other rows.
    pub fn rows_of(&self, replica: &Replica) -> Range<'_, Dot, Row>
        ensures { (h : History) → IsKnownOf h self.now → AreRowsOf h replica.now result }
    {
        self.set.rows_of(replica)
    }

    /// The dot of the next count, `None` where no count is left.
    pub fn next_dot(&self) -> Option<Dot>
        ensures { (h : History) → IsKnownOf h self.now → result ≡ next_left h }
    {
        if self.count >= MAX_COUNT {
            return None;
        }
        Some(Dot {
            replica: self.others.own,
            count: self.count + 1,
        })
    }

    /// All that is told of the set, in the form. It costs what it gives.
    pub fn told(&self, alloc: Global, form: Form) -> Result<Told, AllocError>
        ensures { IfOk result (λ t. (h : History) → IsKnownOf h self.now → IsFullOf form h t) }
    {
        self.set.told(alloc, form)
    }

    /// The same, where it has no more in the form than a node takes in. None costs a look at each run, and needs no memory.
    pub fn fitting_told(&self, alloc: Global, form: Form) -> Result<Option<Told>, AllocError>
        ensures { IfOk result (λ o. (h : History) → IsKnownOf h self.now → WhereItFits form (IsFullOf form h) o) }
    {
        self.set.fitting_told(alloc, form)
    }

    /// The same, as a Start can have it: with ranges alone, so that no dot is made of a run, however long. It costs what it gives.
    pub fn content(&self, alloc: Global) -> Result<Told, AllocError>
        ensures full { IfOk result (λ t. (h : History) → IsKnownOf h self.now → IsFullOf Two h t) }
        ensures sound { IfOk result (λ t. is_heard t ≡ true) }
    {
        let told = self.told(alloc, Form::Two)?;
        read_rows(told.live());
        Ok(told)
    }

    /// The standings of the other replicas, each replica once. It costs what it gives.
    pub fn standings(&self) -> Result<Standings, AllocError>
        ensures { IfOk result (λ xs. (h : History) → IsKnownOf h self.now → ListsStandings h xs) }
    {
        self.others.standings.clone()
    }

    /// The own replica. Takes no memory.
    pub fn own(&self) -> Replica
        ensures { (h : History) → IsKnownOf h self.now → result ≡ own h }
    {
        self.others.own
    }

    /// The new dots of a rebirth under this incarnation, each with its old one: those of the own rows that are shown, in
    /// order of dot, counted from 1. It costs the own rows.
    pub fn pairs_of(&self, alloc: Global, incarnation: u64) -> Result<Pairs, AllocError>
        requires { IsOfOne self.now }
        ensures { IfOk result (λ ps. (h : History) → IsKnownOf h self.now → ps ≡ pairs_for h incarnation) }
    {
        let new = reborn(&self.others.own, incarnation);
        number_dots(alloc, &new, self.set.rows_of(&self.others.own))
    }

    /// Whether the own replica can go on under this incarnation: it is above the own one and at most 2^62, and of the new
    /// replica nothing was heard or told, nor was it put down. Takes no memory.
    pub fn can_be_reborn(&self, incarnation: u64) -> bool
        ensures { (h : History) → IsKnownOf h self.now → result ≡ can_be_reborn h incarnation }
    {
        let new = reborn(&self.others.own, incarnation);
        let status = self.others.status(&new);
        let has_dots = self.set.has_dots(&new);
        can_go_on(self.others.own.incarnation, incarnation, status, has_dots)
    }

    /// The greatest time that was handed in, in milliseconds. Takes no memory.
    pub fn time(&self) -> u64
        ensures { (h : History) → IsKnownOf h self.now → result ≡ time_in h }
    {
        self.others.time
    }

    /// How many counts the own replica has used. Takes no memory.
    pub fn count(&self) -> u64
        ensures { (h : History) → IsKnownOf h self.now → result ≡ counted h }
    {
        self.count
    }

    /// Brings it up to the next entry. Where memory is refused it is as it was.
    ///
    /// It costs the logarithm of the rows for each row that the entry changes or tells; time that passes costs
    /// the other replicas.
    pub fn apply(&mut self, alloc: Global, entry: &Entry) -> Result<(), AllocError>
        requires { CanFollow self.old entry.now }
        ensures ok { OnOk result (Follows self.old entry.now self.new) }
        ensures err { OnErr result (Stays self.old self.new) }
    {
        match &entry.step {
            Step::Heard { replica, now } => self.apply_heard(*replica.get(), *now),
            Step::Tick { now } => {
                self.apply_tick(alloc, *now);
                Ok(())
            }
            Step::PermDown { replica } => self.apply_down(alloc, *replica.get()),
            Step::Merge { told } => self.apply_merge(alloc, told.get()),
            Step::Rebirth { incarnation } => self.apply_reborn(alloc, *incarnation, entry),
            _ => self.apply_own(alloc, entry),
        }
    }

    // A replica was heard.
    fn apply_heard(&mut self, replica: Replica, now: u64) -> Result<(), AllocError>
        ensures ok { OnOk result (FollowsStep self.old (Step.Heard replica now) self.new) }
        ensures err { OnErr result (Stays self.old self.new) }
    {
        self.others.heard(replica, now)
    }

    // Time passed.
    fn apply_tick(&mut self, alloc: Global, now: u64)
        ensures { FollowsStep self.old (Step.Tick now) self.new }
    {
        let time = self.others.time.max(now);
        forget_faded(&mut self.set, &self.others.standings, time);
        self.others.tick(alloc, now);
    }

    // A replica is gone for good.
    fn apply_down(&mut self, alloc: Global, replica: Replica) -> Result<(), AllocError>
        ensures ok { OnOk result (FollowsStep self.old (Step.PermDown replica) self.new) }
        ensures err { OnErr result (Stays self.old self.new) }
    {
        self.others.permdown(alloc, &replica)?;
        forget_other(&mut self.set, &self.others, &replica);
        Ok(())
    }

    // Another node told something.
    fn apply_merge(&mut self, alloc: Global, told: &Told) -> Result<(), AllocError>
        ensures ok { OnOk result (FollowsStep self.old (Step.Merge told.now) self.new) }
        ensures err { OnErr result (Stays self.old self.new) }
    {
        join_heard(alloc, &mut self.set, &self.others, told)
    }

    // The own replica goes on under another incarnation. What can be refused comes first; the new rows are forgotten again
    // where the old replica can't be put down.
    fn apply_reborn(
        &mut self,
        alloc: Global,
        incarnation: u64,
        entry: &Entry,
    ) -> Result<(), AllocError>
        requires follows { CanFollow self.old entry.now }
        requires step { entry.now.step ≡ Step.Rebirth incarnation }
        ensures ok { OnOk result (Follows self.old entry.now self.new) }
        ensures err { OnErr result (Stays self.old self.new) }
    {
        let pairs = reborn_pairs(&entry.outcome);
        let old = self.others.own;
        let new = own_after(&entry.step, old);
        join_again(alloc, &mut self.set, new, pairs)?;
        if let Err(fault) = self.others.reborn(alloc, incarnation) {
            self.set.forget(&new);
            return Err(fault);
        }
        self.set.forget(&old);
        self.count = pairs.len() as u64;
        Ok(())
    }

    // A step of the own replica alone.
    fn apply_own(&mut self, alloc: Global, entry: &Entry) -> Result<(), AllocError>
        requires follows { CanFollow self.old entry.now }
        requires own { is_callers entry.now.step ≡ true }
        ensures ok { OnOk result (Follows self.old entry.now self.new) }
        ensures err { OnErr result (Stays self.old self.new) }
    {
        let next = Dot {
            replica: self.others.own,
            count: self.count + 1,
        };
        take_own(alloc, &mut self.set, entry, next)?;
        self.count += used_by(&entry.outcome);
        Ok(())
    }

    /// What the next entry turns, before it is applied.
    ///
    /// It looks at the rows that the entry adds, takes out or tells, and at those of the replicas that it shows
    /// or hides, or whose ranges are told.
    pub fn turn_of(&self, alloc: Global, entry: &Entry) -> Result<Turn, AllocError>
        ensures { IfOk result (TurnsEntry self.now entry.now) }
    {
        match &entry.step {
            Step::Heard { replica, .. } => self.turn_of_heard(alloc, replica.get()),
            Step::Tick { now } => self.turn_of_tick(alloc, *now),
            Step::PermDown { replica } => self.turn_of_down(alloc, replica.get()),
            Step::Merge { told } => self.turn_of_told(alloc, told.get()),
            Step::Rebirth { .. } => self.turn_of_reborn(alloc, entry),
            _ => self.turn_of_own(alloc, entry),
        }
    }

    // A replica was heard: it is up, if it is not gone.
    fn turn_of_heard(&self, alloc: Global, replica: &Replica) -> Result<Turn, AllocError>
        ensures { IfOk result (λ t. (now : ℕ) → TurnsStep self.now (Step.Heard replica.now now) t) }
    {
        let status = self.others.status(replica);
        turn_of_replica(alloc, &self.set, replica, is_up(status), !is_gone(status))
    }

    // A replica is gone for good, if it is another than the own one.
    fn turn_of_down(&self, alloc: Global, replica: &Replica) -> Result<Turn, AllocError>
        ensures { IfOk result (TurnsStep self.now (Step.PermDown replica.now)) }
    {
        let was_up = is_up(self.others.status(replica));
        let is_own = is_same(replica, &self.others.own);
        turn_of_replica(alloc, &self.set, replica, was_up, is_own)
    }

    // Time passed: it shows nothing.
    fn turn_of_tick(&self, alloc: Global, now: u64) -> Result<Turn, AllocError>
        ensures { IfOk result (TurnsStep self.now (Step.Tick now)) }
    {
        let time = self.others.time.max(now);
        let leaves = rows_dropped(alloc, &self.set, &self.others.standings, time)?;
        Ok(Turn {
            joins: Vec::new(alloc),
            leaves,
        })
    }

    // Another node told something.
    fn turn_of_told(&self, alloc: Global, told: &Told) -> Result<Turn, AllocError>
        ensures { IfOk result (TurnsStep self.now (Step.Merge told.now)) }
    {
        turn_of_merge(alloc, &self.set, &self.others, told)
    }

    // A step of the own replica alone.
    fn turn_of_own(&self, alloc: Global, entry: &Entry) -> Result<Turn, AllocError>
        requires { is_callers entry.now.step ≡ true }
        ensures { IfOk result (TurnsEntry self.now entry.now) }
    {
        let joins = rows_added(alloc, entry)?;
        let leaves = rows_taken(alloc, &self.set, &entry.outcome)?;
        Ok(Turn { joins, leaves })
    }

    // The own replica goes on under another incarnation: the rows of the old one leave, and join under the new dots.
    fn turn_of_reborn(&self, alloc: Global, entry: &Entry) -> Result<Turn, AllocError>
        requires { is_rebirth entry.now.step ≡ true }
        ensures { IfOk result (TurnsEntry self.now entry.now) }
    {
        let pairs = reborn_pairs(&entry.outcome);
        let joins = rows_again(alloc, &self.set, pairs)?;
        let leaves = rows_of_replica(alloc, &self.set, &self.others.own)?;
        Ok(Turn { joins, leaves })
    }
}
