//! What is not told yet, and the cut.
ghost use Rattle.std.specs.Prelude.{◌≡◌, ◌++◌, ◌∷◌, [], IfOk, OnOk};
ghost use Rattle.std.specs.List.Sorted.{IsStrictlySortedBy};
ghost use Rattle.std.specs.Map.{keys_of};
ghost use Rattle.presence_base.specs.Order.{dot_cmp};

use crate::chain::Chain;
use crate::change::{Change, change_of};
use crate::kept::{kept_chains, kept_rows, kept_runs};
use crate::last::dots_out;
use crate::listing::listed_chains;
use crate::part::vacant_of;
use crate::putting::{add_runs, drop_chains, put_both};
use crate::recent::drop_dots;
use crate::rows::copied;
use crate::start::most_listed;
use delta_range::{Delta, Generations, longest};
use orswot_core::{Form, Orswot, Told};
use presence_base::{Dot, Replica, Row};
use presence_journal::{Entry, Outcome, Start};
use presence_journal_known::used_by;
use presence_journal_lists::{Chains, Runs};
use std::alloc::{AllocError, Global};
use std::collections::BTreeMap;
use std::collections::btree_map::Range;

/// What a shard has not told yet of its own replica, and the kept deltas of what it told.
pub struct Untold {
    own: Replica,
    count: u64,
    last: u64,
    // What a count above this one stands for was not told, or is among the older counts since the last cut.
    unsettled: u64,
    chains: BTreeMap<u64, Chain>,
    older: Vec<(u64, u64)>,
    rows: BTreeMap<Dot, Row>,
    kept: Generations,
}

impl Drop for Untold {
    fn drop(self) {
        let Untold {
            own: _,
            count: _,
            last: _,
            unsettled: _,
            chains,
            older,
            rows,
            kept,
        } = self;
        drop(chains);
        drop(older);
        drop(rows);
        drop(kept);
    }
}

// The runs as a list that can grow.
fn runs_of(alloc: Global, runs: &[(u64, u64)]) -> Result<Vec<(u64, u64)>, AllocError>
    ensures { IfOk result (λ v. v.items ≡ runs.now) }
{
    runs.to_vec(alloc)
}

// Adds a copy of a row at the end.
fn push_copy(list: &mut Vec<(Dot, Row)>, dot: &Dot, row: &Row) -> Result<(), AllocError>
    ensures { OnOk result (list.new.items ≡ list.old.items ++ (dot.now, row.now) ∷ []) }
{
    let row = row.clone()?;
    list.push((*dot, row))?;
    Ok(())
}

// Copies of the rows, in order of dot.
fn copies(alloc: Global, rows: &BTreeMap<Dot, Row>) -> Result<Vec<(Dot, Row)>, AllocError>
    ensures rows { IfOk result (λ v. v.items ≡ rows.now.entries) }
    ensures ordered { IfOk result (λ _. IsStrictlySortedBy dot_cmp (keys_of rows.now.entries)) }
{
    let mut list = Vec::new(alloc);
    for (dot, row) in rows.iter() {
        push_copy(&mut list, dot, row)?;
    }
    Ok(list)
}

impl Untold {
    ghost use Rattle.std.specs.Prelude.{◌≡◌, false, IfOk, OnOk, OnErr};
    ghost use Rattle.presence_journal.specs.History.{History, Begin, begun, last_cut as cut_in};
    ghost use Rattle.presence_journal.specs.Table.{IsLegal};
    ghost use Rattle.presence_journal.specs.Walk.{is_reborn};
    ghost use Rattle.orswot_core.specs.Sets.{DotRows};
    ghost use Rattle.delta_range.specs.Deltas.{GoesOn};
    ghost use Rattle.presence_journal_cuts.specs.Cuts.{IsCut};
    ghost use Rattle.presence_journal_cuts.specs.Parting.{HasOwnRows};
    ghost use Rattle.presence_journal_cuts.specs.KeptDeltas.{renews_kept, AreKeptOf};
    ghost use Rattle.presence_journal_cuts.specs.Untold.{IsUntoldOf, IsKeptFrom, IsOfOne, BeginsAgain, CanFollow, Follows, Stays};
    ghost use Rattle.presence_journal_cuts.specs.Listed.{AreOlder, AreListed};
    ghost use Rattle.presence_journal_cuts.specs.Changes.{IsChangeOf, IsToldTo, KeepsCut};

    /// Where nothing was told, since nothing happened.
    pub fn new(alloc: Global, own: Replica) -> Untold
        ensures { IsUntoldOf (begun own) result }
    {
        Untold {
            own,
            count: 0,
            last: 0,
            unsettled: 0,
            chains: BTreeMap::new(alloc),
            older: Vec::new(alloc),
            rows: BTreeMap::new(alloc),
            kept: Generations::new(),
        }
    }

    /// What is not told yet where a journal begins.
    pub fn of_start(alloc: Global, start: &Start) -> Result<Untold, AllocError>
        ensures { IfOk result (λ u. IsLegal (Begin start.now) → IsUntoldOf (Begin start.now) u) }
    {
        let listed = start.chains.as_slice();
        let chains = kept_chains(alloc, listed)?;
        let older = kept_runs(alloc, &start.older)?;
        let rows = kept_rows(alloc, start)?;
        let kept = start.kept.clone()?;
        let unsettled = most_listed(listed).max(start.last_cut);
        Ok(Untold {
            own: start.own,
            count: start.count,
            last: start.last_cut,
            unsettled,
            chains,
            older,
            rows,
            kept,
        })
    }

    /// Where nothing was told of the replica, which an own one of before goes on as: these are all its rows, and so many its
    /// counts. It costs the rows.
    pub fn reborn(
        alloc: Global,
        own: Replica,
        count: u64,
        rows: Range<'_, Dot, Row>,
    ) -> Result<Untold, AllocError>
        requires { IsStrictlySortedBy dot_cmp (keys_of rows) }
        ensures { IfOk result (BeginsAgain own count rows.entry) }
    {
        let rows = copied(alloc, rows)?;
        Ok(Untold {
            own,
            count,
            last: 0,
            unsettled: 0,
            chains: BTreeMap::new(alloc),
            older: Vec::new(alloc),
            rows,
            kept: Generations::new(),
        })
    }

    /// What a cut tells, where the set has the own rows. It costs the rows that came since the last cut and the runs of the older
    /// counts that went. Where one of these is a chain that was made one run it costs a look at each own row in that run.
    pub fn cut(&self, alloc: Global, set: &Orswot) -> Result<Delta, AllocError>
        requires { IsOfOne self.now }
        ensures cut { IfOk result (λ d. (h : History) → IsUntoldOf h self.now → HasOwnRows h set.now → IsCut h d) }
        ensures next { IfOk result (GoesOn self.now.own self.now.last) }
    {
        let runs = runs_of(alloc, &self.older)?;
        let gone = longest(alloc, runs)?;
        let older = vacant_of(alloc, set, &self.own, &gone)?;
        let rows = copies(alloc, &self.rows)?;
        Ok(Delta::new(self.own, self.last, self.count, older, rows))
    }

    /// What the kept deltas tell in the form from a count on, where one begins at or below it: the shortest. It costs what it gives.
    pub fn told_from(
        &self,
        alloc: Global,
        count: u64,
        form: Form,
    ) -> Result<Option<Told>, AllocError>
        ensures { IfOk result (λ o. (h : History) → IsUntoldOf h self.now → IsKeptFrom form h count o) }
    {
        let Some(delta) = self.kept.from_count(count, form) else {
            return Ok(None);
        };
        let told = delta.told(alloc, form)?;
        Ok(Some(told))
    }

    /// The kept deltas, as a Start has them. It costs what it gives.
    pub fn kept(&self) -> Result<Generations, AllocError>
        ensures { IfOk result (λ k. (h : History) → IsUntoldOf h self.now → AreKeptOf h k) }
    {
        let kept = self.kept.clone()?;
        Ok(kept)
    }

    /// The count up to which the last cut told. Takes no memory.
    pub fn last_cut(&self) -> u64
        ensures { (h : History) → IsUntoldOf h self.now → result ≡ cut_in h }
    {
        self.last
    }

    /// The counts at or below it that went since, as a Start has them. It costs what it gives.
    pub fn older(&self, alloc: Global) -> Result<Runs, AllocError>
        ensures { IfOk result (λ rs. (h : History) → IsUntoldOf h self.now → AreOlder h rs) }
    {
        let runs = runs_of(alloc, &self.older)?;
        Ok(Runs::new(runs))
    }

    /// All chains, as a Start has them. It costs what it gives.
    pub fn chains(&self, alloc: Global) -> Result<Chains, AllocError>
        ensures { IfOk result (λ xs. (h : History) → IsUntoldOf h self.now → AreListed h xs) }
    {
        let list = listed_chains(alloc, &self.chains)?;
        Ok(Chains::new(list))
    }

    /// Brings it up to the next entry, which is of no rebirth; the set has the own rows behind that entry. Where memory is refused it
    /// is as it was.
    ///
    /// It costs the rows that the entry adds or takes out, with their chains, and for a cut that tells anything the rows of
    /// the kept deltas and what `cut` costs.
    pub fn apply(&mut self, alloc: Global, entry: &Entry, set: &Orswot) -> Result<(), AllocError>
        requires follows { CanFollow self.old entry.now }
        requires plain { is_reborn entry.now.outcome ≡ false }
        ensures ok { OnOk result (Follows self.old entry.now set.now self.new) }
        ensures err { OnErr result (Stays self.old self.new) }
    {
        if let Outcome::CutAt(_, to) = &entry.outcome {
            self.keep_cut(alloc, set)?;
            self.take_cut(alloc, *to);
            return Ok(());
        }
        let change = change_of(alloc, &self.chains, self.last, self.unsettled, entry)?;
        self.commit(entry, change)
    }

    // What a cut tells is joined to the kept deltas.
    fn keep_cut(&mut self, alloc: Global, set: &Orswot) -> Result<(), AllocError>
        requires { IsOfOne self.old }
        ensures ok { OnOk result (KeepsCut self.old set.now self.new) }
        ensures err { OnErr result (Stays self.old self.new) }
    {
        let delta = self.cut(alloc, set)?;
        // Read for the proof alone: what is told is a delta.
        let _live = delta.live();
        self.kept.push(alloc, delta)
    }

    // A cut told all of it but the chains.
    fn take_cut(&mut self, alloc: Global, to: u64)
        ensures { IsToldTo to self.old self.new }
    {
        self.rows = BTreeMap::new(alloc);
        self.older = Vec::new(alloc);
        self.last = to;
        self.unsettled = self.unsettled.max(to);
    }

    // Takes in what an entry changes.
    fn commit(&mut self, entry: &Entry, change: Change) -> Result<(), AllocError>
        requires follows { CanFollow self.old entry.now }
        requires other { renews_kept entry.now.outcome ≡ false }
        requires change { IsChangeOf self.old entry.now change }
        ensures ok { OnOk result ((s : DotRows) → Follows self.old entry.now s self.new) }
        ensures err { OnErr result (Stays self.old self.new) }
    {
        self.older.reserve(change.gone.len())?;
        put_both(&mut self.rows, &mut self.chains, change.row, change.link)?;
        add_runs(&mut self.older, change.gone);
        let out = dots_out(&entry.outcome);
        drop_dots(&mut self.rows, out);
        drop_chains(&mut self.chains, out);
        self.count += used_by(&entry.outcome);
        Ok(())
    }
}
