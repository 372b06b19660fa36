//! Keys with their metas, and their objects.
ghost use Rattle.std.specs.Prelude.{◌≡◌, ◌++◌, ◌∷◌, [], false, IfOk, OnOk, List, ℕ, map};
ghost use Rattle.std.specs.List.{fold};
ghost use Rattle.serde_json.specs.View.{view};
ghost use Rattle.serde_json.specs.Written.{has_float};
ghost use Rattle.presence_metas.specs.Lists.{AreFilled};
ghost use Rattle.presence_metas.specs.Listing.{at, without_key, entered, put, join_key, leave_key, applied};
ghost use Rattle.std.specs.List.Sorted.{IsStrictlySortedBy};
ghost use Rattle.std.specs.Map.{keys_of};
ghost use Rattle.presence_base.specs.Order.{text_cmp};
ghost use Rattle.presence_metas.specs.Fold.{meta_at, folded};
ghost use Rattle.presence_metas.specs.Rows.{add_row, listing_of};
ghost use Rattle.presence_metas.specs.Values.{metas_value, listing_value, AllWhole, state_of, diff_object_of, diff_of};

use crate::members::put_member;
use crate::tracked::{TrackedMeta, leave_out, take_in, tracked_meta};
use presence_base::{Dot, Row, Text};
use serde_json::{Map, Value, json};
use std::alloc::{AllocError, Global};
use std::collections::BTreeMap;
use std::marker::Model;

/// Keys in order of their bytes, each with its metas. A key without metas is not kept.
#[derive(Debug)]
pub struct Presences {
    lists: BTreeMap<Text, Vec<TrackedMeta>>,
}

impl Drop for Presences {
    fn drop(self) {
        let Presences { lists } = self;
        drop(lists);
    }
}

impl Model for Presences {
    ghost use Rattle.std.specs.Prelude.{List, ℕ, map};
    ghost use Rattle.presence_metas.specs.declared.tracked.TrackedMeta.{TrackedMeta};
    ghost use Rattle.presence_metas.specs.Codes.{listing_code};
    ghost use Rattle.presence_metas.specs.Lists.{AreLists};

    ghost Value = { List (List ℕ × List TrackedMeta) };

    ghost coded = { listing_code };

    ghost view = { λ p. map (λ e. (e.0, e.1.items)) p.lists.entries };

    ghost invariant = { λ p. AreLists (map (λ e. (e.0, e.1.items)) p.lists.entries) };
}

impl Clone for Presences {
    ghost use Rattle.std.specs.Prelude.{◌≡◌};

    ghost is_clone = { λ p q. q ≡ p };

    fn clone(&self) -> Result<Presences, AllocError> {
        let lists = self.lists.clone()?;
        Ok(Presences { lists })
    }
}

/// What a diff tells: the metas that came and those that went.
#[derive(Debug, Drop)]
pub struct Diff {
    pub joins: Presences,
    pub leaves: Presences,
}

/// The values of a key's metas.
pub fn values_of(alloc: Global, metas: &[TrackedMeta]) -> Result<Vec<Value>, AllocError>
    ensures { IfOk result (λ v. map view v.items ≡ map (λ t. t.meta) metas.now) }
{
    let mut values = Vec::new(alloc);
    for tracked in metas {
        values.push(tracked.meta.as_value().clone()?)?;
    }
    Ok(values)
}

/// The object that tells a key's metas: `{"metas": [..]}`.
pub fn value_of_metas(alloc: Global, metas: &[TrackedMeta]) -> Result<Value, AllocError>
    ensures { IfOk result (λ v. view v ≡ metas_value metas.now) }
{
    let values = Value::Array(values_of(alloc, metas)?);
    json!(in alloc; {"metas": values})
}

impl Presences {
    /// No keys.
    pub fn new(alloc: Global) -> Presences
        ensures { result ≡ [] }
    {
        Presences {
            lists: BTreeMap::new(alloc),
        }
    }

    /// The lists by their keys.
    pub fn as_map(&self) -> &BTreeMap<Text, Vec<TrackedMeta>>
        ensures { map (λ e. (e.0, e.1.items)) result.now.entries ≡ self.now }
    {
        &self.lists
    }

    /// The keys rise by their bytes.
    pub fn keys_rise(&self)
        ensures { IsStrictlySortedBy text_cmp (keys_of self.now) }
    {
        let _lists = &self.lists;
    }

    /// No key is without metas.
    pub fn lists_are_filled(&self)
        ensures { AreFilled self.now }
    {
        let _lists = &self.lists;
    }

    // Takes out a key's metas.
    fn remove(&mut self, alloc: Global, key: &Text) -> Vec<TrackedMeta>
        ensures metas { result.items ≡ at self.old key.now }
        ensures rest { self.new ≡ without_key self.old key.now }
    {
        if let Some(metas) = self.lists.remove(key) {
            return metas;
        }
        Vec::new(alloc)
    }

    // Adds a key that has none, with its metas.
    fn enter(&mut self, key: &Text, metas: Vec<TrackedMeta>) -> Result<(), AllocError>
        ensures { OnOk result (self.new ≡ entered self.old key.now metas.items) }
    {
        if metas.is_empty() {
            return Ok(());
        }
        let key = key.clone()?;
        self.lists.insert(key, metas)?;
        Ok(())
    }

    // Replaces a key's metas.
    pub(crate) fn put(
        &mut self,
        alloc: Global,
        key: &Text,
        metas: Vec<TrackedMeta>,
    ) -> Result<(), AllocError>
        ensures { OnOk result (self.new ≡ put self.old key.now metas.items) }
    {
        self.remove(alloc, key);
        self.enter(key, metas)
    }

    // Lets a meta follow those of its key.
    fn add(&mut self, alloc: Global, key: &Text, meta: TrackedMeta) -> Result<(), AllocError>
        ensures { OnOk result (self.new ≡ put self.old key.now (at self.old key.now ++ meta ∷ [])) }
    {
        let mut metas = self.remove(alloc, key);
        metas.push(meta)?;
        self.enter(key, metas)
    }

    // What a diff's joins of a key do.
    fn join_key(
        &mut self,
        alloc: Global,
        key: &Text,
        joined: &[TrackedMeta],
    ) -> Result<(), AllocError>
        ensures { OnOk result (self.new ≡ join_key self.old (key.now, joined.now)) }
    {
        let metas = self.remove(alloc, key);
        let metas = take_in(metas, joined)?;
        self.enter(key, metas)
    }

    // What a diff's leaves of a key do.
    fn leave_key(
        &mut self,
        alloc: Global,
        key: &Text,
        gone: &[TrackedMeta],
    ) -> Result<(), AllocError>
        ensures { OnOk result (self.new ≡ leave_key self.old (key.now, gone.now)) }
    {
        let metas = self.remove(alloc, key);
        let metas = leave_out(metas, gone);
        self.enter(key, metas)
    }

    // Takes in a diff's joins.
    pub(crate) fn join_all(&mut self, alloc: Global, joins: &Presences) -> Result<(), AllocError>
        ensures { OnOk result (self.new ≡ fold join_key self.old joins.now) }
    {
        for (key, joined) in joins.lists.iter() {
            self.join_key(alloc, key, joined.as_slice())?;
        }
        Ok(())
    }

    // Takes out a diff's leaves.
    pub(crate) fn leave_all(&mut self, alloc: Global, leaves: &Presences) -> Result<(), AllocError>
        ensures { OnOk result (self.new ≡ fold leave_key self.old leaves.now) }
    {
        for (key, gone) in leaves.lists.iter() {
            self.leave_key(alloc, key, gone.as_slice())?;
        }
        Ok(())
    }

    // The lists as a map: a diff puts its joins in, then takes its leaves out.
    fn diff_as_map(&self, diff: &Diff)
        ensures { (k r : List ℕ) → meta_at (applied self.now diff.now) k r
            ≡ folded (meta_at self.now) diff.now k r }
    {
        self.keys_rise();
        diff.joins.keys_rise();
        diff.leaves.keys_rise();
    }

    // What is left after a diff.
    #[tactic(auto, unfolding(crate::specs::Listing::applied))]
    pub(crate) fn with_diff(&self, alloc: Global, diff: &Diff) -> Result<Presences, AllocError>
        ensures lists { IfOk result (λ p. p ≡ applied self.now diff.now) }
        ensures as_map { (k r : List ℕ) → meta_at (applied self.now diff.now) k r
            ≡ folded (meta_at self.now) diff.now k r }
    {
        self.diff_as_map(diff);
        let mut next = self.clone()?;
        next.join_all(alloc, &diff.joins)?;
        next.leave_all(alloc, &diff.leaves)?;
        Ok(next)
    }

    // Adds a row's meta to those of its key.
    #[tactic(auto, using(crate::proofs::Whole::whole_added))]
    fn add_row(&mut self, alloc: Global, dot: &Dot, row: &Row) -> Result<(), AllocError>
        ensures lists { OnOk result (self.new ≡ add_row self.old (dot.now, row.now)) }
        ensures whole { OnOk result (AllWhole self.old → AllWhole self.new) }
    {
        let key = Text::new(alloc, row.key.as_str())?;
        let meta = tracked_meta(alloc, dot, row)?;
        self.add(alloc, &key, meta)
    }

    /// The presences that these rows are: each key's metas in the order of the rows.
    #[tactic(auto, unfolding(crate::specs::Rows::listing_of))]
    pub fn of_rows(alloc: Global, rows: &[(Dot, Row)]) -> Result<Presences, AllocError>
        ensures lists { IfOk result (λ p. p ≡ listing_of rows.now) }
        ensures whole { IfOk result (λ p. has_float (listing_value p) ≡ false) }
    {
        let mut presences = Presences::new(alloc);
        for (dot, row) in rows {
            presences.add_row(alloc, dot, row)?;
        }
        Ok(presences)
    }

    /// The object from each key to its list of metas.
    pub fn to_value(&self, alloc: Global) -> Result<Value, AllocError>
        ensures { IfOk result (λ v. view v ≡ listing_value self.now) }
    {
        let mut members = Map::new(alloc);
        for (key, metas) in self.lists.iter() {
            let value = value_of_metas(alloc, metas.as_slice())?;
            put_member(alloc, &mut members, key.as_str(), value)?;
        }
        Ok(Value::Object(members))
    }
}

/// The state object of these rows.
pub fn state_value(alloc: Global, rows: &[(Dot, Row)]) -> Result<Value, AllocError>
    ensures value { IfOk result (λ v. view v ≡ state_of rows.now) }
    ensures whole { IfOk result (λ v. has_float (view v) ≡ false) }
{
    let presences = Presences::of_rows(alloc, rows)?;
    presences.to_value(alloc)
}

/// The object `{"joins": .., "leaves": ..}`.
pub fn diff_object(alloc: Global, joins: Value, leaves: Value) -> Result<Value, AllocError>
    ensures { IfOk result (λ v. view v ≡ diff_object_of (view joins) (view leaves)) }
{
    json!(in alloc; {"joins": joins, "leaves": leaves})
}

/// The diff object of the rows that came and those that went.
pub fn diff_value(
    alloc: Global,
    joins: &[(Dot, Row)],
    leaves: &[(Dot, Row)],
) -> Result<Value, AllocError>
    ensures value { IfOk result (λ v. view v ≡ diff_of joins.now leaves.now) }
    ensures whole { IfOk result (λ v. has_float (view v) ≡ false) }
{
    let joins = state_value(alloc, joins)?;
    let leaves = state_value(alloc, leaves)?;
    diff_object(alloc, joins, leaves)
}
