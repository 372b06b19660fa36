//! Runs of one replica.
ghost use Rattle.std.specs.Prelude.{◌≡◌, ◌≤◌, ◌<◌, ◌&&◌, ◌==◌, ℕ, IfSome, IfNone, IsSome, IsTrue, nat_lt, OnOk, OnErr, true, false, None, Some, [], length};
ghost use Rattle.std.specs.Bool.{MatchBool};
ghost use Rattle.std.specs.BTreeMap.{get, IsUnchanged};
ghost use Rattle.std.specs.Ordering.{nat_cmp};
ghost use Rattle.dot_context.specs.Runs.{in_run, holds, IsLastAt, AreLong, AreApart, has_room, is_hollow, moved_to, begins, top_count, above_top, Opens, Fills, Sweeps, Absorbs};

use std::alloc::{AllocError, Global};
use std::collections::BTreeMap;
use std::collections::btree_map::{Iter, Range};
use std::marker::Model;

// The last run that begins at or below `count`.
fn last_at(runs: &BTreeMap<u64, u64>, count: u64) -> Option<(u64, u64)>
    ensures some { IfSome result (IsLastAt runs.now count) }
    ensures none { IfNone result ((f : ℕ) → f ≤ count → get nat_cmp runs.now f ≡ None) }
{
    match runs.range(..=count).next_back() {
        Some((from, to)) => Some((*from, *to)),
        None => None,
    }
}

// The first run that begins above `from`, at or below `end`.
fn next_after(runs: &BTreeMap<u64, u64>, from: u64, end: u64) -> Option<(u64, u64)>
    requires { from < end }
    ensures some { IfSome result (λ r. (from < r.0) × (r.0 ≤ end) × (get nat_cmp runs.now r.0 ≡ Some r.1)) }
    ensures none { IfNone result ((f : ℕ) → from < f → f ≤ end → get nat_cmp runs.now f ≡ None) }
{
    match runs.range(from + 1..=end).next() {
        Some((from, to)) => Some((*from, *to)),
        None => None,
    }
}

fn covers_count(runs: &BTreeMap<u64, u64>, count: u64) -> bool
    requires { AreApart 0 runs.now.entries }
    ensures { result ≡ holds runs.now.entries count }
{
    match last_at(runs, count) {
        Some((from, to)) => from < count && count <= to,
        None => false,
    }
}

// Whether a run from `count` on touches a run that is there.
fn touches(runs: &BTreeMap<u64, u64>, count: u64) -> bool
    requires { AreApart 0 runs.now.entries }
    ensures { result ≡ has_room runs.now.entries count }
{
    match last_at(runs, count) {
        Some((_, to)) => count <= to,
        None => false,
    }
}

// Makes sure that a run from `from` on needs no memory.
fn make_room(runs: &mut BTreeMap<u64, u64>, from: u64) -> Result<(), AllocError>
    requires { AreApart 0 runs.old.entries }
    ensures opens { Opens runs.old.entries runs.new.entries (λ g. from == g) }
    ensures ok { OnOk result (has_room runs.new.entries from ≡ true) }
    ensures err { OnErr result (IsUnchanged runs.old runs.new) }
{
    if touches(runs, from) {
        return Ok(());
    }
    match runs.insert(from, from) {
        Ok(_) => Ok(()),
        Err(_) => Err(AllocError),
    }
}

// Takes out the runs that a run from `start` to `end` touches, and returns how far they all reach.
fn absorb(runs: &mut BTreeMap<u64, u64>, start: u64, end: u64) -> u64
    requires apart { AreApart 0 runs.old.entries }
    requires order { start < end }
    ensures reach { end ≤ result }
    ensures start { get nat_cmp runs.new start ≡ get nat_cmp runs.old start }
    ensures clear { (g : ℕ) → start < g → g ≤ result → get nat_cmp runs.new g ≡ None }
    ensures absorbs { Absorbs runs.old.entries runs.new.entries start end result }
{
    let mut reach = end;
    while let Some((from, to)) = next_after(runs, start, reach) {
        runs.remove(&from);
        reach = reach.max(to);
    }
    reach
}

// Moves the end of the run that begins at `start`.
fn set_end(runs: &mut BTreeMap<u64, u64>, start: u64, end: u64)
    requires { IsSome (get nat_cmp runs.old start) }
    ensures { runs.new.entries ≡ moved_to runs.old.entries start end }
{
    if let Some(to) = runs.get_mut(&start) {
        *to = end;
    }
}

// Adds the counts above `from`, up to `to`.
fn fill(runs: &mut BTreeMap<u64, u64>, from: u64, to: u64)
    requires apart { AreApart 0 runs.old.entries }
    requires order { from < to }
    requires room { has_room runs.old.entries from ≡ true }
    ensures { Fills runs.old.entries runs.new.entries (in_run (from, to)) (λ g. from == g) }
{
    let Some((start, end)) = last_at(runs, from) else {
        return;
    };
    let reach = absorb(runs, start, end.max(to));
    set_end(runs, start, reach);
}

// Takes out the hollow run at `from`, if there is one.
fn sweep(runs: &mut BTreeMap<u64, u64>, from: u64)
    requires { AreApart 0 runs.old.entries }
    ensures { Sweeps runs.old.entries runs.new.entries (λ g. from == g) }
{
    if is_hollow_at(runs, from) {
        runs.remove(&from);
    }
}

fn is_hollow_at(runs: &BTreeMap<u64, u64>, from: u64) -> bool
    requires { AreApart 0 runs.now.entries }
    ensures hollow { result ≡ is_hollow runs.now.entries from }
    ensures found { IsTrue result → get nat_cmp runs.now from ≡ Some from }
{
    match runs.get(&from) {
        Some(to) => *to == from,
        None => false,
    }
}

// Makes sure that the runs of `others` need no memory. After a refusal some of the room is there.
fn make_room_for(
    runs: &mut BTreeMap<u64, u64>,
    others: &BTreeMap<u64, u64>,
) -> Result<(), AllocError>
    requires { AreApart 0 runs.old.entries }
    ensures opens { Opens runs.old.entries runs.new.entries (begins others.now.entries) }
    ensures ok { OnOk result ((g : ℕ) → begins others.now.entries g ≡ true → has_room runs.new.entries g ≡ true) }
{
    for (from, _) in others {
        make_room(runs, *from)?;
    }
    Ok(())
}

// Adds the runs of `others`, for which there is room.
fn fill_from(runs: &mut BTreeMap<u64, u64>, others: &BTreeMap<u64, u64>)
    requires apart { AreApart 0 runs.old.entries }
    requires others { AreLong others.now.entries }
    requires room { (g : ℕ) → begins others.now.entries g ≡ true → has_room runs.old.entries g ≡ true }
    ensures { Fills runs.old.entries runs.new.entries (holds others.now.entries) (begins others.now.entries) }
{
    for (from, to) in others {
        fill(runs, *from, *to);
    }
}

// Takes out the hollow runs that begin where one of `others` does.
fn sweep_from(runs: &mut BTreeMap<u64, u64>, others: &BTreeMap<u64, u64>)
    requires { AreApart 0 runs.old.entries }
    ensures { Sweeps runs.old.entries runs.new.entries (begins others.now.entries) }
{
    for (from, _) in others {
        sweep(runs, *from);
    }
}

// Adds the counts above `from`, up to `to`.
fn put_range(runs: &mut BTreeMap<u64, u64>, from: u64, to: u64) -> Result<(), AllocError>
    requires apart { AreApart 0 runs.old.entries }
    requires order { from < to }
    ensures ok { OnOk result (Fills runs.old.entries runs.new.entries (in_run (from, to)) (λ g. from == g)) }
    ensures err { OnErr result (runs.new.entries ≡ runs.old.entries) }
    ensures some { OnOk result (has_room runs.new.entries from ≡ true) }
{
    make_room(runs, from)?;
    fill(runs, from, to);
    Ok(())
}

fn top_of(runs: &BTreeMap<u64, u64>) -> u64
    requires { AreApart 0 runs.now.entries }
    ensures { result ≡ top_count runs.now.entries }
{
    match runs.first_key_value() {
        Some((from, to)) if *from == 0 => *to,
        _ => 0,
    }
}

fn runs_above(runs: &BTreeMap<u64, u64>) -> Range<'_, u64, u64>
    ensures { result ≡ above_top runs.now.entries }
{
    runs.range(1..)
}

/// The counts of one replica, as the longest runs in order.
pub struct Runs {
    items: BTreeMap<u64, u64>,
}

impl Drop for Runs {
    fn drop(self) {
        let Runs { items } = self;
        drop(items);
    }
}

impl Model for Runs {
    ghost use Rattle.std.specs.Prelude.{ℕ, List};
    ghost use Rattle.dot_context.specs.Runs.{AreApart};

    ghost Value = { List (ℕ × ℕ) };

    ghost view = { λ a. a.items.entries };

    ghost invariant = { λ a. AreApart 0 a.items.entries };
}

impl Runs {
    /// No run.
    pub fn new(alloc: Global) -> Runs
        ensures { result ≡ [] }
    {
        Runs {
            items: BTreeMap::new(alloc),
        }
    }

    /// Whether there is no run, not even a hollow one.
    pub fn is_empty(&self) -> bool
        ensures { MatchBool result (self.now ≡ []) (0 < length self.now) }
    {
        self.items.is_empty()
    }

    /// Whether the count is there.
    pub fn covers(&self, count: u64) -> bool
        ensures { result ≡ holds self.now count }
    {
        covers_count(&self.items, count)
    }

    /// The count up to which all are there.
    pub fn top(&self) -> u64
        ensures top { result ≡ top_count self.now }
        ensures apart { AreApart 0 self.now }
    {
        top_of(&self.items)
    }

    /// All runs, in order.
    pub fn iter(&self) -> Iter<'_, u64, u64>
        ensures { result ≡ self.now }
    {
        self.items.iter()
    }

    /// The runs above the first gap.
    pub fn above_top(&self) -> Range<'_, u64, u64>
        ensures { result ≡ above_top self.now }
    {
        runs_above(&self.items)
    }

    /// Whether there are runs above the first gap.
    pub fn has_above_top(&self) -> bool
        ensures { result ≡ nat_lt 0 (length (above_top self.now)) }
    {
        self.above_top().next().is_some()
    }

    /// Adds the counts above `from`, up to `to`, or none where memory is refused.
    pub fn add_range(&mut self, from: u64, to: u64) -> Result<(), AllocError>
        requires { from < to }
        ensures ok { OnOk result (Fills self.old self.new (in_run (from, to)) (λ g. from == g)) }
        ensures err { OnErr result (self.new ≡ self.old) }
        ensures some { OnOk result (has_room self.new from ≡ true) }
        ensures apart { AreApart 0 self.old }
    {
        put_range(&mut self.items, from, to)
    }

    /// Makes sure that the runs of `others` need no memory. After a refusal some of the room is there.
    pub fn make_room_for(&mut self, others: &Runs) -> Result<(), AllocError>
        ensures opens { Opens self.old self.new (begins others.now) }
        ensures ok { OnOk result ((g : ℕ) → begins others.now g ≡ true → has_room self.new g ≡ true) }
        ensures apart { AreApart 0 self.old }
    {
        make_room_for(&mut self.items, &others.items)
    }

    /// Adds the runs of `others`, for which there is room.
    pub fn fill_from(&mut self, others: &Runs)
        requires others { AreLong others.now }
        requires room { (g : ℕ) → begins others.now g ≡ true → has_room self.old g ≡ true }
        ensures fills { Fills self.old self.new (holds others.now) (begins others.now) }
        ensures apart { AreApart 0 self.old }
    {
        fill_from(&mut self.items, &others.items);
    }

    /// Takes out the hollow runs that begin where one of `others` does.
    pub fn sweep_from(&mut self, others: &Runs)
        ensures sweeps { Sweeps self.old self.new (begins others.now) }
        ensures apart { AreApart 0 self.old }
    {
        sweep_from(&mut self.items, &others.items);
    }
}
