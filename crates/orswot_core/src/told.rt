//! Told values and their check.
ghost use Rattle.std.specs.Prelude.{◌≡◌, ◌≤◌, true, Err, IfOk, OnOk, nat_lt};
ghost use Rattle.std.specs.List.{list_all};
ghost use Rattle.std.specs.FinSet as set;
ghost use Rattle.presence_base.specs.Order.{same_replica, same_dot};
ghost use Rattle.presence_base.specs.declared.dots.Dot.{Dot as DotValue};
ghost use Rattle.orswot_core.specs.Limits.{is_dot};
ghost use Rattle.orswot_core.specs.Telling.{lies_in, is_among, is_told_by, CoversMore, cut_to};
ghost use Rattle.orswot_core.specs.declared.told.ToldFault.TheVariants.{TooMany};
ghost use Rattle.orswot_core.specs.Checks.{raw_value, IsAnswer, IsTold, sum_in, is_too_many_in, may_precede as may_come_next, are_in_order as is_ordered, has_range_astray, first_fault, has_repeat, replicas_of, dots_of};

use crate::cut::{ReplicaTest, cut_extras, cut_ranges, cut_rows};
use crate::form::Form;
use crate::limits::{are_dots_within, are_ranges_forward, are_ranges_within};
use crate::raw::{RawTold, checked_rows};
use dot_context::Context;
use presence_base::{Dot, Replica, Row};
use std::alloc::{AllocError, Global};
use std::cmp::Ordering;
use std::collections::BTreeSet;
use std::fmt;
use std::marker::Model;
use thiserror::Error;

mod clones;

/// The most rows and extras together that a told value may bring from outside.
pub const MAX_ROWS: usize = 65_536;

/// Why a told value is refused: the first that applies, in this order. Memory may run out in place
/// of any answer but the first.
#[derive(Clone, Copy, PartialEq, Eq, Debug, Drop, Error)]
pub enum ToldFault {
    #[error("more than 65,536 rows and extras")]
    TooMany,
    #[error("two ranges of one replica")]
    TwoRanges,
    #[error("a range that ends below its start")]
    BadRange,
    #[error("a count, text, meta or pid outside its limits, or a topic of another shard")]
    RowLimits,
    #[error("a live row whose dot is in no range and no extra")]
    LiveNotCovered,
    #[error("two live rows of one dot")]
    LiveTwice,
    #[error("out of memory")]
    OutOfMemory,
}

impl From<AllocError> for ToldFault {
    ghost use Rattle.std.specs.Prelude.{◌≡◌};
    ghost use Rattle.orswot_core.specs.declared.told.ToldFault.TheVariants.{OutOfMemory};

    ghost from_gives = { λ _ e. e ≡ OutOfMemory };

    fn from(_e: AllocError) -> ToldFault {
        ToldFault::OutOfMemory
    }
}

/// What is told of a set: ranges of dots (above one count, up to another), dots beside them, and
/// the rows that are live. A dot that is covered and not live was removed.
#[derive(Debug)]
pub struct Told {
    ranges: Vec<(Replica, u64, u64)>,
    extras: Vec<Dot>,
    live: Vec<(Dot, Row)>,
}

impl Drop for Told {
    fn drop(self) {
        let Told {
            ranges,
            extras,
            live,
        } = self;
        drop(ranges);
        drop(extras);
        drop(live);
    }
}

impl Model for Told {
    ghost use Rattle.orswot_core.specs.Telling.{ToldValue};
    ghost use Rattle.orswot_core.specs.ToldCodes.{told_code};
    ghost use Rattle.orswot_core.specs.Checks.{IsTold};

    ghost Value = { ToldValue };

    ghost coded = { told_code };

    ghost view = { λ t. record { ranges = t.ranges.items; extras = t.extras.items; live = t.live.items } };

    ghost invariant = { λ t. IsTold (record { ranges = t.ranges.items; extras = t.extras.items; live = t.live.items }) };
}

impl Told {
    /// The told value, where nothing is wrong with it for this one of `shards` shards. One that brings
    /// too many rows and extras is refused without memory.
    pub fn check(alloc: Global, raw: RawTold, shard: u32, shards: u32) -> Result<Told, ToldFault>
        requires { 1 ≤ shards }
        ensures answer { IsAnswer result (raw_value raw) (first_fault shard shards raw.form (raw_value raw)) }
        ensures many { is_too_many_in raw.form (raw_value raw) ≡ true → result ≡ Err TooMany }
    {
        let RawTold {
            form,
            ranges,
            extras,
            live,
        } = raw;
        if is_over_limit(form, ranges.len(), extras.len(), live.len()) {
            return Err(ToldFault::TooMany);
        }
        if has_range_astray(alloc, form, &ranges)? {
            return Err(ToldFault::TwoRanges);
        }
        if !are_ranges_forward(&ranges) {
            return Err(ToldFault::BadRange);
        }
        if !are_ranges_within(&ranges) || !are_dots_within(&extras) {
            return Err(ToldFault::RowLimits);
        }
        let live = checked_rows(alloc, live, shard, shards)?;
        if !are_live_covered(alloc, &ranges, &extras, &live)? {
            return Err(ToldFault::LiveNotCovered);
        }
        if has_live_twice(alloc, &live)? {
            return Err(ToldFault::LiveTwice);
        }
        Ok(Told {
            ranges,
            extras,
            live,
        })
    }

    /// The told value of these parts, where they are known to be sound.
    pub fn new(ranges: Vec<(Replica, u64, u64)>, extras: Vec<Dot>, live: Vec<(Dot, Row)>) -> Told
        requires { IsTold (record { ranges = ranges.items; extras = extras.items; live = live.items }) }
        ensures { result ≡ record { ranges = ranges.items; extras = extras.items; live = live.items } }
    {
        Told {
            ranges,
            extras,
            live,
        }
    }

    /// What is told of the replicas that the test takes.
    pub fn cut_to<T: ReplicaTest>(&self, alloc: Global, test: &T) -> Result<Told, AllocError>
        ensures { IfOk result (λ t. t ≡ cut_to (T.picks test.now) self.now) }
    {
        let ranges = cut_ranges(alloc, &self.ranges, test)?;
        let extras = cut_extras(alloc, &self.extras, test)?;
        let live = cut_rows(alloc, &self.live, test)?;
        Ok(Told::new(ranges, extras, live))
    }

    /// The replicas with the counts that they are covered above, and up to.
    pub fn ranges(&self) -> &[(Replica, u64, u64)]
        ensures ranges { result.now ≡ self.now.ranges }
        ensures told { IsTold self.now }
    {
        &self.ranges
    }

    pub fn extras(&self) -> &[Dot]
        ensures extras { result.now ≡ self.now.extras }
        ensures told { IsTold self.now }
    {
        &self.extras
    }

    pub fn live(&self) -> &[(Dot, Row)]
        ensures live { result.now ≡ self.now.live }
        ensures told { IsTold self.now }
    {
        &self.live
    }
}

// Whether so many ranges, extras and rows are more than a told value of this form may bring.
fn is_over_limit(form: Form, ranges: usize, extras: usize, live: usize) -> bool
    ensures { result ≡ nat_lt MAX_ROWS (sum_in form ranges extras live) }
{
    let left = match form {
        Form::One => MAX_ROWS,
        Form::Two if ranges > MAX_ROWS => return true,
        Form::Two => MAX_ROWS - ranges,
    };
    extras > left || live > left - extras
}

// Whether a range stands where its form has none.
fn has_range_astray(
    alloc: Global,
    form: Form,
    ranges: &[(Replica, u64, u64)],
) -> Result<bool, AllocError>
    ensures { IfOk result (λ b. b ≡ has_range_astray form ranges.now) }
{
    match form {
        Form::One => has_two_ranges(alloc, ranges),
        Form::Two => Ok(!are_in_order(ranges)),
    }
}

// Whether two ranges are of one replica.
fn has_two_ranges(alloc: Global, ranges: &[(Replica, u64, u64)]) -> Result<bool, AllocError>
    ensures { IfOk result (λ b. b ≡ has_repeat same_replica (replicas_of ranges.now)) }
{
    let mut seen = BTreeSet::new(alloc);
    for range in ranges {
        if seen.contains(&range.0) {
            return Ok(true);
        }
        seen.insert(range.0)?;
    }
    Ok(false)
}

fn may_precede(first: &(Replica, u64, u64), next: &(Replica, u64, u64)) -> bool
    ensures { result ≡ may_come_next first.now next.now }
{
    match first.0.cmp(&next.0) {
        Ordering::Less => true,
        Ordering::Equal => first.1 <= next.1 && first.2 <= next.1,
        Ordering::Greater => false,
    }
}

// Whether each range may come next to the one before it.
fn are_in_order(ranges: &[(Replica, u64, u64)]) -> bool
    ensures { result ≡ is_ordered ranges.now }
{
    let Some((first, rest)) = ranges.split_first() else {
        return true;
    };
    let mut last = *first;
    for range in rest {
        if !may_precede(&last, range) {
            return false;
        }
        last = *range;
    }
    true
}

// Whether two rows are of one dot.
fn has_live_twice(alloc: Global, live: &[(Dot, Row)]) -> Result<bool, AllocError>
    ensures { IfOk result (λ b. b ≡ has_repeat same_dot (dots_of live.now)) }
{
    let mut seen = BTreeSet::new(alloc);
    for row in live {
        if seen.contains(&row.0) {
            return Ok(true);
        }
        seen.insert(row.0)?;
    }
    Ok(false)
}

// Whether each row's dot is in a range or an extra.
fn are_live_covered(
    alloc: Global,
    ranges: &[(Replica, u64, u64)],
    extras: &[Dot],
    live: &[(Dot, Row)],
) -> Result<bool, AllocError>
    requires { list_all is_dot extras.now ≡ true }
    ensures { IfOk result (λ b. b ≡ list_all (λ x. is_told_by ranges.now extras.now x.0) live.now) }
{
    let covered = told_context(alloc, ranges, extras)?;
    Ok(are_rows_in(&covered, live))
}

fn are_rows_in(covered: &Context, live: &[(Dot, Row)]) -> bool
    ensures { result ≡ list_all (λ x. set.contains covered.now x.0) live.now }
{
    live.iter().all(|row| covered.covers(&row.0))
}

// The dots of the ranges and the extras.
pub fn told_context(
    alloc: Global,
    ranges: &[(Replica, u64, u64)],
    extras: &[Dot],
) -> Result<Context, AllocError>
    requires { list_all is_dot extras.now ≡ true }
    ensures { IfOk result (λ s. (q : DotValue) → set.contains s q ≡ is_told_by ranges.now extras.now q) }
{
    let mut covered = Context::new(alloc);
    add_ranges(&mut covered, alloc, ranges)?;
    add_dots(&mut covered, alloc, extras)?;
    Ok(covered)
}

fn add_ranges(
    covered: &mut Context,
    alloc: Global,
    ranges: &[(Replica, u64, u64)],
) -> Result<(), AllocError>
    ensures { OnOk result (CoversMore covered.old covered.new (lies_in ranges.now)) }
{
    for range in ranges {
        covered.add_range(alloc, range.0, range.1, range.2)?;
    }
    Ok(())
}

pub fn add_dots(covered: &mut Context, alloc: Global, dots: &[Dot]) -> Result<(), AllocError>
    requires { list_all is_dot dots.now ≡ true }
    ensures { OnOk result (CoversMore covered.old covered.new (is_among dots.now)) }
{
    for dot in dots {
        covered.add(alloc, *dot)?;
    }
    Ok(())
}
