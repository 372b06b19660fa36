//! Deltas.
ghost use Rattle.std.specs.Prelude.{◌≡◌, ◌++◌, ◌∷◌, [], false, nat_le, IfOk, IfErr, Ok, None};
ghost use Rattle.std.specs.List.{list_all};
ghost use Rattle.presence_base.specs.Names.{guarded};
ghost use Rattle.presence_base.specs.Order.{same_replica};
ghost use Rattle.orswot_core.specs.Telling.{range_has};
ghost use Rattle.orswot_core.specs.declared.form.Form.TheVariants.{One, Two};
ghost use Rattle.delta_range.specs.Deltas.{DeltaValue, telling, telling_in, delta_of, is_older, is_older_range, is_delta, IsDelta, GoesOn};
ghost use Rattle.delta_range.specs.Fitting.{older_in, fits_line};
ghost use Rattle.delta_range.specs.Growing.{IsRemoval};
ghost use Rattle.delta_range.specs.Joining.{joined, Joined, IsJoinAnswer};

use crate::fault::DeltaFault;
use crate::fitting::have_at_most;
use crate::growth::{Growth, Removal, removal_of};
use crate::joining::{one_range, ranges_before, rows_of};
use crate::runs::{dots_of, longest, push_ends, runs_of};
use orswot_core::{Form, MAX_ROWS, Told};
use presence_base::{Dot, Replica, Row};
use std::alloc::{AllocError, Global};
use std::marker::Model;

/// What an owner tells of its counts above one and up to another: the rows of that range that are
/// live, and older counts of its own that were removed meanwhile, as longest runs (a delta of
/// Phoenix.Tracker, over the set of Bieniusa et al., 2012).
#[derive(Debug)]
pub struct Delta {
    owner: Replica,
    from: u64,
    to: u64,
    older: Vec<(u64, u64)>,
    live: Vec<(Dot, Row)>,
}

impl Drop for Delta {
    fn drop(self) {
        let Delta {
            owner: _,
            from: _,
            to: _,
            older,
            live,
        } = self;
        drop(older);
        drop(live);
    }
}

impl Model for Delta {
    ghost use Rattle.delta_range.specs.Deltas.{DeltaValue, IsDelta};
    ghost use Rattle.delta_range.specs.Codes.{delta_code};

    ghost Value = { DeltaValue };

    ghost coded = { delta_code };

    ghost view = { λ d. record { owner = d.owner; from = d.from; to = d.to; older = d.older.items; live = d.live.items } };

    ghost invariant = { λ d. IsDelta (record { owner = d.owner; from = d.from; to = d.to; older = d.older.items; live = d.live.items }) };
}

impl Delta {
    /// The delta of these parts, where they are known to be sound: each run of `older` is the count below its first one and
    /// its last one, and none is above `from`. Takes no memory.
    pub fn new(
        owner: Replica,
        from: u64,
        to: u64,
        older: Vec<(u64, u64)>,
        live: Vec<(Dot, Row)>,
    ) -> Delta
        requires { IsDelta (record { owner = owner; from = from; to = to; older = older.items; live = live.items }) }
        ensures { result ≡ record { owner = owner; from = from; to = to; older = older.items; live = live.items } }
    {
        Delta {
            owner,
            from,
            to,
            older,
            live,
        }
    }

    /// The told value as a delta, where all its rows lie in its last range, and its other ranges, of which none is empty, and all
    /// its extras are of the same owner, at or below where that one begins. None needs no memory.
    pub fn of_told(alloc: Global, told: &Told) -> Result<Option<Delta>, AllocError>
        ensures delta { IfOk result (λ o. o ≡ guarded (is_delta told.now) (delta_of told.now)) }
        ensures none { is_delta told.now ≡ false → result ≡ Ok None }
    {
        let Some((range, before)) = told.ranges().split_last() else {
            return Ok(None);
        };
        if !has_delta_form(told, range, before) {
            return Ok(None);
        }
        let mut runs = runs_of(alloc, told.extras())?;
        push_ends(&mut runs, before)?;
        let older = longest(alloc, runs)?;
        let live = rows_of(alloc, told.live())?;
        Ok(Some(Delta::new(range.0, range.1, range.2, older, live)))
    }

    /// The replica whose dots it tells.
    pub fn owner(&self) -> Replica
        ensures { result ≡ self.now.owner }
    {
        self.owner
    }

    /// The count above which its range begins.
    pub fn from(&self) -> u64
        ensures { result ≡ self.now.from }
    {
        self.from
    }

    /// The last count of its range.
    pub fn to(&self) -> u64
        ensures { result ≡ self.now.to }
    {
        self.to
    }

    /// The longest runs of the older counts that it tells beside its range, in order.
    pub fn older(&self) -> &[(u64, u64)]
        ensures older { result.now ≡ self.now.older }
        ensures delta { IsDelta self.now }
    {
        let _live = &self.live;
        &self.older
    }

    /// The rows that are live.
    pub fn live(&self) -> &[(Dot, Row)]
        ensures live { result.now ≡ self.now.live }
        ensures delta { IsDelta self.now }
    {
        &self.live
    }

    /// Whether the form has so much at most for its older runs: in the first an extra for each count, in the second a range for
    /// each run. Counts are those of the ends of the runs: it costs a look at each run, however long. Takes no memory.
    pub fn tells_at_most(&self, most: u64, form: Form) -> bool
        ensures { result ≡ nat_le (older_in form self.now) most }
    {
        let older = self.older();
        match form {
            Form::One => have_at_most(older, most),
            Form::Two => older.len() as u64 <= most,
        }
    }

    /// Whether it tells no more in the form than a node takes in: rows and older counts in the first, rows, older runs and its
    /// own range in the second. Counts are those of the ends of the runs: it costs a look at each run, however long, and makes
    /// no dot. Takes no memory.
    pub fn fits_line(&self, form: Form) -> bool
        ensures { result ≡ fits_line form self.now }
    {
        match form {
            Form::One => fits_in_dots(self),
            Form::Two => fits_in_runs(self),
        }
    }

    /// The two as one, where the next begins at the count where this one ends. What the next removed
    /// is gone from it, and what lies in its range is no older count. Two that don't go together are
    /// refused without memory. The cost is that of copying the rows of both, and, where the next has
    /// older runs, of a search among them for each row of this one and of a sort of the runs.
    pub fn join_next(&self, alloc: Global, next: &Delta) -> Result<Delta, DeltaFault>
        ensures answer { IsJoinAnswer result self.now next.now }
        ensures joined { IfOk result (λ d. Joined self.now next.now d) }
    {
        if !have_same_owner(self, next) {
            return Err(DeltaFault::OtherOwner);
        }
        if self.to() != next.from() {
            return Err(DeltaFault::NotContiguous);
        }
        match join_contiguous(alloc, self, next) {
            Ok(joined) => Ok(joined),
            Err(_) => Err(DeltaFault::OutOfMemory),
        }
    }

    /// Copies the rows of the next delta, and makes room for them. Where memory is refused, it answers the delta as it was.
    pub(crate) fn plan_join(
        self,
        alloc: Global,
        removal: Option<Removal>,
        next: &Delta,
    ) -> Result<Growth, Delta>
        requires follows { GoesOn self.owner self.to next.now }
        requires removal { IsRemoval removal self next.now }
        ensures before { IfOk result (λ g. g.before ≡ self) }
        ensures after { IfOk result (λ g. g.after ≡ joined self next.now) }
        ensures joined { IfOk result (λ g. Joined self next.now g.after) }
        ensures err { IfErr result (λ d. d ≡ self) }
    {
        let Ok(rows) = rows_of(alloc, next.live()) else {
            return Err(self);
        };
        let Delta {
            owner,
            from,
            to,
            older,
            mut live,
        } = self;
        let end = next.to();
        match live.reserve(rows.len()) {
            Ok(()) => Ok(Growth {
                owner,
                from,
                to,
                older,
                live,
                removal,
                rows,
                end,
            }),
            Err(_) => Err(Delta {
                owner,
                from,
                to,
                older,
                live,
            }),
        }
    }

    /// The same as a told value of the form: in the first with an extra for each older count, in the second with a range for each
    /// older run.
    pub fn told(&self, alloc: Global, form: Form) -> Result<Told, AllocError>
        ensures { IfOk result (λ t. t ≡ telling_in form self.now) }
    {
        match form {
            Form::One => self.told_in_dots(alloc),
            Form::Two => self.told_in_runs(alloc),
        }
    }

    fn told_in_runs(&self, alloc: Global) -> Result<Told, AllocError>
        ensures { IfOk result (λ t. t ≡ telling_in Two self.now) }
    {
        let owner = self.owner();
        let older = self.older();
        let ranges = ranges_before(alloc, &owner, older, (self.from(), self.to()))?;
        let live = rows_of(alloc, self.live())?;
        Ok(Told::new(ranges, Vec::new(alloc), live))
    }

    fn told_in_dots(&self, alloc: Global) -> Result<Told, AllocError>
        ensures { IfOk result (λ t. t ≡ telling self.now) }
    {
        let owner = self.owner();
        let ranges = one_range(alloc, owner, self.from(), self.to())?;
        let extras = dots_of(alloc, &owner, self.older())?;
        let live = rows_of(alloc, self.live())?;
        Ok(Told::new(ranges, extras, live))
    }
}

impl Clone for Delta {
    ghost use Rattle.std.specs.Prelude.{◌≡◌};

    ghost is_clone = { λ d e. e ≡ d };

    fn clone(&self) -> Result<Delta, AllocError> {
        let older = self.older.clone()?;
        let live = self.live.clone()?;
        Ok(Delta {
            owner: self.owner,
            from: self.from,
            to: self.to,
            older,
            live,
        })
    }
}

fn have_same_owner(first: &Delta, next: &Delta) -> bool
    ensures { result ≡ same_replica first.now.owner next.now.owner }
{
    first.owner().cmp(&next.owner()).is_eq()
}

fn is_dot_older(dot: &Dot, owner: &Replica, from: u64) -> bool
    ensures { result ≡ is_older owner.now from dot.now }
{
    dot.replica.cmp(owner).is_eq() && dot.count <= from
}

fn are_older(dots: &[Dot], owner: &Replica, from: u64) -> bool
    ensures { result ≡ list_all (is_older owner.now from) dots.now }
{
    dots.iter().all(|dot| is_dot_older(dot, owner, from))
}

fn is_dot_within(dot: &Dot, range: &(Replica, u64, u64)) -> bool
    ensures { result ≡ range_has dot.now range.now }
{
    dot.replica.cmp(&range.0).is_eq() && (range.1 < dot.count && dot.count <= range.2)
}

fn are_within(rows: &[(Dot, Row)], range: &(Replica, u64, u64)) -> bool
    ensures { result ≡ list_all (λ x. range_has x.0 range.now) rows.now }
{
    rows.iter().all(|row| is_dot_within(&row.0, range))
}

fn fits_in_dots(delta: &Delta) -> bool
    ensures { result ≡ fits_line One delta.now }
{
    let rows = delta.live().len();
    rows <= MAX_ROWS && have_at_most(delta.older(), (MAX_ROWS - rows) as u64)
}

fn fits_in_runs(delta: &Delta) -> bool
    ensures { result ≡ fits_line Two delta.now }
{
    let rows = delta.live().len();
    rows < MAX_ROWS && delta.older().len() < MAX_ROWS - rows
}

fn is_range_older(range: &(Replica, u64, u64), owner: &Replica, from: u64) -> bool
    ensures { result ≡ is_older_range owner.now from range.now }
{
    range.0.cmp(owner).is_eq() && (range.1 < range.2 && range.2 <= from)
}

fn are_ranges_older(ranges: &[(Replica, u64, u64)], owner: &Replica, from: u64) -> bool
    ensures { result ≡ list_all (is_older_range owner.now from) ranges.now }
{
    ranges
        .iter()
        .all(|range| is_range_older(range, owner, from))
}

// Whether a told value with this range behind these is a delta's.
fn has_delta_form(told: &Told, range: &(Replica, u64, u64), before: &[(Replica, u64, u64)]) -> bool
    requires { told.now.ranges ≡ before.now ++ range.now ∷ [] }
    ensures { result ≡ is_delta told.now }
{
    are_ranges_older(before, &range.0, range.1)
        && (are_older(told.extras(), &range.0, range.1) && are_within(told.live(), range))
}

// The two as one, where the second goes on from the first.
fn join_contiguous(alloc: Global, first: &Delta, next: &Delta) -> Result<Delta, AllocError>
    requires { GoesOn first.now.owner first.now.to next.now }
    ensures value { IfOk result (λ d. d ≡ joined first.now next.now) }
    ensures joined { IfOk result (λ d. Joined first.now next.now d) }
{
    let removal = removal_of(alloc, first, next)?;
    let copied = first.clone()?;
    match copied.plan_join(alloc, removal, next) {
        Ok(growth) => Ok(growth.commit()),
        Err(_) => Err(AllocError),
    }
}
