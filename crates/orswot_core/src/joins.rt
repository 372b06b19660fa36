// Steps on covered dots and live rows. What is refused for memory is taken back without any.
ghost use Rattle.std.specs.Prelude.{◌≡◌, ◌≤◌, true, cond, not, ◌&&◌, ◌||◌, Some, None, is_some, OnOk, OnErr, IfOk, ◌++◌, ◌∷◌, []};
ghost use Rattle.std.specs.List.{list_all};
ghost use Rattle.std.specs.Map.{lookup};
ghost use Rattle.std.specs.BTreeMap.{get, IsUnchanged};
ghost use Rattle.std.specs.FinSet as set;
ghost use Rattle.presence_base.specs.Order.{dot_cmp, same_dot, same_replica};
ghost use Rattle.presence_base.specs.declared.dots.Dot.{Dot as DotValue};
ghost use Rattle.orswot_core.specs.Limits.{is_dot};
ghost use Rattle.orswot_core.specs.Telling.{range_has, lies_in, is_among, covers, live_row};
ghost use Rattle.orswot_core.specs.Checks.{is_forward};
ghost use Rattle.orswot_core.specs.Sets.{is_left, AreNeeded};
ghost use Rattle.orswot_core.specs.Steps.{ChangesRow, SameRows, KeepsRows, DropsRows, KeepsFirst, TakesMissing, KeepsCovered, Joins, AreCovered, CoversAll, Removes, lacks, is_missing_of, left_at, Lists, Gathers, GathersLeft};

use crate::rows::rows_in_range;
use crate::told::{Told, add_dots, told_context};
use dot_context::Context;
use presence_base::{Dot, Replica, Row};
use std::alloc::{AllocError, Global};
use std::collections::BTreeMap;

fn insert_row(live: &mut BTreeMap<Dot, Row>, dot: Dot, row: Row) -> Result<(), AllocError>
    ensures ok { OnOk result (ChangesRow live.old live.new dot (Some row)) }
    ensures err { OnErr result (IsUnchanged live.old live.new) }
{
    match live.insert(dot, row) {
        Ok(_) => Ok(()),
        Err(_) => Err(AllocError),
    }
}

fn take_row(live: &mut BTreeMap<Dot, Row>, dot: &Dot)
    ensures { ChangesRow live.old live.new dot.now None }
{
    live.remove(dot);
}

// Adds the row first, since a row can be taken out again without memory.
pub(crate) fn add_row(
    covered: &mut Context,
    live: &mut BTreeMap<Dot, Row>,
    alloc: Global,
    dot: Dot,
    row: Row,
) -> Result<(), AllocError>
    requires counted { 1 ≤ dot.count }
    requires new { get dot_cmp live.old dot ≡ None }
    ensures ok { OnOk result ((covered.new ≡ set.insert covered.old dot)
        × ChangesRow live.old live.new dot (Some row)) }
    ensures err { OnErr result ((covered.new ≡ covered.old) × SameRows live.old live.new) }
{
    insert_row(live, dot, row)?;
    match covered.add(alloc, dot) {
        Ok(()) => Ok(()),
        Err(e) => {
            take_row(live, &dot);
            Err(e)
        }
    }
}

// Keeps the rows whose dots are covered.
fn keep_covered(live: &mut BTreeMap<Dot, Row>, covered: &Context)
    ensures { KeepsRows live.old live.new (set.contains covered.now) }
{
    live.retain(|dot, _row| covered.covers(dot));
}

// Takes out the rows whose dots the other set covers and does not hold.
fn drop_removed(live: &mut BTreeMap<Dot, Row>, covered: &Context, others: &BTreeMap<Dot, Row>)
    ensures { KeepsRows live.old live.new (λ q. lacks covered.now q || is_some (get dot_cmp others.now q)) }
{
    live.retain(|dot, _row| !covered.covers(dot) || others.contains_key(dot));
}

// Takes out the replica's rows.
pub(crate) fn forget_rows(live: &mut BTreeMap<Dot, Row>, replica: &Replica)
    ensures { KeepsRows live.old live.new (λ q. not (same_replica q.replica replica.now)) }
{
    live.retain(|dot, _row| !dot.replica.cmp(replica).is_eq());
}

// Takes out the rows of these dots.
pub(crate) fn drop_dots(live: &mut BTreeMap<Dot, Row>, dots: &[Dot])
    ensures { DropsRows live.old live.new dots.now }
{
    for dot in dots {
        take_row(live, dot);
    }
}

// Adds the rows whose dots are not covered.
pub(crate) fn insert_missing(
    live: &mut BTreeMap<Dot, Row>,
    covered: &Context,
    others: &BTreeMap<Dot, Row>,
) -> Result<(), AllocError>
    ensures ok { OnOk result (TakesMissing covered.now others.now live.old live.new) }
    ensures kept { KeepsCovered covered.now others.now live.old live.new }
{
    for (dot, row) in others.iter() {
        if !covered.covers(dot) {
            let row = row.clone()?;
            insert_row(live, *dot, row)?;
        }
    }
    Ok(())
}

// Adds what is missing, covers, and then takes out what the other set removed. What is refused is taken back.
pub(crate) fn join_rows(
    covered: &mut Context,
    live: &mut BTreeMap<Dot, Row>,
    alloc: Global,
    other: &Context,
    others: &BTreeMap<Dot, Row>,
) -> Result<(), AllocError>
    requires { AreCovered covered.old live.old }
    ensures ok { OnOk result (Joins covered.old covered.new live.old live.new other.now others.now) }
    ensures err { OnErr result ((covered.new ≡ covered.old) × SameRows live.old live.new) }
{
    match insert_missing(live, covered, others) {
        Ok(()) => {}
        Err(e) => {
            keep_covered(live, covered);
            return Err(e);
        }
    }
    match covered.join(alloc, other) {
        Ok(()) => {
            drop_removed(live, other, others);
            Ok(())
        }
        Err(e) => {
            keep_covered(live, covered);
            Err(e)
        }
    }
}

// Inserts the row where its dot has none yet.
fn keep_first(live: &mut BTreeMap<Dot, Row>, row: &(Dot, Row)) -> Result<(), AllocError>
    ensures { OnOk result (KeepsFirst live.old live.new (λ q. cond (same_dot q row.now.0) (Some row.now.1) None)) }
{
    if live.contains_key(&row.0) {
        return Ok(());
    }
    let dot = row.0;
    let row = row.1.clone()?;
    insert_row(live, dot, row)
}

// The told rows by their dots, the first of each.
fn told_rows(alloc: Global, rows: &[(Dot, Row)]) -> Result<BTreeMap<Dot, Row>, AllocError>
    ensures { IfOk result (λ m. (q : DotValue) → get dot_cmp m q ≡ lookup (same_dot q) rows.now) }
{
    let mut live = BTreeMap::new(alloc);
    for row in rows {
        keep_first(&mut live, row)?;
    }
    Ok(live)
}

fn push_dot(dots: &mut Vec<Dot>, dot: &Dot) -> Result<(), AllocError>
    ensures { OnOk result (dots.new.items ≡ dots.old.items ++ dot.now ∷ []) }
{
    dots.push(*dot)?;
    Ok(())
}

// Gathers the dot where it is live here and not told live.
fn gather_dot(
    gone: &mut Vec<Dot>,
    live: &BTreeMap<Dot, Row>,
    told: &BTreeMap<Dot, Row>,
    dot: &Dot,
) -> Result<(), AllocError>
    ensures { OnOk result (GathersLeft live.now told.now gone.old.items gone.new.items (λ q. same_dot q dot.now)) }
{
    if !is_row_left(live, told, dot) {
        return Ok(());
    }
    push_dot(gone, dot)
}

fn is_row_left(live: &BTreeMap<Dot, Row>, told: &BTreeMap<Dot, Row>, dot: &Dot) -> bool
    ensures { result ≡ is_left (get dot_cmp live.now dot.now) (get dot_cmp told.now dot.now) }
{
    live.contains_key(dot) && !told.contains_key(dot)
}

fn gather_extras(
    gone: &mut Vec<Dot>,
    live: &BTreeMap<Dot, Row>,
    told: &BTreeMap<Dot, Row>,
    extras: &[Dot],
) -> Result<(), AllocError>
    ensures { OnOk result (GathersLeft live.now told.now gone.old.items gone.new.items (is_among extras.now)) }
{
    for dot in extras {
        gather_dot(gone, live, told, dot)?;
    }
    Ok(())
}

// Looks only at the live rows that lie in the range.
fn gather_range(
    gone: &mut Vec<Dot>,
    live: &BTreeMap<Dot, Row>,
    told: &BTreeMap<Dot, Row>,
    range: &(Replica, u64, u64),
) -> Result<(), AllocError>
    requires { is_forward range.now ≡ true }
    ensures { OnOk result (GathersLeft live.now told.now gone.old.items gone.new.items (λ q. range_has q range.now)) }
{
    for (dot, _row) in rows_in_range(live, range) {
        gather_dot(gone, live, told, dot)?;
    }
    Ok(())
}

fn gather_ranges(
    gone: &mut Vec<Dot>,
    live: &BTreeMap<Dot, Row>,
    told: &BTreeMap<Dot, Row>,
    ranges: &[(Replica, u64, u64)],
) -> Result<(), AllocError>
    requires { list_all is_forward ranges.now ≡ true }
    ensures { OnOk result (GathersLeft live.now told.now gone.old.items gone.new.items (lies_in ranges.now)) }
{
    for range in ranges {
        gather_range(gone, live, told, range)?;
    }
    Ok(())
}

// The dots of the rows that the told value takes out.
fn removed_dots(
    alloc: Global,
    live: &BTreeMap<Dot, Row>,
    rows: &BTreeMap<Dot, Row>,
    told: &Told,
) -> Result<Vec<Dot>, AllocError>
    ensures { IfOk result (λ gone. Lists gone.items (λ q. left_at live.now rows.now q && covers told.now q)) }
{
    let mut gone = Vec::new(alloc);
    gather_ranges(&mut gone, live, rows, told.ranges())?;
    gather_extras(&mut gone, live, rows, told.extras())?;
    Ok(gone)
}

// Gathers the dot where it is not covered.
fn gather_uncovered(added: &mut Vec<Dot>, covered: &Context, dot: &Dot) -> Result<(), AllocError>
    ensures { OnOk result (Gathers added.old.items added.new.items (λ q. lacks covered.now q && same_dot q dot.now)) }
{
    if covered.covers(dot) {
        return Ok(());
    }
    push_dot(added, dot)
}

// The dots of the rows that a join adds.
fn missing_dots(
    alloc: Global,
    covered: &Context,
    rows: &[(Dot, Row)],
) -> Result<Vec<Dot>, AllocError>
    ensures { IfOk result (λ added. Lists added.items (is_missing_of covered.now rows.now)) }
{
    let mut added = Vec::new(alloc);
    for row in rows {
        gather_uncovered(&mut added, covered, &row.0)?;
    }
    Ok(added)
}

/// What a join with a told value needs: the dots that it covers, its rows by their dots, the dots of the rows that it adds,
/// and those of the rows that it takes out.
#[derive(Drop)]
pub(crate) struct Parts {
    pub(crate) heard: Context,
    pub(crate) rows: BTreeMap<Dot, Row>,
    pub(crate) added: Vec<Dot>,
    pub(crate) gone: Vec<Dot>,
}

// It looks at no live row outside what is told.
pub(crate) fn parts_of(
    alloc: Global,
    covered: &Context,
    live: &BTreeMap<Dot, Row>,
    told: &Told,
) -> Result<Parts, AllocError>
    ensures heard { IfOk result (λ p. (q : DotValue) → set.contains p.heard q ≡ covers told.now q) }
    ensures rows { IfOk result (λ p. (q : DotValue) → get dot_cmp p.rows q ≡ live_row told.now q) }
    ensures needed { IfOk result (λ p. AreNeeded covered.now live.now p.heard p.rows p.added.items p.gone.items) }
{
    let heard = told_context(alloc, told.ranges(), told.extras())?;
    let rows = told_rows(alloc, told.live())?;
    let added = missing_dots(alloc, covered, told.live())?;
    let gone = removed_dots(alloc, live, &rows, told)?;
    Ok(Parts {
        heard,
        rows,
        added,
        gone,
    })
}

fn are_covered(covered: &Context, dots: &[Dot]) -> bool
    ensures { result ≡ list_all (set.contains covered.now) dots.now }
{
    dots.iter().all(|dot| covered.covers(dot))
}

// Dots that are covered already cost nothing.
fn cover_dots(
    covered: &mut Context,
    alloc: Global,
    dots: &[Dot],
    event: Dot,
) -> Result<(), AllocError>
    requires dots { list_all is_dot dots.now ≡ true }
    requires event { 1 ≤ event.count }
    ensures ok { OnOk result (CoversAll covered.old covered.new event dots.now) }
    ensures err { OnErr result (covered.new ≡ covered.old) }
{
    if are_covered(covered, dots) {
        return covered.add(alloc, event);
    }
    let mut more = Context::new(alloc);
    add_dots(&mut more, alloc, dots)?;
    more.add(alloc, event)?;
    covered.join(alloc, &more)
}

// Covers first: the rows are then taken out without memory.
pub(crate) fn remove_rows(
    covered: &mut Context,
    live: &mut BTreeMap<Dot, Row>,
    alloc: Global,
    dots: &[Dot],
    event: Dot,
) -> Result<(), AllocError>
    requires dots { list_all is_dot dots.now ≡ true }
    requires event { 1 ≤ event.count }
    ensures ok { OnOk result (Removes covered.old live.old dots.now event covered.new live.new) }
    ensures err { OnErr result ((covered.new ≡ covered.old) × SameRows live.old live.new) }
{
    cover_dots(covered, alloc, dots, event)?;
    drop_dots(live, dots);
    Ok(())
}
