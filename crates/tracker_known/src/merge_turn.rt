// The turn of a merge: it looks at what is told, and at the live rows in the ranges that are told.
ghost use Rattle.std.specs.Prelude.{◌≡◌, ◌&&◌, ◌++◌, ◌∷◌, [], true, not, is_some, IfOk, OnOk};
ghost use Rattle.std.specs.List.{filter, list_all};
ghost use Rattle.std.specs.Map.{lookup};
ghost use Rattle.std.specs.BTreeSet.{contains as contains_dot};
ghost use Rattle.std.specs.FinSet as dots_in;
ghost use Rattle.presence_base.specs.declared.dots.Dot.{Dot as DotValue};
ghost use Rattle.presence_base.specs.Order.{dot_cmp, same_dot};
ghost use Rattle.orswot_core.specs.Checks.{is_forward};
ghost use Rattle.tracker_known.specs.Picks.{Gathers, IsPick, shows_told, is_new, row_told, is_out, out_of, one_untold, shown_out_of, one_extra_out, out_ranges, out_extras};
ghost use Rattle.tracker_shown.specs.Turns.{IsListOf};

use crate::gather::{gather_dot, listed};
use crate::others::{Others, is_same, is_up};
use orswot_core::{Orswot, Told};
use presence_base::{Dot, Replica, Row};
use std::alloc::{AllocError, Global};
use std::collections::{BTreeMap, BTreeSet};
use tracker_shown::Turn;

// Whether rows that are told of the replica are shown.
fn shows_told(others: &Others, replica: &Replica) -> bool
    ensures { result ≡ shows_told others.now replica.now }
{
    !is_same(replica, &others.own) && is_up(others.status(replica))
}

// Whether a told row is new, and shown.
fn is_new(set: &Orswot, others: &Others, dot: &Dot) -> bool
    ensures { result ≡ is_new set.now others.now dot.now }
{
    shows_told(others, &dot.replica) && !set.covers(dot)
}

fn push_copy(rows: &mut Vec<(Dot, Row)>, row: &(Dot, Row)) -> Result<(), AllocError>
    ensures { OnOk result (rows.new.items ≡ rows.old.items ++ row.now ∷ []) }
{
    let row = row.clone()?;
    rows.push(row)?;
    Ok(())
}

// The told rows that are new, and shown.
fn new_rows(
    alloc: Global,
    set: &Orswot,
    others: &Others,
    live: &[(Dot, Row)],
) -> Result<Vec<(Dot, Row)>, AllocError>
    ensures { IfOk result (λ v. v.items ≡ filter (λ x. is_new set.now others.now x.0) live.now) }
{
    let mut rows = Vec::new(alloc);
    for row in live {
        if is_new(set, others, &row.0) {
            push_copy(&mut rows, row)?;
        }
    }
    Ok(rows)
}

// The dots that are told live.
fn live_dots(alloc: Global, live: &[(Dot, Row)]) -> Result<BTreeSet<Dot>, AllocError>
    ensures { IfOk result (λ s. (d : DotValue) → contains_dot dot_cmp s d ≡ is_some (lookup (same_dot d) live.now)) }
{
    let mut dots = BTreeSet::new(alloc);
    for row in live {
        dots.insert(row.0)?;
    }
    Ok(dots)
}

// Gathers the row of a dot that is not told live.
fn gather_untold(
    rows: &mut BTreeMap<Dot, Row>,
    set: &Orswot,
    told: &BTreeSet<Dot>,
    dot: &Dot,
) -> Result<(), AllocError>
    ensures { OnOk result (Gathers set.now.live (one_untold told.now dot.now) rows.old rows.new) }
{
    if told.contains(dot) {
        return Ok(());
    }
    gather_dot(rows, set, dot)
}

// Gathers the rows of the range that are not told live. It looks at no other live rows than those in the range.
fn gather_range(
    rows: &mut BTreeMap<Dot, Row>,
    set: &Orswot,
    told: &BTreeSet<Dot>,
    range: &(Replica, u64, u64),
) -> Result<(), AllocError>
    requires { is_forward range.now ≡ true }
    ensures { OnOk result (Gathers set.now.live (out_of told.now range.now) rows.old rows.new) }
{
    for (dot, _row) in set.rows_in(range) {
        gather_untold(rows, set, told, dot)?;
    }
    Ok(())
}

// The same, where the rows of its replica are shown.
fn gather_shown_range(
    rows: &mut BTreeMap<Dot, Row>,
    set: &Orswot,
    others: &Others,
    told: &BTreeSet<Dot>,
    range: &(Replica, u64, u64),
) -> Result<(), AllocError>
    requires { is_forward range.now ≡ true }
    ensures { OnOk result (Gathers set.now.live (shown_out_of others.now told.now range.now) rows.old rows.new) }
{
    if !shows_told(others, &range.0) {
        return Ok(());
    }
    gather_range(rows, set, told, range)
}

// Gathers the rows that the ranges take out.
fn gather_ranges(
    rows: &mut BTreeMap<Dot, Row>,
    set: &Orswot,
    others: &Others,
    told: &BTreeSet<Dot>,
    ranges: &[(Replica, u64, u64)],
) -> Result<(), AllocError>
    requires { list_all is_forward ranges.now ≡ true }
    ensures { OnOk result (Gathers set.now.live (out_ranges others.now told.now ranges.now) rows.old rows.new) }
{
    for range in ranges {
        gather_shown_range(rows, set, others, told, range)?;
    }
    Ok(())
}

// Whether a row of the dot would be shown, and the dot is not told live.
fn is_extra_out(others: &Others, told: &BTreeSet<Dot>, dot: &Dot) -> bool
    ensures { result ≡ (shows_told others.now dot.now.replica && not (contains_dot dot_cmp told.now dot.now)) }
{
    shows_told(others, &dot.replica) && !told.contains(dot)
}

// Gathers the row of a dot that is told beside the ranges, where it goes.
fn gather_extra(
    rows: &mut BTreeMap<Dot, Row>,
    set: &Orswot,
    others: &Others,
    told: &BTreeSet<Dot>,
    dot: &Dot,
) -> Result<(), AllocError>
    ensures { OnOk result (Gathers set.now.live (one_extra_out others.now told.now dot.now) rows.old rows.new) }
{
    if !is_extra_out(others, told, dot) {
        return Ok(());
    }
    gather_dot(rows, set, dot)
}

// Gathers the rows that the extras take out.
fn gather_extras(
    rows: &mut BTreeMap<Dot, Row>,
    set: &Orswot,
    others: &Others,
    told: &BTreeSet<Dot>,
    extras: &[Dot],
) -> Result<(), AllocError>
    ensures { OnOk result (Gathers set.now.live (out_extras others.now told.now extras.now) rows.old rows.new) }
{
    for dot in extras {
        gather_extra(rows, set, others, told, dot)?;
    }
    Ok(())
}

// The rows that what is told takes out.
fn out_rows(
    alloc: Global,
    set: &Orswot,
    others: &Others,
    told: &Told,
) -> Result<Vec<(Dot, Row)>, AllocError>
    ensures { IfOk result (λ v. IsPick set.now.live (is_out others.now told.now) v.items) }
{
    let live = live_dots(alloc, told.live())?;
    let mut rows = BTreeMap::new(alloc);
    gather_ranges(&mut rows, set, others, &live, told.ranges())?;
    gather_extras(&mut rows, set, others, &live, told.extras())?;
    listed(alloc, &rows)
}

/// The turn of a merge.
pub fn turn_of_merge(
    alloc: Global,
    set: &Orswot,
    others: &Others,
    told: &Told,
) -> Result<Turn, AllocError>
    ensures joins { IfOk result (λ t. IsListOf (row_told set.now others.now told.now) t.joins.items) }
    ensures leaves { IfOk result (λ t. IsPick set.now.live (is_out others.now told.now) t.leaves.items) }
{
    let joins = new_rows(alloc, set, others, told.live())?;
    let leaves = out_rows(alloc, set, others, told)?;
    Ok(Turn { joins, leaves })
}
