// Gathering live rows by their dots.
ghost use Rattle.std.specs.Prelude.{◌≡◌, ◌++◌, ◌∷◌, [], IfOk, OnOk};
ghost use Rattle.std.specs.BTreeMap.{get};
ghost use Rattle.std.specs.List.Sorted.{IsStrictlySortedBy};
ghost use Rattle.std.specs.Map.{keys_of};
ghost use Rattle.presence_base.specs.Order.{dot_cmp, same_dot, same_replica};
ghost use Rattle.presence_journal.specs.History.{has_dot};
ghost use Rattle.tracker_known.specs.Picks.{Gathers, PutsRow};
ghost use Rattle.tracker_shown.specs.Turns.{IsListOf};

use orswot_core::Orswot;
use presence_base::{Dot, Replica, Row};
use std::alloc::{AllocError, Global};
use std::collections::BTreeMap;

// Puts a copy of a row.
fn put_row(rows: &mut BTreeMap<Dot, Row>, dot: &Dot, row: &Row) -> Result<(), AllocError>
    ensures { OnOk result (PutsRow rows.old rows.new dot.now row.now) }
{
    let row = row.clone()?;
    match rows.insert(*dot, row) {
        Ok(_) => Ok(()),
        Err(_) => Err(AllocError),
    }
}

// Gathers the row of the dot, where one is live.
pub(crate) fn gather_dot(
    rows: &mut BTreeMap<Dot, Row>,
    set: &Orswot,
    dot: &Dot,
) -> Result<(), AllocError>
    ensures { OnOk result (Gathers set.now.live (λ q. same_dot q dot.now) rows.old rows.new) }
{
    match set.row(dot) {
        Some(row) => put_row(rows, dot, row),
        None => Ok(()),
    }
}

// Gathers the rows of these dots.
pub(crate) fn gather_dots(
    rows: &mut BTreeMap<Dot, Row>,
    set: &Orswot,
    dots: &[Dot],
) -> Result<(), AllocError>
    ensures { OnOk result (Gathers set.now.live (has_dot dots.now) rows.old rows.new) }
{
    for dot in dots {
        gather_dot(rows, set, dot)?;
    }
    Ok(())
}

// Gathers the rows of a replica.
pub(crate) fn gather_replica(
    rows: &mut BTreeMap<Dot, Row>,
    set: &Orswot,
    replica: &Replica,
) -> Result<(), AllocError>
    ensures { OnOk result (Gathers set.now.live (λ q. same_replica q.replica replica.now) rows.old rows.new) }
{
    for (dot, _row) in set.rows_of(replica) {
        gather_dot(rows, set, dot)?;
    }
    Ok(())
}

fn push_copy(list: &mut Vec<(Dot, Row)>, dot: &Dot, row: &Row) -> Result<(), AllocError>
    ensures { OnOk result (list.new.items ≡ list.old.items ++ (dot.now, row.now) ∷ []) }
{
    let row = row.clone()?;
    list.push((*dot, row))?;
    Ok(())
}

// Copies of the rows, in order of dot.
fn copies(alloc: Global, rows: &BTreeMap<Dot, Row>) -> Result<Vec<(Dot, Row)>, AllocError>
    ensures rows { IfOk result (λ v. v.items ≡ rows.now.entries) }
    ensures ordered { IfOk result (λ _. IsStrictlySortedBy dot_cmp (keys_of rows.now.entries)) }
{
    let mut list = Vec::new(alloc);
    for (dot, row) in rows.iter() {
        push_copy(&mut list, dot, row)?;
    }
    Ok(list)
}

// The rows as a list, in order of dot.
pub(crate) fn listed(
    alloc: Global,
    rows: &BTreeMap<Dot, Row>,
) -> Result<Vec<(Dot, Row)>, AllocError>
    ensures { IfOk result (λ v. IsListOf (get dot_cmp rows.now) v.items) }
{
    copies(alloc, rows)
}
