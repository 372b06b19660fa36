// The own rows above the last cut.
ghost use Rattle.std.specs.Prelude.{◌≡◌, Some, None, cond, IfOk, OnErr, OnOk};
ghost use Rattle.std.specs.BTreeMap.{get};
ghost use Rattle.std.specs.List.Sorted.{IsStrictlySortedBy};
ghost use Rattle.std.specs.Map.{keys_of, lookup};
ghost use Rattle.presence_base.specs.declared.dots.Dot.{Dot};
ghost use Rattle.presence_base.specs.Order.{dot_cmp, same_dot, same_replica};
ghost use Rattle.presence_journal.specs.History.{Begin, onto, row_added};
ghost use Rattle.presence_journal.specs.Walk.{row_at, without_dots};
ghost use Rattle.presence_journal_known.specs.ByDot.{Alike, over};
ghost use Rattle.presence_journal.specs.Table.{IsLegal};
ghost use Rattle.presence_journal_cuts.specs.Chains.{recent_after, AreNextRecent};
ghost use Rattle.presence_journal_cuts.specs.Reborn.{of_replica, own_live};
ghost use Rattle.presence_journal_cuts.specs.Cuts.{recent};

use crate::kept::kept_rows;
use crate::last::dots_out;
use orswot_core::Orswot;
use presence_base::{Dot, Replica, Row};
use presence_journal::{Entry, Journal, Outcome, Start, own_of};
use presence_journal_known::{made_row, walk_set_of};
use std::alloc::{AllocError, Global};
use std::collections::BTreeMap;

// The row under a dot.
fn under_dot(dot: Dot, row: Option<Row>) -> Option<(Dot, Row)>
    ensures { (d : Dot) → row_at result d ≡ cond (same_dot d dot) row None }
{
    match row {
        Some(row) => Some((dot, row)),
        None => None,
    }
}

/// Puts a row under its dot.
pub fn put_row(rows: &mut BTreeMap<Dot, Row>, added: Option<(Dot, Row)>) -> Result<(), AllocError>
    ensures ok { OnOk result (Alike (get dot_cmp rows.new) (over (row_at added) (get dot_cmp rows.old))) }
    ensures err { OnErr result (Alike (get dot_cmp rows.new) (get dot_cmp rows.old)) }
{
    if let Some((dot, row)) = added {
        rows.insert(dot, row)?;
    }
    Ok(())
}

/// The row that an entry adds, with its dot.
pub fn added_row(entry: &Entry) -> Result<Option<(Dot, Row)>, AllocError>
    ensures { IfOk result (λ o. (d : Dot) → row_at o d ≡ row_added entry.now.step entry.now.outcome d) }
{
    match &entry.outcome {
        Outcome::Added(new) => {
            let row = made_row(&entry.step, None)?;
            Ok(under_dot(*new.get(), row))
        }
        Outcome::Replaced(new, old) => {
            let row = made_row(&entry.step, Some(*old.get()))?;
            Ok(under_dot(*new.get(), row))
        }
        _ => Ok(None),
    }
}

/// Takes the rows of these dots out. Takes no memory.
pub fn drop_dots(rows: &mut BTreeMap<Dot, Row>, dots: &[Dot])
    ensures { Alike (get dot_cmp rows.new) (without_dots dots.now (get dot_cmp rows.old)) }
{
    for dot in dots {
        drop_dot(rows, dot);
    }
}

fn drop_dot(rows: &mut BTreeMap<Dot, Row>, dot: &Dot)
    ensures { (d : Dot) → get dot_cmp rows.new d ≡ cond (same_dot dot.now d) None (get dot_cmp rows.old d) }
{
    rows.remove(dot);
}

// What an entry makes of the rows.
fn take_entry(alloc: Global, rows: &mut BTreeMap<Dot, Row>, entry: &Entry) -> Result<(), AllocError>
    ensures { OnOk result (Alike (get dot_cmp rows.new) (recent_after entry.now (get dot_cmp rows.old))) }
{
    if let Outcome::CutAt(_, _) = &entry.outcome {
        *rows = BTreeMap::new(alloc);
        return Ok(());
    }
    drop_dots(rows, dots_out(&entry.outcome));
    let added = added_row(entry)?;
    put_row(rows, added)
}

// The row with its dot, where it is kept.
fn kept_row(is_kept: bool, dot: &Dot, row: &Row) -> Result<Option<(Dot, Row)>, AllocError>
    ensures { IfOk result (λ o. o ≡ cond is_kept (Some (dot.now, row.now)) None) }
{
    if is_kept {
        Ok(Some((*dot, row.clone()?)))
    } else {
        Ok(None)
    }
}

// Whether the dot is of the replica.
fn is_of(dot: &Dot, own: &Replica) -> bool
    ensures { result ≡ same_replica dot.now.replica own.now }
{
    dot.replica.cmp(own).is_eq()
}

// The live rows of a replica, by dot.
fn rows_of(alloc: Global, set: &Orswot, own: &Replica) -> Result<BTreeMap<Dot, Row>, AllocError>
    ensures { IfOk result (λ m. Alike (get dot_cmp m) (of_replica own.now set.now)) }
{
    let mut rows = BTreeMap::new(alloc);
    for (dot, row) in set.rows() {
        let is_kept = is_of(dot, own);
        put_row(&mut rows, kept_row(is_kept, dot, row)?)?;
    }
    Ok(rows)
}

// The own rows after these entries, all of which are above the last cut where the last entry is a rebirth.
fn own_rows(
    alloc: Global,
    start: &Start,
    entries: &[Entry],
) -> Result<BTreeMap<Dot, Row>, AllocError>
    requires { IsLegal (onto (Begin start.now) entries.now) }
    ensures { IfOk result (λ m. Alike (get dot_cmp m) (own_live (onto (Begin start.now) entries.now))) }
{
    let own = own_of(start, entries);
    let set = walk_set_of(alloc, start, entries)?;
    rows_of(alloc, &set, &own)
}

// Takes the last of these entries into the rows.
fn next_rows(
    alloc: Global,
    rows: &mut BTreeMap<Dot, Row>,
    start: &Start,
    entries: &[Entry],
    entry: &Entry,
) -> Result<(), AllocError>
    requires { IsLegal (onto (Begin start.now) entries.now) }
    ensures { OnOk result
        (AreNextRecent entry.now (onto (Begin start.now) entries.now) (get dot_cmp rows.old) (get dot_cmp rows.new)) }
{
    match &entry.outcome {
        Outcome::Reborn(_) => {
            *rows = own_rows(alloc, start, entries)?;
            Ok(())
        }
        _ => take_entry(alloc, rows, entry),
    }
}

// The own rows above the last cut, by dot.
fn walk_recent(alloc: Global, journal: &Journal) -> Result<BTreeMap<Dot, Row>, AllocError>
    ensures { IfOk result (λ m. Alike (get dot_cmp m) (recent journal.now)) }
{
    let start = journal.start();
    let entries = journal.entries();
    let mut rows = kept_rows(alloc, start)?;
    for (place, entry) in entries.iter().enumerate() {
        next_rows(alloc, &mut rows, start, &entries[..place + 1], entry)?;
    }
    Ok(rows)
}

// The rows in order of dot.
fn rows_in_order(alloc: Global, rows: BTreeMap<Dot, Row>) -> Result<Vec<(Dot, Row)>, AllocError>
    ensures rows { IfOk result (λ v. v.items ≡ rows.entries) }
    ensures ordered { OnOk result (IsStrictlySortedBy dot_cmp (keys_of rows.entries)) }
{
    let mut listed = Vec::new(alloc);
    for (dot, row) in rows {
        listed.push((dot, row))?;
    }
    Ok(listed)
}

/// The own rows above the last cut, in order of dot.
pub(crate) fn recent_rows(alloc: Global, journal: &Journal) -> Result<Vec<(Dot, Row)>, AllocError>
    ensures rows { IfOk result (λ v. Alike (λ d. lookup (same_dot d) v.items) (recent journal.now)) }
    ensures ordered { IfOk result (λ v. IsStrictlySortedBy dot_cmp (keys_of v.items)) }
{
    let rows = walk_recent(alloc, journal)?;
    rows_in_order(alloc, rows)
}
