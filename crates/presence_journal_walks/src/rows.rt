// The rows of a topic that are shown, by dot, and in order of key and dot.
ghost use Rattle.std.specs.Prelude.{◌≡◌, ◌&&◌, [], IfOk, OnOk, cond, Some, None, map as each};
ghost use Rattle.std.specs.BTreeMap.{get, IsOrdered};
ghost use Rattle.presence_base.specs.Order.{dot_cmp, same_dot, same_text};
ghost use Rattle.presence_journal.specs.History.{Begin, onto, is_up, status};
ghost use Rattle.presence_journal.specs.Present.{RowMap, in_order};
ghost use Rattle.presence_journal.specs.Walk.{IsTableOf, placed, row_at, shown_of};
ghost use Rattle.presence_journal_walks.specs.Rows.{apart};
ghost use Rattle.presence_journal_known.specs.ByDot.{Alike, over};
ghost use Rattle.presence_journal_known.specs.Walked.{Holds};

use crate::steps::is_up;
use orswot_core::Orswot;
use presence_base::{Dot, Row, Topic};
use presence_journal::{Entry, Place, Start};
use presence_journal_known::status_after;
use std::alloc::{AllocError, Global};
use std::collections::BTreeMap;

// The row under a dot.
pub(crate) fn under_dot(dot: Dot, row: Option<Row>) -> Option<(Dot, Row)>
    ensures { (d : Dot) → row_at result d ≡ cond (same_dot d dot) row None }
{
    match row {
        Some(row) => Some((dot, row)),
        None => None,
    }
}

// Puts a row under its dot.
pub(crate) fn put_row(
    rows: &mut BTreeMap<Dot, Row>,
    added: Option<(Dot, Row)>,
) -> Result<(), AllocError>
    ensures { OnOk result (Alike (get dot_cmp rows.new) (over (row_at added) (get dot_cmp rows.old))) }
{
    if let Some((dot, row)) = added {
        rows.insert(dot, row)?;
    }
    Ok(())
}

// Whether a live row is shown on a topic after these entries.
fn is_shown(start: &Start, entries: &[Entry], topic: &Topic, dot: &Dot, row: &Row) -> bool
    ensures { result
        ≡ (same_text row.now.topic topic.now && is_up (status (onto (Begin start.now) entries.now) dot.now.replica)) }
{
    if row.topic.cmp(topic).is_eq() {
        is_up(status_after(start, entries, &dot.replica))
    } else {
        false
    }
}

// The row with its dot, where it is kept.
fn kept_row(is_kept: bool, dot: &Dot, row: &Row) -> Result<Option<(Dot, Row)>, AllocError>
    ensures { IfOk result (λ o. o ≡ cond is_kept (Some (dot.now, row.now)) None) }
{
    if is_kept {
        Ok(Some((*dot, row.clone()?)))
    } else {
        Ok(None)
    }
}

// The rows of a topic that are shown after these entries, by dot, of a set that holds what they say.
pub(crate) fn shown_rows(
    alloc: Global,
    set: &Orswot,
    start: &Start,
    entries: &[Entry],
    topic: &Topic,
) -> Result<BTreeMap<Dot, Row>, AllocError>
    requires { Holds (onto (Begin start.now) entries.now) set.now }
    ensures { IfOk result (λ m. Alike (get dot_cmp m) (shown_of (onto (Begin start.now) entries.now) topic.now)) }
{
    let mut rows = BTreeMap::new(alloc);
    for (dot, row) in set.rows() {
        let is_kept = is_shown(start, entries, topic, dot, row);
        put_row(&mut rows, kept_row(is_kept, dot, row)?)?;
    }
    Ok(rows)
}

// The rows that the other table has not.
pub(crate) fn rows_without(
    alloc: Global,
    rows: &BTreeMap<Dot, Row>,
    others: &BTreeMap<Dot, Row>,
) -> Result<BTreeMap<Dot, Row>, AllocError>
    ensures { IfOk result (λ m. Alike (get dot_cmp m) (apart (get dot_cmp rows.now) (get dot_cmp others.now))) }
{
    let mut kept = BTreeMap::new(alloc);
    for (dot, row) in rows.iter() {
        let is_kept = !others.contains_key(dot);
        put_row(&mut kept, kept_row(is_kept, dot, row)?)?;
    }
    Ok(kept)
}

// Rows under their places.
fn places_of(alloc: Global, rows: BTreeMap<Dot, Row>) -> Result<BTreeMap<Place, Row>, AllocError>
    ensures places { IfOk result (λ m. m.entries ≡ placed [] rows.entries) }
    ensures ordered { OnOk result (IsOrdered dot_cmp rows) }
{
    let mut places = BTreeMap::new(alloc);
    for (dot, row) in rows {
        let place = Place {
            key: row.key.clone()?,
            dot,
        };
        places.insert(place, row)?;
    }
    Ok(places)
}

// Rows in order of their places.
fn rows_by_place(alloc: Global, places: BTreeMap<Place, Row>) -> Result<Vec<(Dot, Row)>, AllocError>
    ensures { IfOk result (λ v. v.items ≡ each (λ e. (e.0.dot, e.1)) places.entries) }
{
    places
        .into_iter()
        .map(|(place, row)| (place.dot, row))
        .collect(alloc)
}

// The rows in order of key and dot.
pub(crate) fn in_place(
    alloc: Global,
    rows: BTreeMap<Dot, Row>,
) -> Result<Vec<(Dot, Row)>, AllocError>
    ensures { IfOk result (λ v. (m : RowMap) → IsTableOf (get dot_cmp rows) m → v.items ≡ in_order m) }
{
    let places = places_of(alloc, rows)?;
    rows_by_place(alloc, places)
}
