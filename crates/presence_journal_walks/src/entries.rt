// What an entry of the own replica does to the rows of a topic.
ghost use Rattle.std.specs.Prelude.{◌≡◌, ◌∷◌, [], IfOk, OnOk, cond, None};
ghost use Rattle.std.specs.BTreeMap.{get};
ghost use Rattle.presence_base.specs.Order.{dot_cmp};
ghost use Rattle.presence_journal.specs.History.{row_made};
ghost use Rattle.presence_journal.specs.Present.{of_topic, dots_taken};
ghost use Rattle.presence_journal.specs.Walk.{among, joined, leaving, row_at, rows_after, without_dots};
ghost use Rattle.presence_journal_walks.specs.Rows.{Moved, IsDiffOf};
ghost use Rattle.presence_journal_known.specs.ByDot.{Alike};

use crate::rows::{in_place, put_row, under_dot};
use presence_base::{Dot, Row, Topic};
use presence_journal::{Entry, Outcome, RowDiff, Rows, Step};
use presence_journal_known::row_of;
use std::alloc::{AllocError, Global};
use std::collections::BTreeMap;

// The row that a step makes, where it is of the topic.
fn made_row_of(step: &Step, prev: Option<Dot>, topic: &Topic) -> Result<Option<Row>, AllocError>
    ensures { IfOk result (λ o. o ≡ of_topic topic.now (row_made step.now prev)) }
{
    match step {
        Step::Track {
            pid,
            topic: of,
            key,
            meta,
        }
        | Step::Update {
            pid,
            topic: of,
            key,
            meta,
        } => {
            if of.cmp(topic).is_eq() {
                Ok(Some(row_of(*pid, of, key, meta, prev)?))
            } else {
                Ok(None)
            }
        }
        _ => Ok(None),
    }
}

// The row that an entry adds to a topic, with its dot.
fn added_row(entry: &Entry, topic: &Topic) -> Result<Option<(Dot, Row)>, AllocError>
    ensures { IfOk result (λ o. (d : Dot) → row_at o d ≡ joined entry.now topic.now d) }
{
    match &entry.outcome {
        Outcome::Added(new) => {
            let row = made_row_of(&entry.step, None, topic)?;
            Ok(under_dot(*new.get(), row))
        }
        Outcome::Replaced(new, old) => {
            let row = made_row_of(&entry.step, Some(*old.get()), topic)?;
            Ok(under_dot(*new.get(), row))
        }
        _ => Ok(None),
    }
}

// Moves the row of a dot from one table to another.
fn move_row(
    rows: &mut BTreeMap<Dot, Row>,
    dot: &Dot,
    taken: &mut BTreeMap<Dot, Row>,
) -> Result<(), AllocError>
    ensures rows { OnOk result (Alike (get dot_cmp rows.new) (without_dots (dot.now ∷ []) (get dot_cmp rows.old))) }
    ensures taken { OnOk result (Moved dot.now (get dot_cmp rows.old) (get dot_cmp taken.old) (get dot_cmp taken.new)) }
{
    let row = rows.remove(dot);
    let added = under_dot(*dot, row);
    put_row(taken, added)
}

// Takes the rows of these dots out.
fn take_out(
    alloc: Global,
    rows: &mut BTreeMap<Dot, Row>,
    dots: &[Dot],
) -> Result<BTreeMap<Dot, Row>, AllocError>
    ensures rows { OnOk result (Alike (get dot_cmp rows.new) (without_dots dots.now (get dot_cmp rows.old))) }
    ensures taken { IfOk result (λ m. Alike (get dot_cmp m) (among dots.now (get dot_cmp rows.old))) }
{
    let mut taken = BTreeMap::new(alloc);
    for dot in dots {
        move_row(rows, dot, &mut taken)?;
    }
    Ok(taken)
}

// The dots whose rows an outcome takes out.
fn dots_out(outcome: &Outcome) -> &[Dot]
    ensures { result.now ≡ dots_taken outcome.now }
{
    match outcome {
        Outcome::Replaced(_, old) => std::slice::from_ref(old.get()),
        Outcome::Removed(dots) => dots.as_slice(),
        _ => &[],
    }
}

// Takes an entry into the rows of a topic, and gives those that it took out.
fn apply_entry(
    alloc: Global,
    rows: &mut BTreeMap<Dot, Row>,
    entry: &Entry,
    topic: &Topic,
) -> Result<BTreeMap<Dot, Row>, AllocError>
    ensures rows { OnOk result (Alike (get dot_cmp rows.new) (rows_after entry.now topic.now (get dot_cmp rows.old))) }
    ensures left { IfOk result (λ m. Alike (get dot_cmp m) (leaving entry.now (get dot_cmp rows.old))) }
{
    let left = take_out(alloc, rows, dots_out(&entry.outcome))?;
    let added = added_row(entry, topic)?;
    put_row(rows, added)?;
    Ok(left)
}

// Takes an entry of the own replica alone into the rows of a topic, and tells how it changed them.
pub(crate) fn diff_entry(
    alloc: Global,
    rows: &mut BTreeMap<Dot, Row>,
    entry: &Entry,
    topic: &Topic,
) -> Result<RowDiff, AllocError>
    ensures rows { OnOk result (Alike (get dot_cmp rows.new) (rows_after entry.now topic.now (get dot_cmp rows.old))) }
    ensures diff { IfOk result (IsDiffOf entry.now topic.now (get dot_cmp rows.old)) }
{
    let added = added_row(entry, topic)?;
    let left = apply_entry(alloc, rows, entry, topic)?;
    let mut joined = BTreeMap::new(alloc);
    put_row(&mut joined, added)?;
    let joins = in_place(alloc, joined)?;
    let leaves = in_place(alloc, left)?;
    Ok(RowDiff {
        joins: Rows::new(joins),
        leaves: Rows::new(leaves),
    })
}
