//! What an entry changes.
ghost use Rattle.std.specs.Prelude.{◌≡◌, ◌+◌, ◌<◌, IfOk};
ghost use Rattle.std.specs.BTreeMap.{get};
ghost use Rattle.presence_base.specs.Order.{dot_cmp};
ghost use Rattle.presence_journal.specs.History.{entry_count};
ghost use Rattle.presence_journal.specs.Queue.{diff_at};
ghost use Rattle.presence_journal_walks.specs.Rows.{IsDiffBetween};

use crate::lists::rows_of_entries;
use crate::rows::{in_place, rows_without};
use presence_base::{Dot, Row, Topic};
use presence_journal::{Journal, RowDiff, Rows};
use std::alloc::{AllocError, Global};
use std::collections::BTreeMap;

// How the rows of a topic before an entry differ from those after it.
pub(crate) fn diff_rows(
    alloc: Global,
    before: &BTreeMap<Dot, Row>,
    after: &BTreeMap<Dot, Row>,
) -> Result<RowDiff, AllocError>
    ensures { IfOk result (IsDiffBetween (get dot_cmp before.now) (get dot_cmp after.now)) }
{
    let joined = rows_without(alloc, after, before)?;
    let left = rows_without(alloc, before, after)?;
    let joins = in_place(alloc, joined)?;
    let leaves = in_place(alloc, left)?;
    Ok(RowDiff {
        joins: Rows::new(joins),
        leaves: Rows::new(leaves),
    })
}

/// How the entry at a place of `entries` changed the present rows of a topic.
pub fn walk_diff(
    alloc: Global,
    journal: &Journal,
    place: usize,
    topic: &Topic,
) -> Result<RowDiff, AllocError>
    requires { place + 1 < entry_count journal.now }
    ensures { IfOk result (λ x. x ≡ diff_at journal.now place topic.now) }
{
    let entries = journal.entries();
    let before = rows_of_entries(alloc, journal.start(), &entries[..place], topic)?;
    let after = rows_of_entries(alloc, journal.start(), &entries[..place + 1], topic)?;
    diff_rows(alloc, &before, &after)
}
