//! The rows of a topic, a key, a session.
ghost use Rattle.std.specs.Prelude.{◌≡◌, ◌&&◌, nat_eq, IfOk};
ghost use Rattle.std.specs.BTreeMap.{get};
ghost use Rattle.presence_base.specs.Order.{dot_cmp, same_replica};
ghost use Rattle.presence_journal.specs.History.{Begin, onto};
ghost use Rattle.presence_journal.specs.Present.{listed};
ghost use Rattle.presence_journal.specs.Table.{IsLegal, has_key, rows_of_pid, rows_of_key, listed_key};
ghost use Rattle.presence_journal.specs.Walk.{shown_of};
ghost use Rattle.presence_journal_known.specs.ByDot.{Alike};

use crate::rows::{in_place, shown_rows};
use presence_base::{Dot, Key, Replica, Row, Topic};
use presence_journal::{Entry, Journal, Start};
use presence_journal_known::walk_set_of;
use std::alloc::{AllocError, Global};
use std::collections::BTreeMap;

// The rows of a topic that are shown after these entries, by dot.
pub(crate) fn rows_of_entries(
    alloc: Global,
    start: &Start,
    entries: &[Entry],
    topic: &Topic,
) -> Result<BTreeMap<Dot, Row>, AllocError>
    requires { IsLegal (onto (Begin start.now) entries.now) }
    ensures { IfOk result (λ m. Alike (get dot_cmp m) (shown_of (onto (Begin start.now) entries.now) topic.now)) }
{
    let set = walk_set_of(alloc, start, entries)?;
    shown_rows(alloc, &set, start, entries, topic)
}

/// The rows that are present on a topic, in order of key and then dot.
pub fn walk_list(
    alloc: Global,
    journal: &Journal,
    topic: &Topic,
) -> Result<Vec<(Dot, Row)>, AllocError>
    ensures { IfOk result (λ v. v.items ≡ listed journal.now topic.now) }
{
    let rows = rows_of_entries(alloc, journal.start(), journal.entries(), topic)?;
    in_place(alloc, rows)
}

// Whether a row is of the replica and the pid.
fn is_of_pid(own: &Replica, pid: u64, row: &(Dot, Row)) -> bool
    ensures { result ≡ (same_replica row.now.0.replica own.now && nat_eq row.now.1.pid pid) }
{
    row.0.replica.cmp(own).is_eq() && row.1.pid == pid
}

// Whether a row has the key.
fn is_of_key(key: &Key, row: &(Dot, Row)) -> bool
    ensures { result ≡ has_key key.now row.now }
{
    row.1.key.cmp(key).is_eq()
}

/// The present rows of one key, in order.
#[tactic(auto, unfolding(presence_journal::specs::Table::listed_key))]
pub fn walk_get(
    alloc: Global,
    journal: &Journal,
    topic: &Topic,
    key: &Key,
) -> Result<Vec<(Dot, Row)>, AllocError>
    ensures { IfOk result (λ v. v.items ≡ listed_key journal.now topic.now key.now) }
{
    let rows = walk_list(alloc, journal, topic)?;
    rows.into_iter()
        .filter(|shown| is_of_key(key, shown))
        .collect(alloc)
}

/// The own present rows of a pid on a topic, in order.
#[tactic(auto, unfolding(presence_journal::specs::Table::rows_of_pid))]
pub fn walk_own_rows(
    alloc: Global,
    journal: &Journal,
    pid: u64,
    topic: &Topic,
) -> Result<Vec<(Dot, Row)>, AllocError>
    ensures { IfOk result (λ v. v.items ≡ rows_of_pid journal.now pid topic.now) }
{
    let own = journal.own();
    let rows = walk_list(alloc, journal, topic)?;
    rows.into_iter()
        .filter(|row| is_of_pid(&own, pid, row))
        .collect(alloc)
}

/// The own present rows of a pid under a topic and key, in order.
#[tactic(auto, unfolding(presence_journal::specs::Table::rows_of_key))]
pub fn walk_own_row(
    alloc: Global,
    journal: &Journal,
    pid: u64,
    topic: &Topic,
    key: &Key,
) -> Result<Vec<(Dot, Row)>, AllocError>
    ensures { IfOk result (λ v. v.items ≡ rows_of_key journal.now pid topic.now key.now) }
{
    let rows = walk_own_rows(alloc, journal, pid, topic)?;
    rows.into_iter()
        .filter(|row| is_of_key(key, row))
        .collect(alloc)
}
