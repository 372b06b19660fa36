//! What waits.
ghost use Rattle.std.specs.Prelude.{◌≡◌, ◌++◌, [], cond, Some, IfOk, OnOk};
ghost use Rattle.std.specs.BTreeMap.{get};
ghost use Rattle.presence_base.specs.Order.{dot_cmp};
ghost use Rattle.presence_journal.specs.History.{Begin, onto};
ghost use Rattle.presence_journal.specs.Queue.{topic_of, is_current, first_waiting, diff_item, shout_item, queued, push_items, left_by, queue};
ghost use Rattle.presence_journal.specs.Table.{IsLegal};
ghost use Rattle.presence_journal_walks.specs.Pending.{waiting_of, IsAfter};
ghost use Rattle.presence_journal_walks.specs.Rows.{AreNext, IsDiffAt, AreMadeAt};

use crate::diff::diff_rows;
use crate::entries::diff_entry;
use crate::lists::rows_of_entries;
use crate::steps::is_callers;
use crate::topics::{is_listed, listed_topic, topic_after_entry};
use presence_base::{Dot, Row, Topic};
use presence_journal::{
    Entry, Item, Journal, MAX_WAITING, RowDiff, SharedDiff, SharedShout, Start, Step,
};
use std::alloc::{AllocError, Global};
use std::collections::BTreeMap;

/// What waits for a subscriber.
#[derive(Debug, Drop)]
pub enum Pending {
    /// Its items were dropped, or it is new: it is owed the whole state.
    Behind,
    Items(Vec<Item>),
}

// Finds the rows of a topic after these entries, and how they differ from those before.
fn diff_fresh(
    alloc: Global,
    rows: &mut BTreeMap<Dot, Row>,
    start: &Start,
    entries: &[Entry],
    entry: &Entry,
    topic: &Topic,
) -> Result<RowDiff, AllocError>
    requires { IsLegal (onto (Begin start.now) entries.now) }
    ensures rows { OnOk result
        (AreNext entry.now topic.now (onto (Begin start.now) entries.now) (get dot_cmp rows.old)
        (get dot_cmp rows.new)) }
    ensures diff { IfOk result
        (IsDiffAt entry.now topic.now (onto (Begin start.now) entries.now) (get dot_cmp rows.old)) }
{
    let after = rows_of_entries(alloc, start, entries, topic)?;
    let diff = diff_rows(alloc, rows, &after)?;
    *rows = after;
    Ok(diff)
}

// Takes the last of these entries into the rows of a topic, and tells how it changed them. An entry of
// the own replica changes the rows that it names; any other may change a row of any other replica.
fn next_diff(
    alloc: Global,
    rows: &mut BTreeMap<Dot, Row>,
    start: &Start,
    entries: &[Entry],
    entry: &Entry,
    topic: &Topic,
) -> Result<RowDiff, AllocError>
    requires { IsLegal (onto (Begin start.now) entries.now) }
    ensures rows { OnOk result
        (AreNext entry.now topic.now (onto (Begin start.now) entries.now) (get dot_cmp rows.old)
        (get dot_cmp rows.new)) }
    ensures diff { IfOk result
        (IsDiffAt entry.now topic.now (onto (Begin start.now) entries.now) (get dot_cmp rows.old)) }
{
    if is_callers(&entry.step) {
        diff_entry(alloc, rows, entry, topic)
    } else {
        diff_fresh(alloc, rows, start, entries, entry, topic)
    }
}

// The item that tells a difference, none where nothing changed.
fn diff_items(alloc: Global, diff: RowDiff) -> Result<Vec<Item>, AllocError>
    ensures { IfOk result (λ v. v.items ≡ diff_item diff) }
{
    let mut items = Vec::new(alloc);
    if !diff.joins.as_slice().is_empty() || !diff.leaves.as_slice().is_empty() {
        let diff = SharedDiff::new(alloc, diff)?;
        items.push(Item::Diff(diff))?;
    }
    Ok(items)
}

// Puts the item of a shout on the topic.
fn push_shout(items: &mut Vec<Item>, step: &Step, topic: &Topic) -> Result<(), AllocError>
    ensures { OnOk result (items.new.items ≡ items.old.items ++ shout_item step.now topic.now) }
{
    if let Step::Shout {
        topic: shouted_on,
        payload,
    } = step
    {
        if shouted_on.cmp(topic).is_eq() {
            let shout = SharedShout::new(payload.clone()?);
            items.push(Item::Shout(shout))?;
        }
    }
    Ok(())
}

// The items of a difference and a shout.
fn items_of(
    alloc: Global,
    diff: RowDiff,
    step: &Step,
    topic: &Topic,
) -> Result<Vec<Item>, AllocError>
    ensures { IfOk result (λ v. v.items ≡ diff_item diff ++ shout_item step.now topic.now) }
{
    let mut items = diff_items(alloc, diff)?;
    push_shout(&mut items, step, topic)?;
    Ok(items)
}

// Takes the last of these entries into the rows of a topic, and gives the items that it makes there.
fn made_items(
    alloc: Global,
    rows: &mut BTreeMap<Dot, Row>,
    start: &Start,
    entries: &[Entry],
    entry: &Entry,
    topic: &Topic,
) -> Result<Vec<Item>, AllocError>
    requires { IsLegal (onto (Begin start.now) entries.now) }
    ensures rows { OnOk result
        (AreNext entry.now topic.now (onto (Begin start.now) entries.now) (get dot_cmp rows.old)
        (get dot_cmp rows.new)) }
    ensures items { IfOk result
        (λ v. AreMadeAt entry.now topic.now (onto (Begin start.now) entries.now) (get dot_cmp rows.old) v.items) }
{
    let diff = next_diff(alloc, rows, start, entries, entry, topic)?;
    items_of(alloc, diff, &entry.step, topic)
}

// The items, where the subscriber is present.
fn items_for(alloc: Global, is_present: bool, made: Vec<Item>) -> Vec<Item>
    ensures { result.items ≡ cond is_present made.items [] }
{
    if is_present { made } else { Vec::new(alloc) }
}

// The items, unless they are too many.
fn within_limit(items: Vec<Item>) -> Pending
    ensures { waiting_of result ≡ queued items.items }
{
    if items.len() > MAX_WAITING {
        Pending::Behind
    } else {
        Pending::Items(items)
    }
}

// Puts items after others.
fn push_all(items: &mut Vec<Item>, mut more: Vec<Item>) -> Result<(), AllocError>
    ensures { OnOk result (items.new.items ≡ items.old.items ++ more.items) }
{
    items.append(&mut more)
}

// What waits once these items are made.
fn with_items(pending: Pending, made: Vec<Item>) -> Result<Pending, AllocError>
    ensures { IfOk result (λ p. waiting_of p ≡ push_items (waiting_of pending) made.items) }
{
    match pending {
        Pending::Behind => Ok(Pending::Behind),
        Pending::Items(mut items) => {
            push_all(&mut items, made)?;
            Ok(within_limit(items))
        }
    }
}

// What a take leaves.
fn after_take(alloc: Global, pending: Pending, max: u32) -> Result<Pending, AllocError>
    ensures { IfOk result (λ p. waiting_of p ≡ left_by max (waiting_of pending)) }
{
    match pending {
        Pending::Behind => Ok(Pending::Items(Vec::new(alloc))),
        Pending::Items(items) => {
            let left = items.into_iter().skip(max as usize).collect(alloc)?;
            Ok(Pending::Items(left))
        }
    }
}

// What waits for a subscriber after an entry that made these items for it.
fn after_entry(
    alloc: Global,
    pending: Pending,
    entry: &Entry,
    number: u64,
    made: Vec<Item>,
) -> Result<Pending, AllocError>
    ensures { IfOk result (IsAfter number entry.now made.items pending) }
{
    match &entry.step {
        Step::Subscribe { .. } => {
            if entry.number == number {
                Ok(Pending::Behind)
            } else {
                with_items(pending, made)
            }
        }
        Step::Take { subscriber, max } => {
            if *subscriber == number {
                after_take(alloc, pending, max.get())
            } else {
                with_items(pending, made)
            }
        }
        _ => with_items(pending, made),
    }
}

// What waits for a subscriber behind a Start.
fn first_pending(alloc: Global, start: &Start, number: u64) -> Pending
    ensures { waiting_of result ≡ first_waiting (is_current start.now.current number) }
{
    if is_listed(start.current.as_slice(), number) {
        Pending::Items(Vec::new(alloc))
    } else {
        Pending::Behind
    }
}

/// What waits for a present subscriber, whose topic is this one.
pub fn walk_pending(
    alloc: Global,
    journal: &Journal,
    number: u64,
    topic: &Topic,
) -> Result<Pending, AllocError>
    requires { topic_of journal.now number ≡ Some topic.now }
    ensures { IfOk result (λ p. waiting_of p ≡ queue journal.now number) }
{
    let start = journal.start();
    let entries = journal.entries();
    let mut rows = rows_of_entries(alloc, start, &entries[..0], topic)?;
    let mut subscribed = listed_topic(start.subscribers.as_slice(), number);
    let mut pending = first_pending(alloc, start, number);
    for (place, entry) in entries.iter().enumerate() {
        let made = made_items(alloc, &mut rows, start, &entries[..place + 1], entry, topic)?;
        let heard = items_for(alloc, subscribed.is_some(), made);
        pending = after_entry(alloc, pending, entry, number, heard)?;
        subscribed = topic_after_entry(entry, number, subscribed);
    }
    Ok(pending)
}
