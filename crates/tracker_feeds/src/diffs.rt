// Differences put together by topic.
ghost use Rattle.std.specs.Prelude.{◌≡◌, ◌&&◌, IfOk, OnOk};
ghost use Rattle.presence_journal.specs.Queue.{is_empty};
ghost use Rattle.tracker_feeds.specs.Making.{IsDiffOf, AddsDiff, AddsDiffs, IsAdded};

use crate::feeds::Feeds;
use presence_base::{Dot, Row, Topic};
use presence_journal::{Item, RowDiff, Rows, SharedDiff};
use std::alloc::{AllocError, Global};
use std::collections::BTreeMap;
use std::sync::Arc;
use tracker_shown::Placed;

/// The rows of a turn by their places.
#[derive(Drop)]
pub(crate) struct Changes {
    pub joins: Placed,
    pub leaves: Placed,
}

// What joins and leaves on a topic.
fn diff_on(alloc: Global, changes: &Changes, topic: &Topic) -> Result<RowDiff, AllocError>
    ensures { IfOk result (IsDiffOf changes.now topic.now) }
{
    let joins = changes.joins.listed(alloc, topic)?;
    let leaves = changes.leaves.listed(alloc, topic)?;
    Ok(RowDiff {
        joins: Rows::new(joins),
        leaves: Rows::new(leaves),
    })
}

fn is_quiet(diff: &RowDiff) -> bool
    ensures { result ≡ (is_empty diff.now.joins && is_empty diff.now.leaves) }
{
    diff.joins.as_slice().is_empty() && diff.leaves.as_slice().is_empty()
}

// Puts the item of a topic.
pub(crate) fn put_item(
    alloc: Global,
    made: &mut BTreeMap<Topic, Arc<Item>>,
    topic: &Topic,
    item: Item,
) -> Result<(), AllocError>
    ensures { OnOk result (IsAdded topic.now item made.old made.new) }
{
    let topic = topic.clone()?;
    let item = Arc::new(alloc, item)?;
    made.insert(topic, item)?;
    Ok(())
}

// Puts the difference of a topic, with its text.
fn put_diff(
    alloc: Global,
    made: &mut BTreeMap<Topic, Arc<Item>>,
    topic: &Topic,
    diff: RowDiff,
) -> Result<(), AllocError>
    ensures { OnOk result (IsAdded topic.now (Item.Diff diff) made.old made.new) }
{
    let diff = SharedDiff::new(alloc, diff)?;
    put_item(alloc, made, topic, Item::Diff(diff))
}

// Adds what joins and leaves on a topic, if it is followed and not added yet.
fn add_diff(
    alloc: Global,
    made: &mut BTreeMap<Topic, Arc<Item>>,
    feeds: &Feeds,
    changes: &Changes,
    topic: &Topic,
) -> Result<(), AllocError>
    ensures { OnOk result (AddsDiff feeds.now changes.now topic.now made.old made.new) }
{
    if !feeds.is_followed(topic) || made.contains_key(topic) {
        return Ok(());
    }
    let diff = diff_on(alloc, changes, topic)?;
    if is_quiet(&diff) {
        return Ok(());
    }
    put_diff(alloc, made, topic, diff)
}

// Adds what joins and leaves on the topics of these rows.
pub(crate) fn add_diffs(
    alloc: Global,
    made: &mut BTreeMap<Topic, Arc<Item>>,
    feeds: &Feeds,
    changes: &Changes,
    rows: &[(Dot, Row)],
) -> Result<(), AllocError>
    ensures { OnOk result (AddsDiffs feeds.now changes.now rows.now made.old made.new) }
{
    for row in rows {
        add_diff(alloc, made, feeds, changes, &row.1.topic)?;
    }
    Ok(())
}
