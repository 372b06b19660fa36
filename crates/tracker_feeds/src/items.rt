//! What an entry makes.
ghost use Rattle.std.specs.Prelude.{◌≡◌, IfOk, OnOk};
ghost use Rattle.tracker_feeds.specs.Making.{MakesDiffs, MakesItems, MakesShout};

use crate::diffs::{Changes, add_diffs, put_item};
use crate::feeds::Feeds;
use presence_base::Topic;
use presence_journal::{Item, Payload, SharedShout, Step};
use std::alloc::{AllocError, Global};
use std::collections::BTreeMap;
use std::sync::Arc;
use tracker_shown::{Placed, Turn};

// The differences that a turn makes, for the topics that are followed.
fn diffs_of(
    alloc: Global,
    feeds: &Feeds,
    turn: &Turn,
) -> Result<BTreeMap<Topic, Arc<Item>>, AllocError>
    ensures { IfOk result (MakesDiffs feeds.now turn.now) }
{
    let joins = turn.joins.as_slice();
    let leaves = turn.leaves.as_slice();
    let changes = Changes {
        joins: Placed::of_rows(alloc, joins)?,
        leaves: Placed::of_rows(alloc, leaves)?,
    };
    let mut made = BTreeMap::new(alloc);
    add_diffs(alloc, &mut made, feeds, &changes, joins)?;
    add_diffs(alloc, &mut made, feeds, &changes, leaves)?;
    Ok(made)
}

// A shout, where its topic is followed.
fn shout_of(
    alloc: Global,
    feeds: &Feeds,
    topic: &Topic,
    payload: &Payload,
) -> Result<BTreeMap<Topic, Arc<Item>>, AllocError>
    ensures { IfOk result (MakesShout feeds.now topic.now payload.now) }
{
    let mut made = BTreeMap::new(alloc);
    if !feeds.is_followed(topic) {
        return Ok(made);
    }
    let shout = SharedShout::new(payload.clone()?);
    put_item(alloc, &mut made, topic, Item::Shout(shout))?;
    Ok(made)
}

/// What the entry of a step makes for each topic that is followed, by its turn. It costs the logarithm of the turn's rows
/// for each of them.
pub fn items_of(
    alloc: Global,
    feeds: &Feeds,
    step: &Step,
    turn: &Turn,
) -> Result<BTreeMap<Topic, Arc<Item>>, AllocError>
    ensures { IfOk result (MakesItems feeds.now step.now turn.now) }
{
    match step {
        Step::Shout { topic, payload } => shout_of(alloc, feeds, topic, payload),
        _ => diffs_of(alloc, feeds, turn),
    }
}
