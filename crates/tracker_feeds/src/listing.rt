//! The subscribers, as a Start lists them.
ghost use Rattle.std.specs.Prelude.{◌≡◌, ◌++◌, ◌∷◌, [], true, cond, IfOk, OnOk};
ghost use Rattle.std.specs.List.{list_all};
ghost use Rattle.std.specs.List.Sorted.{IsStrictlySortedBy};
ghost use Rattle.std.specs.Map.{keys_of};
ghost use Rattle.std.specs.Ordering.{nat_cmp};
ghost use Rattle.presence_base.specs.Names.{is_short_text};
ghost use Rattle.tracker_feeds.specs.Listed.{topics_in};

use crate::followers::Follower;
use presence_base::Topic;
use std::alloc::{AllocError, Global};
use std::collections::BTreeMap;

// Adds a copy of a subscriber's topic at the end.
fn push_topic(list: &mut Vec<(u64, Topic)>, number: u64, topic: &Topic) -> Result<(), AllocError>
    ensures put { OnOk result (list.new.items ≡ list.old.items ++ (number, topic.now) ∷ []) }
    ensures short { is_short_text topic.now ≡ true }
{
    // Read for the proof alone: a topic keeps its limits.
    let _text = topic.as_str();
    let topic = topic.clone()?;
    list.push((number, topic))?;
    Ok(())
}

/// Adds a number at the end, if it is to be there.
pub(crate) fn push_if(list: &mut Vec<u64>, number: u64, is_there: bool) -> Result<(), AllocError>
    ensures { OnOk result (list.new.items ≡ list.old.items ++ cond is_there (number ∷ []) []) }
{
    if is_there {
        list.push(number)?;
    }
    Ok(())
}

/// The numbers of the subscribers with their topics, in order of number.
pub(crate) fn listed_topics(
    alloc: Global,
    followers: &BTreeMap<u64, Follower>,
) -> Result<Vec<(u64, Topic)>, AllocError>
    ensures topics { IfOk result (λ v. v.items ≡ topics_in followers.now.entries) }
    ensures ordered { IfOk result (λ _. IsStrictlySortedBy nat_cmp (keys_of followers.now.entries)) }
    ensures short { IfOk result (λ v. list_all (λ x. is_short_text x.1) v.items ≡ true) }
{
    let mut list = Vec::new(alloc);
    for (number, follower) in followers.iter() {
        push_topic(&mut list, *number, &follower.topic)?;
    }
    Ok(list)
}
