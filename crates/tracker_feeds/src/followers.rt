//! How far each subscriber has come.
ghost use Rattle.std.specs.Prelude.{◌≡◌, ◌<◌, ◌^◌, ℕ, List, Some, None, IfOk, OnOk, OnErr};
ghost use Rattle.std.specs.Ordering.{nat_cmp};
ghost use Rattle.std.specs.BTreeMap.{get};
ghost use Rattle.std.specs.List.Sorted.{IsStrictlySortedBy};
ghost use Rattle.std.specs.Map.{keys_of};
ghost use Rattle.presence_journal.specs.Queue.{is_waiting};
ghost use Rattle.tracker_feeds.specs.Fed.{items_at_most};
ghost use Rattle.tracker_feeds.specs.Quiet.{idle_at, all_idle};
ghost use Rattle.tracker_feeds.specs.Rings.{shared, seen_at, waiting, followers_in, HoldsNewest, IsReached, HasSome, joined, IsRingChanged, SameRings, IsPut, IsDropped, IsMoved, CanTake, IsTaken, newcomer_on};
ghost use Rattle.tracker_feeds.specs.declared.followers.Follower.{Follower as FollowerValue};

use crate::rings::{Ring, join_ring, part_ring};
use presence_base::Topic;
use presence_journal::Item;
use std::alloc::{AllocError, Global};
use std::collections::BTreeMap;
use std::sync::Arc;

/// A subscriber: its topic, and how many of the topic's items are behind it, `None` where it is owed
/// the state.
#[derive(Drop)]
pub(crate) struct Follower {
    pub topic: Topic,
    pub next: Option<u64>,
}

/// Whether a subscriber is behind or has something waiting.
pub(crate) fn is_awaited(rings: &BTreeMap<Topic, Ring>, follower: &Follower) -> bool
    requires held { HoldsNewest (seen_at rings.now follower.now.topic) }
    requires reached { IsReached (seen_at rings.now follower.now.topic) follower.now.next }
    ensures { result ≡ is_waiting (waiting (seen_at rings.now follower.now.topic) follower.now.next) }
{
    match rings.get(&follower.topic) {
        Some(ring) => ring.is_awaited(follower.next),
        None => true,
    }
}

// Whether no item waits for a subscriber.
fn is_idle(rings: &BTreeMap<Topic, Ring>, follower: &Follower) -> bool
    requires { HoldsNewest (seen_at rings.now follower.now.topic) }
    ensures { result ≡ idle_at (seen_at rings.now) follower.now }
{
    match rings.get(&follower.topic) {
        Some(ring) => ring.is_idle(follower.next),
        None => true,
    }
}

/// Whether no item waits for any subscriber.
pub(crate) fn are_idle(rings: &BTreeMap<Topic, Ring>, followers: &BTreeMap<u64, Follower>) -> bool
    requires { (t : List ℕ) → HoldsNewest (seen_at rings.now t) }
    ensures idle { result ≡ all_idle (seen_at rings.now) followers.now.entries }
    ensures ordered { IsStrictlySortedBy nat_cmp (keys_of followers.now.entries) }
{
    for (_number, follower) in followers.iter() {
        if !is_idle(rings, follower) {
            return false;
        }
    }
    true
}

/// Up to `max` of the items that wait for a subscriber, or `None` where it is behind.
pub(crate) fn items_waiting(
    alloc: Global,
    rings: &BTreeMap<Topic, Ring>,
    follower: &Follower,
    max: u32,
) -> Result<Option<Vec<Arc<Item>>>, AllocError>
    requires held { HoldsNewest (seen_at rings.now follower.now.topic) }
    requires reached { IsReached (seen_at rings.now follower.now.topic) follower.now.next }
    ensures { IfOk result (λ o.
        shared o ≡ items_at_most max (waiting (seen_at rings.now follower.now.topic) follower.now.next)) }
{
    match rings.get(&follower.topic) {
        Some(ring) => ring.items_after(alloc, follower.next, max),
        None => Ok(None),
    }
}

// Puts a subscriber under its number.
fn put_follower(
    followers: &mut BTreeMap<u64, Follower>,
    number: u64,
    follower: Follower,
) -> Result<(), AllocError>
    ensures ok { OnOk result (IsPut followers.old.entries followers.new.entries number (Some follower)) }
    ensures err { OnErr result (followers.new.entries ≡ followers.old.entries) }
{
    followers.insert(number, follower)?;
    Ok(())
}

/// One subscriber more.
pub(crate) fn add_follower(
    alloc: Global,
    rings: &mut BTreeMap<Topic, Ring>,
    followers: &mut BTreeMap<u64, Follower>,
    number: u64,
    topic: &Topic,
) -> Result<(), AllocError>
    requires few { followers_in (seen_at rings.old topic.now) < 2 ^ 63 }
    requires some { (t : List ℕ) → HasSome (seen_at rings.old t) }
    ensures joined { OnOk result (IsRingChanged rings.old rings.new topic.now joined) }
    ensures same { OnErr result (SameRings rings.old rings.new) }
    ensures added { OnOk result (IsPut followers.old.entries followers.new.entries number
        (Some (newcomer_on topic.now))) }
    ensures kept { OnErr result (followers.new.entries ≡ followers.old.entries) }
{
    let own_topic = topic.clone()?;
    let follower = Follower {
        topic: own_topic,
        next: None,
    };
    join_ring(alloc, rings, topic)?;
    match put_follower(followers, number, follower) {
        Ok(()) => Ok(()),
        Err(fault) => {
            part_ring(rings, topic);
            Err(fault)
        }
    }
}

/// Takes a subscriber out, where it is there.
pub(crate) fn drop_follower(
    rings: &mut BTreeMap<Topic, Ring>,
    followers: &mut BTreeMap<u64, Follower>,
    number: u64,
)
    ensures rings { IsDropped (seen_at rings.old) (seen_at rings.new) (get nat_cmp followers.old number) }
    ensures followers { IsPut followers.old.entries followers.new.entries number None }
{
    if let Some(follower) = followers.remove(&number) {
        part_ring(rings, &follower.topic);
    }
}

// How far a subscriber has come once it takes up to `max` items.
fn cursor_after(rings: &BTreeMap<Topic, Ring>, follower: &Follower, max: u32) -> u64
    requires { CanTake (seen_at rings.now) follower.now }
    ensures { IsTaken (seen_at rings.now) follower.now max result }
{
    match rings.get(&follower.topic) {
        Some(ring) => ring.cursor_after(follower.next, max),
        None => 0,
    }
}

/// Moves a subscriber, where it is there, behind up to `max` items.
pub(crate) fn move_follower(
    rings: &BTreeMap<Topic, Ring>,
    followers: &mut BTreeMap<u64, Follower>,
    number: u64,
    max: u32,
)
    requires { (f : FollowerValue) → get nat_cmp followers.old number ≡ Some f → CanTake (seen_at rings.now) f }
    ensures { IsMoved (seen_at rings.now) followers.old.entries followers.new.entries number max
        (get nat_cmp followers.old number) }
{
    if let Some(follower) = followers.get_mut(&number) {
        let next = cursor_after(rings, follower, max);
        follower.next = Some(next);
    }
}
