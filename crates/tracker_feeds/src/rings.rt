//! The newest items of each topic that has a subscriber.
ghost use Rattle.std.specs.Prelude.{◌≡◌, ◌≤◌, ◌<◌, ◌+◌, ◌-◌, ◌^◌, ℕ, min, cond, nat_lt, List, [], ◌∷◌, length, take, drop, false, Some, None, IfOk, OnOk, OnErr};
ghost use Rattle.std.specs.BTreeMap.{get};
ghost use Rattle.std.specs.VecDeque.{deque_len, deque_capacity};
ghost use Rattle.presence_base.specs.Order.{text_cmp, same_text};
ghost use Rattle.presence_journal.specs.Queue.{most_waiting, left_by, is_waiting};
ghost use Rattle.tracker_feeds.specs.Fed.{items_for, items_at_most};
ghost use Rattle.tracker_feeds.specs.Quiet.{is_idle};
ghost use Rattle.tracker_feeds.specs.Rings.{values, shared, seen, seen_at, waiting, with_followers, first, followers_in, HoldsNewest, IsReached, IsAhead, joined, parted, pushed, IsRingChanged, IsParted, IsPushed, SameRings, HasRoom, RoomAt, HasRoomFor, IsBelow};

use presence_base::Topic;
use presence_journal::{Item, MAX_WAITING};
use std::alloc::{AllocError, Global};
use std::collections::{BTreeMap, VecDeque};
use std::sync::Arc;

/// A topic's newest items, at most 256.
#[derive(Drop)]
pub(crate) struct Ring {
    /// How many items were made since the topic is followed.
    pub made: u64,
    pub items: VecDeque<Arc<Item>>,
    /// How many subscribers the topic has.
    pub followers: u64,
}

// So many items, unless they are more than may wait.
fn unless_behind(ahead: u64) -> Option<u64>
    ensures { result ≡ cond (nat_lt most_waiting ahead) None (Some ahead) }
{
    if ahead > MAX_WAITING as u64 {
        None
    } else {
        Some(ahead)
    }
}

// So many of the items from a place on.
fn share_items(
    alloc: Global,
    items: &VecDeque<Arc<Item>>,
    from: usize,
    count: usize,
) -> Result<Vec<Arc<Item>>, AllocError>
    requires { from + count ≤ length items.now.items }
    ensures { IfOk result (λ v. values v.items ≡ take count (drop from (values items.now.items))) }
{
    let mut shared = Vec::new(alloc);
    for i in 0..count {
        let item = Arc::try_clone(&items[from + i])?;
        shared.push(item)?;
    }
    Ok(shared)
}

impl Ring {
    // The ring of a topic's first subscriber.
    fn first(alloc: Global) -> Ring
        ensures { seen result ≡ first }
    {
        Ring {
            made: 0,
            items: VecDeque::new(alloc),
            followers: 1,
        }
    }

    // Makes room for one item more.
    fn reserve(&mut self) -> Result<(), AllocError>
        ensures seen { seen self.new ≡ seen self.old }
        ensures kept { HasRoom self.old → HasRoom self.new }
        ensures room { OnOk result (HasRoom self.new) }
    {
        let more = if self.items.len() < MAX_WAITING { 1 } else { 0 };
        self.items.reserve(more)
    }

    // Puts an item behind the others; the oldest goes where they are too many.
    fn push(&mut self, item: Arc<Item>)
        requires room { HasRoom self.old }
        requires below { self.old.made < 2 ^ 63 }
        ensures { Some (seen self.new) ≡ pushed (Some (seen self.old)) (item.value ∷ []) }
    {
        make_way(&mut self.items);
        self.items.push_back_reserved(item);
        self.made += 1;
    }

    // One subscriber more.
    fn join(&mut self)
        requires { self.old.followers < 2 ^ 63 }
        ensures { seen self.new ≡ with_followers (seen self.old) (self.old.followers + 1) }
    {
        self.followers += 1;
    }

    // One subscriber fewer; answers whether none is left.
    fn part(&mut self) -> bool
        ensures { cond result None (Some (seen self.new)) ≡ parted (Some (seen self.old)) }
    {
        let last = self.followers <= 1;
        self.followers = self.followers.saturating_sub(1);
        last
    }

    // How many items wait for one who has come so far, or `None` where it is behind.
    fn ahead_of(&self, next: Option<u64>) -> Option<u64>
        requires held { HoldsNewest (Some (seen self.now)) }
        requires reached { IsReached (Some (seen self.now)) next }
        ensures { IsAhead (seen self.now) next result }
    {
        match next {
            Some(next) => unless_behind(self.made.saturating_sub(next)),
            None => None,
        }
    }

    /// Whether one who has come so far is behind or has something waiting.
    pub(crate) fn is_awaited(&self, next: Option<u64>) -> bool
        requires held { HoldsNewest (Some (seen self.now)) }
        requires reached { IsReached (Some (seen self.now)) next }
        ensures { result ≡ is_waiting (waiting (Some (seen self.now)) next) }
    {
        match self.ahead_of(next) {
            Some(ahead) => ahead > 0,
            None => true,
        }
    }

    /// Whether no item waits for one who has come so far.
    pub(crate) fn is_idle(&self, next: Option<u64>) -> bool
        requires { HoldsNewest (Some (seen self.now)) }
        ensures { result ≡ is_idle (waiting (Some (seen self.now)) next) }
    {
        let Some(next) = next else {
            return true;
        };
        let ahead = self.made.saturating_sub(next);
        ahead == 0 || ahead > MAX_WAITING as u64
    }

    // Up to `max` of the last `ahead` items.
    fn share_last(
        &self,
        alloc: Global,
        ahead: usize,
        max: usize,
    ) -> Result<Option<Vec<Arc<Item>>>, AllocError>
        requires { ahead ≤ length self.now.items.items }
        ensures { IfOk result (λ o. shared o
            ≡ Some (take max (drop (length (values self.now.items.items) - ahead) (values self.now.items.items)))) }
    {
        let from = self.items.len() - ahead;
        let items = share_items(alloc, &self.items, from, ahead.min(max))?;
        Ok(Some(items))
    }

    /// Up to `max` of the items that wait for one who has come so far, or `None` where it is behind.
    pub(crate) fn items_after(
        &self,
        alloc: Global,
        next: Option<u64>,
        max: u32,
    ) -> Result<Option<Vec<Arc<Item>>>, AllocError>
        requires held { HoldsNewest (Some (seen self.now)) }
        requires reached { IsReached (Some (seen self.now)) next }
        ensures { IfOk result (λ o. shared o ≡ items_at_most max (waiting (Some (seen self.now)) next)) }
    {
        match self.ahead_of(next) {
            Some(ahead) => self.share_last(alloc, ahead as usize, max as usize),
            None => Ok(None),
        }
    }

    /// How far one has come that came so far and takes up to `max` items.
    pub(crate) fn cursor_after(&self, next: Option<u64>, max: u32) -> u64
        requires held { HoldsNewest (Some (seen self.now)) }
        requires reached { IsReached (Some (seen self.now)) next }
        ensures left { waiting (Some (seen self.now)) (Some result)
            ≡ left_by max (waiting (Some (seen self.now)) next) }
        ensures reached { result ≤ self.now.made }
    {
        match self.ahead_of(next) {
            Some(ahead) => {
                let left = ahead.saturating_sub(u64::from(max));
                self.made.saturating_sub(left)
            }
            None => self.made,
        }
    }
}

// The oldest item goes where there are the most that may wait.
fn make_way(items: &mut VecDeque<Arc<Item>>)
    requires room { min (deque_len items.old) (most_waiting - 1) < deque_capacity items.old }
    ensures items { items.new.items
        ≡ cond (nat_lt (length items.old.items) most_waiting) items.old.items (drop 1 items.old.items) }
    ensures room { deque_len items.new < deque_capacity items.new }
{
    if items.len() >= MAX_WAITING {
        items.pop_front();
    }
}

/// A ring for one subscriber more on the topic.
pub(crate) fn join_ring(
    alloc: Global,
    rings: &mut BTreeMap<Topic, Ring>,
    topic: &Topic,
) -> Result<(), AllocError>
    requires few { followers_in (seen_at rings.old topic.now) < 2 ^ 63 }
    ensures ok { OnOk result (IsRingChanged rings.old rings.new topic.now joined) }
    ensures err { OnErr result (SameRings rings.old rings.new) }
{
    if let Some(ring) = rings.get_mut(topic) {
        ring.join();
        return Ok(());
    }
    let key = topic.clone()?;
    let ring = Ring::first(alloc);
    rings.insert(key, ring)?;
    Ok(())
}

// One subscriber of the topic fewer; answers whether it was the last.
fn part_from(rings: &mut BTreeMap<Topic, Ring>, topic: &Topic) -> bool
    ensures { IsParted rings.old rings.new topic.now result }
{
    match rings.get_mut(topic) {
        Some(ring) => ring.part(),
        None => false,
    }
}

/// One subscriber of the topic fewer. With the last one the ring goes.
pub(crate) fn part_ring(rings: &mut BTreeMap<Topic, Ring>, topic: &Topic)
    ensures { IsRingChanged rings.old rings.new topic.now parted }
{
    let last = part_from(rings, topic);
    if last {
        rings.remove(topic);
    }
}

// Makes room for one item more on a topic, where it is followed.
fn reserve_ring(rings: &mut BTreeMap<Topic, Ring>, topic: &Topic) -> Result<(), AllocError>
    ensures same { SameRings rings.old rings.new }
    ensures kept { (t : List ℕ) → RoomAt (get text_cmp rings.old t) → RoomAt (get text_cmp rings.new t) }
    ensures room { OnOk result (RoomAt (get text_cmp rings.new topic.now)) }
{
    match rings.get_mut(topic) {
        Some(ring) => ring.reserve(),
        None => Ok(()),
    }
}

/// Makes room for the items.
pub(crate) fn reserve_all(
    rings: &mut BTreeMap<Topic, Ring>,
    made: &BTreeMap<Topic, Arc<Item>>,
) -> Result<(), AllocError>
    ensures same { SameRings rings.old rings.new }
    ensures room { OnOk result (HasRoomFor rings.new made.now) }
{
    for (topic, _item) in made {
        reserve_ring(rings, topic)?;
    }
    Ok(())
}

// Puts an item on a topic, where it is followed.
fn push_ring(rings: &mut BTreeMap<Topic, Ring>, topic: &Topic, item: Arc<Item>)
    requires room { RoomAt (get text_cmp rings.old topic.now) }
    requires below { IsBelow (seen_at rings.old topic.now) }
    ensures pushed { IsPushed rings.old rings.new topic.now item.value }
    ensures others { (t : List ℕ) → same_text topic.now t ≡ false
        → get text_cmp rings.new t ≡ get text_cmp rings.old t }
{
    if let Some(ring) = rings.get_mut(topic) {
        ring.push(item);
    }
}

/// Puts the items on their topics, where they are followed.
pub(crate) fn push_all(rings: &mut BTreeMap<Topic, Ring>, made: &mut BTreeMap<Topic, Arc<Item>>)
    requires room { HasRoomFor rings.old made.old }
    requires below { (t : List ℕ) → IsBelow (seen_at rings.old t) }
    ensures rings { (t : List ℕ) → seen_at rings.new t ≡ pushed (seen_at rings.old t) (items_for made.old t) }
    ensures made { made.new.entries ≡ [] }
{
    while let Some((topic, item)) = made.pop_first() {
        push_ring(rings, &topic, item);
    }
}
