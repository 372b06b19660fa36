//! How feeds follow a history: functions that do nothing, and whose contracts are the laws.

ghost use Rattle.tracker_feeds.specs.Laws.{BeginningIsFed, SameIsFed, NextIsFree, CanDeliver, SubscribeIsFed, UnsubscribeIsFed, TakeIsFed, DeliveryIsFed, QuietIsFed, TopicsAreThose, WaitsAreThose, ItemsAreThose};
ghost use Rattle.tracker_feeds.specs.Listed.{ListedAreThose, CurrentAreThose};

/// Feeds begin as a journal's Start has them. From then on the number of the next entry is nobody's,
/// and one delivery more can always be counted.
pub fn feeds_begin()
    ensures begins { BeginningIsFed }
    ensures same { SameIsFed }
    ensures free { NextIsFree }
    ensures delivers { CanDeliver }
{}

/// A subscribe, a take and an unsubscribe change one subscriber.
pub fn subscribers_follow()
    ensures subscribe { SubscribeIsFed }
    ensures take { TakeIsFed }
    ensures unsubscribe { UnsubscribeIsFed }
{}

/// Any other entry delivers what it makes for the topics that are followed.
pub fn deliveries_follow()
    ensures delivery { DeliveryIsFed }
    ensures quiet { QuietIsFed }
{}

/// The feeds of a history answer as it does: the topic of a subscriber, whether it is behind or has
/// something waiting, and what a take comes to.
pub fn feeds_answer()
    ensures topics { TopicsAreThose }
    ensures waits { WaitsAreThose }
    ensures items { ItemsAreThose }
{}

/// The subscribers that are listed are those that are present, with numbers up to the last one, and the current ones those of
/// them for which nothing waits.
pub fn subscribers_are_listed()
    ensures listed { ListedAreThose }
    ensures current { CurrentAreThose }
{}
