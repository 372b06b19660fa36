//! What a session leaves behind: a function that does nothing, and whose contract is the law.

ghost use Rattle.session_laws.specs.LeftBehind.{EndLeavesNothing};
ghost use Rattle.session_laws.specs.Naming.{TextsKeepNames, DeliveriesKeepNames, EndsKeepNames};
ghost use Rattle.session_laws.specs.Subscribed.{TextsKeepSubs, DeliveriesKeepSubs, EndsKeepSubs};

use presence_journal_laws::laws::nothing_else_changes;

/// Where a session names each topic on which a row of its number stands, an accepted `end` over a
/// lent shard leaves none of its rows there, and none of its subscribers.
pub fn end_leaves_nothing()
    ensures { EndLeavesNothing }
{
    nothing_else_changes();
}

/// Behind every text, delivery and end over a lent shard, however it ends, a session names each topic
/// on which a row of its number stands, as long as it did before and nobody else has its number.
pub fn names_its_topics()
    ensures texts { TextsKeepNames }
    ensures deliveries { DeliveriesKeepNames }
    ensures ends { EndsKeepNames }
{
    nothing_else_changes();
}

/// Behind every text, delivery and end over a lent shard, however it ends, each subscriber that stands
/// there is one of others or that of a topic in force, as long as it was so before.
pub fn knows_its_subscribers()
    ensures texts { TextsKeepSubs }
    ensures deliveries { DeliveriesKeepSubs }
    ensures ends { EndsKeepSubs }
{}
