//! The limit of topics.
ghost use Rattle.channel_rules.specs.Limits.{LimitOfTopics};

/// How many topics a session may join.
pub fn limit_of_topics()
    ensures { LimitOfTopics }
{}
