//! Which topics sessions have joined.
ghost use Rattle.std.specs.Prelude.{◌≡◌, ◌↔◌, IsTrue, false, IfSome};
ghost use Rattle.serve_ports.specs.Following.{HasNone, FollowsNone, FollowsToo, FollowsAll, FollowsBoth, has_one_of, is_followed};
ghost use Rattle.channel_session.specs.Ending.{topics_named};

use crate::inbox::Topics;
use channel_session::Session;
use presence_base::Topic;
use std::alloc::Global;
use std::collections::BTreeSet;

/// Topics that sessions have joined. Where memory ran out one may be missing, and then each counts as joined.
#[derive(Drop)]
pub struct Followed {
    topics: Topics,
    has_all: bool,
}

impl Followed {
    /// No topic is joined.
    pub fn new(alloc: Global) -> Followed
        ensures { FollowsNone result }
    {
        Followed {
            topics: BTreeSet::new(alloc),
            has_all: false,
        }
    }

    /// Whether none is.
    pub fn is_empty(&self) -> bool
        ensures none { IsTrue result → FollowsNone self.now }
        ensures some { IsTrue result ↔ HasNone self.now }
    {
        self.topics.is_empty() && !self.has_all
    }

    /// Whether this one is.
    pub fn contains(&self, topic: &Topic) -> bool
        ensures { result ≡ is_followed self.now topic.now }
    {
        self.has_all || self.topics.contains(topic)
    }

    /// The topics, unless each counts as joined.
    pub fn into_topics(self) -> Option<Topics>
        ensures { IfSome result (λ topics. (topics ≡ self.topics) × (self.has_all ≡ false)) }
    {
        let Followed { topics, has_all } = self;
        if has_all {
            return None;
        }
        Some(topics)
    }

    /// Whether one of these is.
    pub fn has_one_of(&self, topics: &Topics) -> bool
        ensures { result ≡ has_one_of self.now topics.now }
    {
        if self.has_all {
            return true;
        }
        for topic in topics {
            if self.topics.contains(topic) {
                return true;
            }
        }
        false
    }

    /// This one is joined too.
    pub fn add(&mut self, topic: &Topic)
        ensures { FollowsToo self.old topic.now self.new }
    {
        if self.topics.contains(topic) {
            return;
        }
        match topic.clone() {
            Ok(copy) => self.put(copy),
            Err(_) => self.has_all = true,
        }
    }

    /// Those that the session has joined are joined too.
    pub fn add_joined(&mut self, session: &Session)
        ensures { FollowsAll self.old (topics_named session.now) self.new }
    {
        for topic in session.joined() {
            self.add(topic);
        }
    }

    /// These are joined too.
    pub fn add_all(&mut self, others: Followed)
        ensures { FollowsBoth self.old others self.new }
    {
        let Followed { topics, has_all } = others;
        self.has_all = self.has_all || has_all;
        for topic in topics {
            self.put(topic);
        }
    }

    fn put(&mut self, topic: Topic)
        ensures { FollowsToo self.old topic self.new }
    {
        match self.topics.insert(topic) {
            Ok(_) => {}
            Err(_) => self.has_all = true,
        }
    }
}
