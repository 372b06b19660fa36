//! The session.
use crate::joined::JoinedTopics;
use channel_rules::{Join, Topics};
use presence_base::Topic;
use std::alloc::Global;
use std::marker::Model;

/// One client's session: its number, and the topics that it has joined.
pub struct Session {
    pub(crate) pid: u64,
    pub(crate) failed: bool,
    pub(crate) topics: Topics,
    // The topic of a join that a fault cut short.
    pub(crate) cut_short: Option<Topic>,
}

impl Drop for Session {
    fn drop(self) {
        let Session {
            pid: _,
            failed: _,
            topics,
            cut_short,
        } = self;
        drop(topics);
        drop(cut_short);
    }
}

impl Model for Session {
    ghost use Rattle.std.specs.Prelude.{◌≤◌, ◌^◌, map};
    ghost use Rattle.channel_rules.specs.InForce.{InForce, joined_of};

    ghost Value = { InForce };

    ghost view = { λ s. record { pid = s.pid; failed = s.failed; joined = map joined_of s.topics.joins.entries; cut_short = s.cut_short } };

    ghost invariant = { λ s. s.pid ≤ 2 ^ 62 };
}

impl Session {
    ghost use Rattle.std.specs.Prelude.{◌≡◌, ◌≤◌, ◌^◌, [], false, None, option_map};
    ghost use Rattle.channel_rules.specs.InForce.{find, joined_of};
    ghost use Rattle.channel_session.specs.Ending.{topics_named};

    /// A session of this number that has joined nothing.
    pub fn new(alloc: Global, pid: u64) -> Session
        requires { pid ≤ 2 ^ 62 }
        ensures { result ≡ record { pid = pid; failed = false; joined = []; cut_short = None } }
    {
        Session {
            pid,
            failed: false,
            topics: Topics::new(alloc),
            cut_short: None,
        }
    }

    /// Its number.
    pub fn pid(&self) -> u64
        ensures { result ≡ self.now.pid }
    {
        self.pid
    }

    /// The present join of a topic.
    pub fn join_of(&self, topic: &Topic) -> Option<&Join>
        ensures { option_map (λ s. joined_of (topic.now, s.now)) result ≡ find topic.now self.now.joined }
    {
        self.topics.find(topic)
    }

    /// Whether a fault has left something behind. Then only `end` acts.
    pub fn failed(&self) -> bool
        ensures { result ≡ self.now.failed }
    {
        self.failed
    }

    /// The topics in force, in order of joining, and then the one whose join a fault cut short.
    pub fn joined(&self) -> JoinedTopics<'_>
        ensures { result ≡ topics_named self.now }
    {
        JoinedTopics {
            topics: self.topics.joins.keys(),
            cut_short: self.cut_short.as_ref(),
        }
    }
}
