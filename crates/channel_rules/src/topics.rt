//! The topics in force.
use indexmap::IndexMap;
use phx_message::MsgRef;
use presence_base::Topic;
use std::alloc::{AllocError, Global};
use tracker_shard::Sub;

/// How many topics a session may join.
pub const MAX_TOPICS: usize = 64;

/// The present join of a topic: the topic's kind, the reference that the join's replies carry, and
/// its subscriber.
#[derive(Drop)]
pub struct Join {
    pub kind: u32,
    pub join_ref: Option<MsgRef>,
    pub sub: Sub,
}

impl Clone for Join {
    ghost use Rattle.std.specs.Prelude.{◌≡◌};

    ghost is_clone = { λ s t. t ≡ s };

    fn clone(&self) -> Result<Join, AllocError> {
        let join_ref = self.join_ref.clone()?;
        Ok(Join {
            kind: self.kind,
            join_ref,
            sub: self.sub,
        })
    }
}

/// The topics in force, in order of joining, found by hash.
#[derive(Drop)]
pub struct Topics {
    pub joins: IndexMap<Topic, Join>,
}

impl Topics {
    ghost use Rattle.std.specs.Prelude.{◌≡◌, ◌++◌, ◌∷◌, ◌≤◌, ◌<◌, [], None, map, length, option_map, slice_get, OnOk};
    ghost use Rattle.std.specs.List.{remove};
    ghost use Rattle.indexmap.specs.IndexMap.{spare};
    ghost use Rattle.channel_rules.specs.InForce.{joined_of, joined_in, find, without_topic, added};

    pub fn new(alloc: Global) -> Topics
        ensures { joined_in result ≡ [] }
    {
        Topics {
            joins: IndexMap::new(alloc),
        }
    }

    pub fn len(&self) -> usize
        ensures { result ≡ length (joined_in self.now) }
    {
        self.joins.len()
    }

    /// The present join of a topic.
    pub fn find(&self, topic: &Topic) -> Option<&Join>
        ensures { option_map (λ s. joined_of (topic.now, s.now)) result ≡ find topic.now (joined_in self.now) }
    {
        self.joins.get(topic)
    }

    /// The topic as the session keeps it, where it is joined, and else as it is.
    pub fn kept<'a>(&'a self, topic: &'a Topic) -> &'a Topic
        ensures { result.now ≡ topic.now }
    {
        match self.joins.get_key_value(topic) {
            Some((kept, _join)) => kept,
            None => topic,
        }
    }

    /// The topic of this place in the order of joining, with its present join.
    pub fn at(&self, index: usize) -> Option<(&Topic, &Join)>
        ensures { option_map (λ e. joined_of (e.0.now, e.1.now)) result ≡ slice_get (joined_in self.now) index }
    {
        self.joins.get_index(index)
    }

    /// Makes room for one more topic.
    pub fn make_room(&mut self) -> Result<(), AllocError>
        ensures entries { joined_in self.new ≡ joined_in self.old }
        ensures room { OnOk result (1 ≤ spare self.new.joins) }
    {
        self.joins.reserve(1)
    }

    /// Drops a topic. The others stay in their order.
    pub fn leave(&mut self, topic: &Topic)
        ensures entries { joined_in self.new ≡ without_topic topic.now (joined_in self.old) }
        ensures room { spare self.old.joins ≤ spare self.new.joins }
        ensures gone { find topic.now (joined_in self.new) ≡ None }
    {
        let _join = self.joins.shift_remove(topic);
    }

    /// Drops the topic of this place in the order of joining. The others stay in their order.
    pub fn drop_at(&mut self, index: usize)
        ensures { joined_in self.new ≡ remove (joined_in self.old) index }
    {
        let _join = self.joins.shift_remove_index(index);
    }

    /// Adds a topic behind those that are there.
    pub fn join(&mut self, topic: Topic, join: Join)
        requires absent { find topic (joined_in self.old) ≡ None }
        requires room { 1 ≤ spare self.old.joins }
        ensures { joined_in self.new ≡ joined_in self.old ++ joined_of (topic, join) ∷ [] }
    {
        let _none = self.joins.insert(topic, join);
    }

    /// Adds a topic where its join was accepted.
    pub fn enter(&mut self, topic: Topic, kind: u32, join_ref: Option<MsgRef>, sub: Option<Sub>)
        requires absent { find topic (joined_in self.old) ≡ None }
        requires room { 1 ≤ spare self.old.joins }
        ensures { joined_in self.new ≡ added (joined_in self.old) topic kind join_ref sub }
    {
        match sub {
            Some(sub) => {
                let join = Join {
                    kind,
                    join_ref,
                    sub,
                };
                self.join(topic, join)
            }
            None => (),
        }
    }
}
