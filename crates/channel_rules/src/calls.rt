//! The calls of a session: each has its question, what it is given, and the call of a shard that it is.
ghost use Rattle.std.specs.Prelude.{IsTrue};
ghost use Rattle.presence_journal.specs.Limits.{is_payload, is_take_limit};
ghost use Rattle.channel_rules.specs.Asks.{track, update, untrack, untrack_all, list, get, subscribe, take, unsubscribe, waits, shout};

use crate::call::{AtShard, Call, NoStep};
use crate::question::{Question, Told};
use presence_base::{Dot, Json, Key, Meta, Row, Topic};
use presence_journal::{Item, SharedRows};
use tracker_shard as shard;
use tracker_shard::Sub;

/// The call that tracks the session under the key on the topic.
#[derive(Clone, Copy)]
pub struct Track<'a> {
    pub topic: &'a Topic,
    pub key: &'a Key,
    pub meta: &'a Meta,
}

impl<'a> Call for Track<'a> {
    type Answer = Dot;

    type Step = shard::Track<'a>;

    ghost ask = { λ c. track c.topic.now c.key.now c.meta.now };

    ghost view = { λ c x. x };

    fn question(&self) -> Question<'_> {
        Question::Track(*self)
    }

    fn answer(&self, _told: Told) -> Option<Dot> {
        None
    }

    fn at_shard(&self, pid: u64) -> AtShard<shard::Track<'a>> {
        AtShard::Step(shard::Track {
            pid,
            topic: self.topic,
            key: self.key,
            meta: self.meta,
        })
    }
}

/// The call that replaces what the session tells under the key on the topic.
#[derive(Clone, Copy)]
pub struct Update<'a> {
    pub topic: &'a Topic,
    pub key: &'a Key,
    pub meta: &'a Meta,
}

impl<'a> Call for Update<'a> {
    type Answer = Dot;

    type Step = shard::Update<'a>;

    ghost ask = { λ c. update c.topic.now c.key.now c.meta.now };

    ghost view = { λ c x. x };

    fn question(&self) -> Question<'_> {
        Question::Update(*self)
    }

    fn answer(&self, _told: Told) -> Option<Dot> {
        None
    }

    fn at_shard(&self, pid: u64) -> AtShard<shard::Update<'a>> {
        AtShard::Step(shard::Update {
            pid,
            topic: self.topic,
            key: self.key,
            meta: self.meta,
        })
    }
}

/// The call that takes out the session's row under the key on the topic.
#[derive(Clone, Copy)]
pub struct Untrack<'a> {
    pub topic: &'a Topic,
    pub key: &'a Key,
}

impl<'a> Call for Untrack<'a> {
    type Answer = Vec<Dot>;

    type Step = shard::Untrack<'a>;

    ghost ask = { λ c. untrack c.topic.now c.key.now };

    ghost view = { λ c x. tt };

    fn question(&self) -> Question<'_> {
        Question::Untrack(*self)
    }

    fn answer(&self, _told: Told) -> Option<Vec<Dot>> {
        None
    }

    fn at_shard(&self, pid: u64) -> AtShard<shard::Untrack<'a>> {
        AtShard::Step(shard::Untrack {
            pid,
            topic: self.topic,
            key: self.key,
        })
    }
}

/// The call that takes out each row of the session on the topic.
#[derive(Clone, Copy)]
pub struct UntrackAll<'a> {
    pub topic: &'a Topic,
}

impl<'a> Call for UntrackAll<'a> {
    type Answer = Vec<Dot>;

    type Step = shard::UntrackAll<'a>;

    ghost ask = { λ c. untrack_all c.topic.now };

    ghost view = { λ c x. tt };

    fn question(&self) -> Question<'_> {
        Question::UntrackAll(*self)
    }

    fn answer(&self, _told: Told) -> Option<Vec<Dot>> {
        None
    }

    fn at_shard(&self, pid: u64) -> AtShard<shard::UntrackAll<'a>> {
        AtShard::Step(shard::UntrackAll {
            pid,
            topic: self.topic,
        })
    }
}

/// The call that answers the rows that are present on the topic.
#[derive(Clone, Copy)]
pub struct List<'a> {
    pub topic: &'a Topic,
}

impl<'a> Call for List<'a> {
    type Answer = SharedRows;

    type Step = shard::List<'a>;

    ghost ask = { λ c. list c.topic.now };

    ghost view = { λ c x. x };

    fn question(&self) -> Question<'_> {
        Question::List(*self)
    }

    fn answer(&self, told: Told) -> Option<SharedRows> {
        match told {
            Told::Rows(rows) => Some(rows),
            _ => None,
        }
    }

    fn at_shard(&self, _pid: u64) -> AtShard<shard::List<'a>> {
        AtShard::Step(shard::List { topic: self.topic })
    }
}

/// The call that answers the rows that are present under the key on the topic.
#[derive(Clone, Copy)]
pub struct Get<'a> {
    pub topic: &'a Topic,
    pub key: &'a Key,
}

impl<'a> Call for Get<'a> {
    type Answer = Vec<(Dot, Row)>;

    type Step = shard::Get<'a>;

    ghost ask = { λ c. get c.topic.now c.key.now };

    ghost view = { λ c x. x.items };

    fn question(&self) -> Question<'_> {
        Question::Get(*self)
    }

    fn answer(&self, told: Told) -> Option<Vec<(Dot, Row)>> {
        match told {
            Told::Got(rows) => Some(rows),
            _ => None,
        }
    }

    fn at_shard(&self, _pid: u64) -> AtShard<shard::Get<'a>> {
        AtShard::Step(shard::Get {
            topic: self.topic,
            key: self.key,
        })
    }
}

/// The call that makes a new subscriber of the topic.
#[derive(Clone, Copy)]
pub struct Subscribe<'a> {
    pub topic: &'a Topic,
}

impl<'a> Call for Subscribe<'a> {
    type Answer = Sub;

    type Step = shard::Subscribe<'a>;

    ghost ask = { λ c. subscribe c.topic.now };

    ghost view = { λ c x. x };

    fn question(&self) -> Question<'_> {
        Question::Subscribe(*self)
    }

    fn answer(&self, _told: Told) -> Option<Sub> {
        None
    }

    fn at_shard(&self, _pid: u64) -> AtShard<shard::Subscribe<'a>> {
        AtShard::Step(shard::Subscribe { topic: self.topic })
    }
}

/// The call that takes up to `max` of the items that wait for a subscriber of the topic.
#[derive(Clone, Copy)]
pub struct Take<'a> {
    pub topic: &'a Topic,
    pub sub: Sub,
    pub max: u32,
    ghost limit: { IsTrue (is_take_limit max) },
}

impl<'a> Call for Take<'a> {
    type Answer = Vec<Item>;

    type Step = shard::Take;

    ghost ask = { λ c. take c.topic.now c.sub c.max };

    ghost view = { λ c x. x.items };

    fn question(&self) -> Question<'_> {
        Question::Take(*self)
    }

    fn answer(&self, told: Told) -> Option<Vec<Item>> {
        match told {
            Told::Items(items) => Some(items),
            _ => None,
        }
    }

    fn at_shard(&self, _pid: u64) -> AtShard<shard::Take> {
        AtShard::Step(shard::Take {
            sub: self.sub,
            max: self.max,
        })
    }
}

/// The call that ends a subscriber of the topic.
#[derive(Clone, Copy)]
pub struct Unsubscribe<'a> {
    pub topic: &'a Topic,
    pub sub: Sub,
}

impl<'a> Call for Unsubscribe<'a> {
    type Answer = ();

    type Step = shard::Unsubscribe;

    ghost ask = { λ c. unsubscribe c.topic.now c.sub };

    ghost view = { λ c x. x };

    fn question(&self) -> Question<'_> {
        Question::Unsubscribe(*self)
    }

    fn answer(&self, _told: Told) -> Option<()> {
        None
    }

    fn at_shard(&self, _pid: u64) -> AtShard<shard::Unsubscribe> {
        AtShard::Step(shard::Unsubscribe { sub: self.sub })
    }
}

/// The call that sends the payload to each subscriber of the topic.
#[derive(Clone, Copy)]
pub struct Shout<'a> {
    pub topic: &'a Topic,
    pub payload: &'a Json,
    ghost limits: { IsTrue (is_payload payload.now) },
}

impl<'a> Call for Shout<'a> {
    type Answer = ();

    type Step = shard::Shout<'a>;

    ghost ask = { λ c. shout c.topic.now c.payload.now };

    ghost view = { λ c x. x };

    fn question(&self) -> Question<'_> {
        Question::Shout(*self)
    }

    fn answer(&self, _told: Told) -> Option<()> {
        None
    }

    fn at_shard(&self, _pid: u64) -> AtShard<shard::Shout<'a>> {
        AtShard::Step(shard::Shout {
            topic: self.topic,
            payload: self.payload,
        })
    }
}

/// The call that asks whether something waits for a subscriber of the topic.
#[derive(Clone, Copy)]
pub struct Waits<'a> {
    pub topic: &'a Topic,
    pub sub: Sub,
}

impl<'a> Call for Waits<'a> {
    type Answer = bool;

    type Step = NoStep;

    ghost ask = { λ c. waits c.topic.now c.sub };

    ghost view = { λ c x. x };

    fn question(&self) -> Question<'_> {
        Question::Waits(*self)
    }

    fn answer(&self, told: Told) -> Option<bool> {
        match told {
            Told::Waits(waits) => Some(waits),
            _ => None,
        }
    }

    fn at_shard(&self, _pid: u64) -> AtShard<NoStep> {
        AtShard::Waits(self.sub)
    }
}
