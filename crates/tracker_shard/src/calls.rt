//! The calls of callers: each has its step, what it looks up, and how its answer is read from that.
ghost use Rattle.std.specs.Prelude.{◌≡◌, ◌+◌, ◌≤◌, ◌^◌, true, Some, IsTrue};
ghost use Rattle.presence_journal.specs.History.{last_number};
ghost use Rattle.presence_journal.specs.Limits.{is_payload, is_take_limit};
ghost use Rattle.presence_journal.specs.Present.{listed, dots_of};
ghost use Rattle.presence_journal.specs.Queue.{items_given};
ghost use Rattle.presence_journal.specs.Table.{outcome_of, rows_of_key, rows_of_pid, listed_key};
ghost use Rattle.presence_journal.specs.declared.step.Step.TheVariants as steps_are;
ghost use Rattle.tracker_shard.specs.Calls.{always, finds};
ghost use Rattle.tracker_shard.specs.Steps.{new_dot, slot_of};

use crate::answers::{added, own_dot, removal, replaced};
use crate::call::{Call, Found, SeatCall};
use crate::fault::ShardFault;
use crate::shard::Sub;
use presence_base::{Dot, Json, Key, Meta, Row, Topic};
use presence_journal::{Item, ListedDots, Outcome, Payload, SharedRows, Step, dots_of_rows};
use std::alloc::Global;
use tracker_index::Indexed;

/// The call that tracks the pid under the key on the topic.
#[derive(Clone, Copy)]
pub struct Track<'a> {
    pub pid: u64,
    pub topic: &'a Topic,
    pub key: &'a Key,
    pub meta: &'a Meta,
    ghost count: { pid ≤ 2 ^ 62 },
}

impl Call for Track<'_> {
    type Answer = Dot;

    ghost step = { λ c. steps_are.Track c.pid c.topic.now c.key.now c.meta.now };

    ghost there = { λ c. always };

    ghost gives = { λ c h d. new_dot (outcome_of h (steps_are.Track c.pid c.topic.now c.key.now c.meta.now)) ≡ Some d };

    fn is_there(&self, _table: &Indexed) -> bool {
        true
    }

    #[tactic(auto, using(crate::proofs::Tables::tables, crate::proofs::Doors::finding))]
    fn find(&self, alloc: Global, table: &mut Indexed) -> Result<Found<Dot>, ShardFault> {
        let step = Step::track(self.pid, self.topic, self.key, self.meta)?;
        if own_dot(table, alloc, self.pid, self.topic, self.key)?.is_some() {
            return Ok(Found {
                step,
                outcome: Outcome::AlreadyTracked,
                answer: Err(ShardFault::AlreadyTracked),
            });
        }
        let Some(dot) = table.next_dot() else {
            return Err(ShardFault::ClockFull);
        };
        let outcome = added(alloc, &dot)?;
        Ok(Found {
            step,
            outcome,
            answer: Ok(dot),
        })
    }
}

impl SeatCall for Track<'_> {
    ghost use Rattle.std.specs.Prelude.{refl};

    ghost callers = { λ c. refl };
}

/// The call that replaces what the pid tells under the key on the topic.
#[derive(Clone, Copy)]
pub struct Update<'a> {
    pub pid: u64,
    pub topic: &'a Topic,
    pub key: &'a Key,
    pub meta: &'a Meta,
    ghost count: { pid ≤ 2 ^ 62 },
}

impl Call for Update<'_> {
    type Answer = Dot;

    ghost step = { λ c. steps_are.Update c.pid c.topic.now c.key.now c.meta.now };

    ghost there = { λ c. always };

    ghost gives = { λ c h d. new_dot (outcome_of h (steps_are.Update c.pid c.topic.now c.key.now c.meta.now)) ≡ Some d };

    fn is_there(&self, _table: &Indexed) -> bool {
        true
    }

    #[tactic(auto, using(crate::proofs::Tables::tables, crate::proofs::Doors::finding))]
    fn find(&self, alloc: Global, table: &mut Indexed) -> Result<Found<Dot>, ShardFault> {
        let step = Step::update(self.pid, self.topic, self.key, self.meta)?;
        let Some(old) = own_dot(table, alloc, self.pid, self.topic, self.key)? else {
            return Ok(Found {
                step,
                outcome: Outcome::NoPresence,
                answer: Err(ShardFault::NoPresence),
            });
        };
        let Some(dot) = table.next_dot() else {
            return Err(ShardFault::ClockFull);
        };
        let outcome = replaced(alloc, &dot, &old)?;
        Ok(Found {
            step,
            outcome,
            answer: Ok(dot),
        })
    }
}

impl SeatCall for Update<'_> {
    ghost use Rattle.std.specs.Prelude.{refl};

    ghost callers = { λ c. refl };
}

/// The call that takes out the pid's row under the key on the topic.
#[derive(Clone, Copy)]
pub struct Untrack<'a> {
    pub pid: u64,
    pub topic: &'a Topic,
    pub key: &'a Key,
}

impl Call for Untrack<'_> {
    type Answer = Vec<Dot>;

    ghost step = { λ c. steps_are.Untrack c.pid c.topic.now c.key.now };

    ghost there = { λ c. always };

    ghost gives = { λ c h dots. dots.items ≡ dots_of (rows_of_key h c.pid c.topic.now c.key.now) };

    fn is_there(&self, _table: &Indexed) -> bool {
        true
    }

    #[tactic(auto, using(crate::proofs::Tables::tables, crate::proofs::Doors::finding))]
    fn find(&self, alloc: Global, table: &mut Indexed) -> Result<Found<Vec<Dot>>, ShardFault> {
        let rows = table.rows_of_key(alloc, self.pid, self.topic, self.key)?;
        let Some(outcome) = removal(table, alloc, &rows)? else {
            return Err(ShardFault::ClockFull);
        };
        let dots = dots_of_rows(alloc, &rows)?;
        let step = Step::untrack(self.pid, self.topic, self.key)?;
        Ok(Found {
            step,
            outcome,
            answer: Ok(dots),
        })
    }
}

impl SeatCall for Untrack<'_> {
    ghost use Rattle.std.specs.Prelude.{refl};

    ghost callers = { λ c. refl };
}

/// The call that takes out each row of the pid on the topic.
#[derive(Clone, Copy)]
pub struct UntrackAll<'a> {
    pub pid: u64,
    pub topic: &'a Topic,
}

impl Call for UntrackAll<'_> {
    type Answer = Vec<Dot>;

    ghost step = { λ c. steps_are.UntrackAll c.pid c.topic.now };

    ghost there = { λ c. always };

    ghost gives = { λ c h dots. dots.items ≡ dots_of (rows_of_pid h c.pid c.topic.now) };

    fn is_there(&self, _table: &Indexed) -> bool {
        true
    }

    #[tactic(auto, using(crate::proofs::Tables::tables, crate::proofs::Doors::finding))]
    fn find(&self, alloc: Global, table: &mut Indexed) -> Result<Found<Vec<Dot>>, ShardFault> {
        let rows = table.rows_of_pid(alloc, self.pid, self.topic)?;
        let Some(outcome) = removal(table, alloc, &rows)? else {
            return Err(ShardFault::ClockFull);
        };
        let dots = dots_of_rows(alloc, &rows)?;
        let step = Step::untrack_all(self.pid, self.topic)?;
        Ok(Found {
            step,
            outcome,
            answer: Ok(dots),
        })
    }
}

impl SeatCall for UntrackAll<'_> {
    ghost use Rattle.std.specs.Prelude.{refl};

    ghost callers = { λ c. refl };
}

/// The call that answers the rows that are present on the topic.
#[derive(Clone, Copy)]
pub struct List<'a> {
    pub topic: &'a Topic,
}

impl Call for List<'_> {
    type Answer = SharedRows;

    ghost step = { λ c. steps_are.List c.topic.now };

    ghost there = { λ c. always };

    ghost gives = { λ c h rows. rows ≡ listed h c.topic.now };

    fn is_there(&self, _table: &Indexed) -> bool {
        true
    }

    #[tactic(auto, using(crate::proofs::Tables::tables, crate::proofs::Doors::finding))]
    fn find(&self, alloc: Global, table: &mut Indexed) -> Result<Found<SharedRows>, ShardFault> {
        let rows = table.state(alloc, self.topic)?;
        let dots = rows.dots()?;
        let step = Step::list(self.topic)?;
        Ok(Found {
            step,
            outcome: Outcome::Shown(dots),
            answer: Ok(rows),
        })
    }
}

impl SeatCall for List<'_> {
    ghost use Rattle.std.specs.Prelude.{refl};

    ghost callers = { λ c. refl };
}

/// The call that answers the rows that are present under the key on the topic.
#[derive(Clone, Copy)]
pub struct Get<'a> {
    pub topic: &'a Topic,
    pub key: &'a Key,
}

impl Call for Get<'_> {
    type Answer = Vec<(Dot, Row)>;

    ghost step = { λ c. steps_are.Get c.topic.now c.key.now };

    ghost there = { λ c. always };

    ghost gives = { λ c h rows. rows.items ≡ listed_key h c.topic.now c.key.now };

    fn is_there(&self, _table: &Indexed) -> bool {
        true
    }

    #[tactic(auto, using(crate::proofs::Tables::tables, crate::proofs::Doors::finding))]
    fn find(
        &self,
        alloc: Global,
        table: &mut Indexed,
    ) -> Result<Found<Vec<(Dot, Row)>>, ShardFault> {
        let rows = table.listed_key(alloc, self.topic, self.key)?;
        let dots = ListedDots::new(alloc, dots_of_rows(alloc, &rows)?)?;
        table.count_list(dots.new_bytes());
        let step = Step::get(self.topic, self.key)?;
        Ok(Found {
            step,
            outcome: Outcome::Shown(dots),
            answer: Ok(rows),
        })
    }
}

impl SeatCall for Get<'_> {
    ghost use Rattle.std.specs.Prelude.{refl};

    ghost callers = { λ c. refl };
}

/// The call that sends the payload to each subscriber of the topic.
#[derive(Clone, Copy)]
pub struct Shout<'a> {
    pub topic: &'a Topic,
    pub payload: &'a Json,
    ghost limits: { IsTrue (is_payload payload.now) },
}

impl Call for Shout<'_> {
    type Answer = ();

    ghost step = { λ c. steps_are.Shout c.topic.now c.payload.now };

    ghost there = { λ c. always };

    ghost gives = { λ c h _. Unit {0} };

    fn is_there(&self, _table: &Indexed) -> bool {
        true
    }

    #[tactic(auto, using(crate::proofs::Tables::tables, crate::proofs::Doors::finding))]
    fn find(&self, alloc: Global, _table: &mut Indexed) -> Result<Found<()>, ShardFault> {
        let payload = Payload::new(alloc, self.payload)?;
        let step = Step::shout_shared(self.topic, &payload)?;
        Ok(Found {
            step,
            outcome: Outcome::Sent,
            answer: Ok(()),
        })
    }
}

impl SeatCall for Shout<'_> {
    ghost use Rattle.std.specs.Prelude.{refl};

    ghost callers = { λ c. refl };
}

/// The call that sends the subscribers of the topic what was made a payload before, whose text the entry and the items share.
#[derive(Clone, Copy)]
pub struct ShoutShared<'a> {
    pub topic: &'a Topic,
    pub payload: &'a Payload,
}

impl Call for ShoutShared<'_> {
    type Answer = ();

    ghost step = { λ c. steps_are.Shout c.topic.now c.payload.now };

    ghost there = { λ c. always };

    ghost gives = { λ c h _. Unit {0} };

    fn is_there(&self, _table: &Indexed) -> bool {
        true
    }

    #[tactic(auto, using(crate::proofs::Tables::tables, crate::proofs::Doors::finding))]
    fn find(&self, _alloc: Global, _table: &mut Indexed) -> Result<Found<()>, ShardFault> {
        let step = Step::shout_shared(self.topic, self.payload)?;
        Ok(Found {
            step,
            outcome: Outcome::Sent,
            answer: Ok(()),
        })
    }
}

impl SeatCall for ShoutShared<'_> {
    ghost use Rattle.std.specs.Prelude.{refl};

    ghost callers = { λ c. refl };
}

/// The call that makes a new subscriber of the topic.
#[derive(Clone, Copy)]
pub struct Subscribe<'a> {
    pub topic: &'a Topic,
}

impl Call for Subscribe<'_> {
    type Answer = Sub;

    ghost step = { λ c. steps_are.Subscribe c.topic.now };

    ghost there = { λ c. always };

    ghost gives = { λ c h sub. (sub.number ≡ last_number h + 1) × (sub.slot ≡ slot_of sub.number) };

    fn is_there(&self, _table: &Indexed) -> bool {
        true
    }

    #[tactic(auto, using(crate::proofs::Tables::tables, crate::proofs::Doors::finding))]
    fn find(&self, _alloc: Global, table: &mut Indexed) -> Result<Found<Sub>, ShardFault> {
        let number = table.journal().last_number() + 1;
        let step = Step::subscribe(self.topic)?;
        Ok(Found {
            step,
            outcome: Outcome::Subscribed(number),
            answer: Ok(Sub { slot: 0, number }),
        })
    }
}

impl SeatCall for Subscribe<'_> {
    ghost use Rattle.std.specs.Prelude.{refl};

    ghost callers = { λ c. refl };
}

/// The call that takes up to `max` of the items that wait for a subscriber.
#[derive(Clone, Copy)]
pub struct Take {
    pub sub: Sub,
    pub max: u32,
    ghost limit: { IsTrue (is_take_limit max) },
}

impl Call for Take {
    type Answer = Vec<Item>;

    ghost step = { λ c. steps_are.Take c.sub.number c.max };

    ghost there = { λ c. finds c.sub };

    ghost gives = { λ c h items. items.items ≡ items_given h c.sub.number c.max };

    fn is_there(&self, table: &Indexed) -> bool {
        self.sub.is_there(table)
    }

    #[tactic(auto, using(crate::proofs::Tables::tables, crate::proofs::Doors::finding))]
    fn find(&self, alloc: Global, table: &mut Indexed) -> Result<Found<Vec<Item>>, ShardFault> {
        let Some(topic) = table.topic_of(self.sub.number) else {
            return Err(ShardFault::NoSub);
        };
        let topic = topic.clone()?;
        let (items, outcome) = table.given(alloc, self.sub.number, &topic, self.max)?;
        Ok(Found {
            step: Step::take(self.sub.number, self.max),
            outcome,
            answer: Ok(items),
        })
    }
}

impl SeatCall for Take {
    ghost use Rattle.std.specs.Prelude.{refl};

    ghost callers = { λ c. refl };
}

/// The call that ends a subscriber.
#[derive(Clone, Copy)]
pub struct Unsubscribe {
    pub sub: Sub,
}

impl Call for Unsubscribe {
    type Answer = ();

    ghost step = { λ c. steps_are.Unsubscribe c.sub.number };

    ghost there = { λ c. finds c.sub };

    ghost gives = { λ c h _. Unit {0} };

    fn is_there(&self, table: &Indexed) -> bool {
        self.sub.is_there(table)
    }

    #[tactic(auto, using(crate::proofs::Tables::tables, crate::proofs::Doors::finding))]
    fn find(&self, _alloc: Global, _table: &mut Indexed) -> Result<Found<()>, ShardFault> {
        Ok(Found {
            step: Step::Unsubscribe {
                subscriber: self.sub.number,
            },
            outcome: Outcome::Ended,
            answer: Ok(()),
        })
    }
}

impl SeatCall for Unsubscribe {
    ghost use Rattle.std.specs.Prelude.{refl};

    ghost callers = { λ c. refl };
}
