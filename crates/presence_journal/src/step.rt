//! Steps.
ghost use Rattle.std.specs.Prelude.{◌≡◌, true};
ghost use Rattle.std.specs.List.{list_all};
ghost use Rattle.orswot_core.specs.Limits.{are_texts};
ghost use Rattle.presence_journal.specs.StepLimits.{is_named};

use crate::limits::{Payload, TakeLimit};
use crate::shared_values::{SharedReplica, SharedTold};
use orswot_core::Told;
use presence_base::{Dot, Json, Key, Meta, Replica, Row, Topic};
use std::alloc::{AllocError, Global};

/// What is asked of a shard. A `pid` names the session that asks; a subscriber is named by the
/// number of the entry that made it. A time is in milliseconds.
#[derive(Debug, Drop)]
pub enum Step {
    Track {
        pid: u64,
        topic: Topic,
        key: Key,
        meta: Meta,
    },
    Update {
        pid: u64,
        topic: Topic,
        key: Key,
        meta: Meta,
    },
    Untrack {
        pid: u64,
        topic: Topic,
        key: Key,
    },
    UntrackAll {
        pid: u64,
        topic: Topic,
    },
    List {
        topic: Topic,
    },
    Get {
        topic: Topic,
        key: Key,
    },
    Subscribe {
        topic: Topic,
    },
    Take {
        subscriber: u64,
        max: TakeLimit,
    },
    Unsubscribe {
        subscriber: u64,
    },
    Shout {
        topic: Topic,
        payload: Payload,
    },
    /// A replica was heard.
    Heard {
        replica: SharedReplica,
        now: u64,
    },
    /// Time passed.
    Tick {
        now: u64,
    },
    /// A replica is gone for good.
    PermDown {
        replica: SharedReplica,
    },
    /// What the own replica did since the last cut is told.
    Cut,
    /// What another node told is taken in.
    Merge {
        told: SharedTold,
    },
    /// The own replica goes on under a higher incarnation.
    Rebirth {
        incarnation: u64,
    },
}

// Each of these makes a step of what a caller lends, and reads a text or a value only to show its limits.
impl Step {
    ghost use Rattle.std.specs.Prelude.{◌≡◌, ◌^◌, true, nat_le, IfOk, IsTrue};
    ghost use Rattle.presence_journal.specs.Limits.{is_payload, is_take_limit};
    ghost use Rattle.presence_journal.specs.StepLimits.{is_within_limits};

    /// A track of a key.
    pub fn track(pid: u64, topic: &Topic, key: &Key, meta: &Meta) -> Result<Step, AllocError>
        ensures step { IfOk result (λ s. s ≡ Step.Track pid topic.now key.now meta.now) }
        ensures limits { IfOk result (λ s. is_within_limits s ≡ nat_le pid (2 ^ 62)) }
    {
        let (_topic, _key, _meta) = (topic.as_str(), key.as_str(), meta.text());
        let topic = topic.clone()?;
        let key = key.clone()?;
        let meta = meta.clone()?;
        Ok(Step::Track {
            pid,
            topic,
            key,
            meta,
        })
    }

    /// An update of what a session tells under a key.
    pub fn update(pid: u64, topic: &Topic, key: &Key, meta: &Meta) -> Result<Step, AllocError>
        ensures step { IfOk result (λ s. s ≡ Step.Update pid topic.now key.now meta.now) }
        ensures limits { IfOk result (λ s. is_within_limits s ≡ nat_le pid (2 ^ 62)) }
    {
        let (_topic, _key, _meta) = (topic.as_str(), key.as_str(), meta.text());
        let topic = topic.clone()?;
        let key = key.clone()?;
        let meta = meta.clone()?;
        Ok(Step::Update {
            pid,
            topic,
            key,
            meta,
        })
    }

    /// An untrack of a key.
    pub fn untrack(pid: u64, topic: &Topic, key: &Key) -> Result<Step, AllocError>
        ensures step { IfOk result (λ s. s ≡ Step.Untrack pid topic.now key.now) }
        ensures limits { IfOk result (λ s. is_within_limits s ≡ true) }
    {
        let (_topic, _key) = (topic.as_str(), key.as_str());
        let topic = topic.clone()?;
        let key = key.clone()?;
        Ok(Step::Untrack { pid, topic, key })
    }

    /// An untrack of all keys of a session.
    pub fn untrack_all(pid: u64, topic: &Topic) -> Result<Step, AllocError>
        ensures step { IfOk result (λ s. s ≡ Step.UntrackAll pid topic.now) }
        ensures limits { IfOk result (λ s. is_within_limits s ≡ true) }
    {
        let _topic = topic.as_str();
        let topic = topic.clone()?;
        Ok(Step::UntrackAll { pid, topic })
    }

    /// A list of a topic's rows.
    pub fn list(topic: &Topic) -> Result<Step, AllocError>
        ensures step { IfOk result (λ s. s ≡ Step.List topic.now) }
        ensures limits { IfOk result (λ s. is_within_limits s ≡ true) }
    {
        let _topic = topic.as_str();
        let topic = topic.clone()?;
        Ok(Step::List { topic })
    }

    /// A list of the rows under a key.
    pub fn get(topic: &Topic, key: &Key) -> Result<Step, AllocError>
        ensures step { IfOk result (λ s. s ≡ Step.Get topic.now key.now) }
        ensures limits { IfOk result (λ s. is_within_limits s ≡ true) }
    {
        let (_topic, _key) = (topic.as_str(), key.as_str());
        let topic = topic.clone()?;
        let key = key.clone()?;
        Ok(Step::Get { topic, key })
    }

    /// A new subscriber of a topic.
    pub fn subscribe(topic: &Topic) -> Result<Step, AllocError>
        ensures step { IfOk result (λ s. s ≡ Step.Subscribe topic.now) }
        ensures limits { IfOk result (λ s. is_within_limits s ≡ true) }
    {
        let _topic = topic.as_str();
        let topic = topic.clone()?;
        Ok(Step::Subscribe { topic })
    }

    /// A take of at most so many items.
    pub fn take(subscriber: u64, max: u32) -> Step
        requires { IsTrue (is_take_limit max) }
        ensures step { result ≡ Step.Take subscriber max }
        ensures limits { is_within_limits result ≡ true }
    {
        Step::Take {
            subscriber,
            max: TakeLimit::new(max),
        }
    }

    /// A shout to a topic's subscribers.
    pub fn shout(alloc: Global, topic: &Topic, payload: &Json) -> Result<Step, AllocError>
        requires { IsTrue (is_payload payload.now) }
        ensures step { IfOk result (λ s. s ≡ Step.Shout topic.now payload.now) }
        ensures limits { IfOk result (λ s. is_within_limits s ≡ true) }
    {
        let _topic = topic.as_str();
        let topic = topic.clone()?;
        let payload = Payload::new(alloc, payload)?;
        Ok(Step::Shout { topic, payload })
    }

    /// A shout whose payload was made before. It shares the payload's text.
    pub fn shout_shared(topic: &Topic, payload: &Payload) -> Result<Step, AllocError>
        ensures step { IfOk result (λ s. s ≡ Step.Shout topic.now payload.now) }
        ensures limits { IfOk result (λ s. is_within_limits s ≡ true) }
    {
        let (_topic, _payload) = (topic.as_str(), payload.text());
        let topic = topic.clone()?;
        let payload = payload.clone()?;
        Ok(Step::Shout { topic, payload })
    }

    /// A replica was heard at a time.
    pub fn heard(alloc: Global, replica: Replica, now: u64) -> Result<Step, AllocError>
        ensures step { IfOk result (λ s. s ≡ Step.Heard replica now) }
        ensures limits { IfOk result (λ s. is_within_limits s ≡ true) }
    {
        let _name = replica.name.as_str();
        let replica = SharedReplica::new(alloc, replica)?;
        Ok(Step::Heard { replica, now })
    }

    /// A replica is gone for good.
    pub fn permdown(alloc: Global, replica: Replica) -> Result<Step, AllocError>
        ensures step { IfOk result (λ s. s ≡ Step.PermDown replica) }
        ensures limits { IfOk result (λ s. is_within_limits s ≡ true) }
    {
        let _name = replica.name.as_str();
        let replica = SharedReplica::new(alloc, replica)?;
        Ok(Step::PermDown { replica })
    }

    /// A merge of what another node told.
    pub fn merge(alloc: Global, told: &Told) -> Result<Step, AllocError>
        ensures step { IfOk result (λ s. s ≡ Step.Merge told.now) }
        ensures limits { IfOk result (λ s. is_within_limits s ≡ true) }
    {
        read_rows(told.live());
        let told = SharedTold::new(alloc, told.clone()?)?;
        Ok(Step::Merge { told })
    }

    /// A merge of what another node told, which is shared and not copied.
    pub fn merge_shared(told: &SharedTold) -> Result<Step, AllocError>
        ensures step { IfOk result (λ s. s ≡ Step.Merge told.now) }
        ensures limits { IfOk result (λ s. is_within_limits s ≡ true) }
    {
        read_rows(told.get().live());
        let told = told.clone()?;
        Ok(Step::Merge { told })
    }
}

// Reads the names and texts of rows, whose types keep their limits.
fn read_rows(live: &[(Dot, Row)])
    ensures names { list_all is_named live.now ≡ true }
    ensures texts { list_all (λ x. are_texts x.1) live.now ≡ true }
{
    for row in live {
        read_row(row);
    }
}

fn read_row(row: &(Dot, Row))
    ensures names { is_named row.now ≡ true }
    ensures texts { are_texts row.now.1 ≡ true }
{
    let _name = row.0.replica.name.as_str();
    let (_topic, _key, _meta) = (row.1.topic.as_str(), row.1.key.as_str(), row.1.meta.text());
}

impl Clone for Step {
    ghost use Rattle.std.specs.Prelude.{◌≡◌};

    ghost is_clone = { λ s t. t ≡ s };

    fn clone(&self) -> Result<Step, AllocError> {
        match self {
            Step::Track {
                pid,
                topic,
                key,
                meta,
            } => Step::track(*pid, topic, key, meta),
            Step::Update {
                pid,
                topic,
                key,
                meta,
            } => Step::update(*pid, topic, key, meta),
            Step::Untrack { pid, topic, key } => Step::untrack(*pid, topic, key),
            Step::UntrackAll { pid, topic } => Step::untrack_all(*pid, topic),
            Step::List { topic } => Step::list(topic),
            Step::Get { topic, key } => Step::get(topic, key),
            Step::Subscribe { topic } => Step::subscribe(topic),
            Step::Take { subscriber, max } => Ok(Step::take(*subscriber, max.get())),
            Step::Unsubscribe { subscriber } => Ok(Step::Unsubscribe {
                subscriber: *subscriber,
            }),
            Step::Shout { topic, payload } => Step::shout_shared(topic, payload),
            Step::Heard { replica, now } => Ok(Step::Heard {
                replica: replica.clone()?,
                now: *now,
            }),
            Step::Tick { now } => Ok(Step::Tick { now: *now }),
            Step::PermDown { replica } => Ok(Step::PermDown {
                replica: replica.clone()?,
            }),
            Step::Cut => Ok(Step::Cut),
            Step::Merge { told } => Ok(Step::Merge {
                told: told.clone()?,
            }),
            Step::Rebirth { incarnation } => Ok(Step::Rebirth {
                incarnation: *incarnation,
            }),
        }
    }
}
