//! Any step.
ghost use Rattle.std.specs.Prelude.{◌≡◌, true, OnOk, OnErr};
ghost use Rattle.presence_journal.specs.Table.{is_step};
ghost use Rattle.node_world.specs.World.{is_client, stepped};

use crate::life::Life;
use presence_base::MAX_COUNT;
use presence_journal::Step;
use std::alloc::{AllocError, Global};
use tracker_shard::{
    Cut, Get, Heard, List, Merge, PermDown, Rebirth, ShoutShared, Sub, Subscribe, Take, Tick,
    Track, Unsubscribe, Untrack, UntrackAll, Update,
};

/// Whether a step is one that callers may ask.
pub fn is_callers(step: &Step) -> bool
    ensures { result ≡ is_client step.now }
{
    match step {
        Step::Heard { .. }
        | Step::Tick { .. }
        | Step::PermDown { .. }
        | Step::Cut
        | Step::Merge { .. }
        | Step::Rebirth { .. } => false,
        _ => true,
    }
}

/// Whether a step is within the limits that its type doesn't keep: a pid that a row keeps, and what is told.
pub fn is_limited(step: &Step) -> bool
    requires { is_client step.now ≡ true }
    ensures { result ≡ is_step step.now }
{
    match step {
        Step::Track { pid, .. } | Step::Update { pid, .. } => *pid <= MAX_COUNT,
        _ => true,
    }
}

// The subscriber of a number.
fn numbered(number: u64) -> Sub
    ensures number { result.number ≡ number }
    ensures slot { result.slot ≡ 0 }
{
    Sub { slot: 0, number }
}

/// A step of a life, by its call.
#[tactic(auto, using(crate::proofs::Taken::missing))]
pub(crate) fn take(life: &mut Life, alloc: Global, step: &Step) -> Result<(), AllocError>
    requires { is_step step.now ≡ true }
    ensures stepped { OnOk result (life.new ≡ stepped step.now life.old) }
    ensures same { OnErr result (life.new ≡ life.old) }
{
    match step {
        Step::Track {
            pid,
            topic,
            key,
            meta,
        } => life.call(
            alloc,
            &Track {
                pid: *pid,
                topic,
                key,
                meta,
            },
        ),
        Step::Update {
            pid,
            topic,
            key,
            meta,
        } => life.call(
            alloc,
            &Update {
                pid: *pid,
                topic,
                key,
                meta,
            },
        ),
        Step::Untrack { pid, topic, key } => {
            let pid = *pid;
            life.call(alloc, &Untrack { pid, topic, key })
        }
        Step::UntrackAll { pid, topic } => life.call(alloc, &UntrackAll { pid: *pid, topic }),
        Step::List { topic } => life.call(alloc, &List { topic }),
        Step::Get { topic, key } => life.call(alloc, &Get { topic, key }),
        Step::Subscribe { topic } => life.call(alloc, &Subscribe { topic }),
        Step::Take { subscriber, max } => {
            let (sub, max) = (numbered(*subscriber), max.get());
            life.call(alloc, &Take { sub, max })
        }
        Step::Unsubscribe { subscriber } => {
            let sub = numbered(*subscriber);
            life.call(alloc, &Unsubscribe { sub })
        }
        Step::Shout { topic, payload } => life.call(alloc, &ShoutShared { topic, payload }),
        Step::Heard { replica, now } => {
            let replica = *replica.get();
            life.call(alloc, &Heard { replica, now: *now })
        }
        Step::Tick { now } => life.call(alloc, &Tick { now: *now }),
        Step::PermDown { replica } => {
            let replica = *replica.get();
            life.call(alloc, &PermDown { replica })
        }
        Step::Cut => life.call(alloc, &Cut),
        Step::Merge { told } => life.call(alloc, &Merge { told }),
        Step::Rebirth { incarnation } => {
            let incarnation = *incarnation;
            life.call(alloc, &Rebirth { incarnation })
        }
    }
}
