//! The end of a session, topic by topic.
ghost use Rattle.std.specs.Prelude.{◌≡◌, [], OnOk, take, drop};
ghost use Rattle.channel_session.specs.Ending.{Played, Gone, Keeps, EndedBy, EndsTopics, ends, fault_of_refusal as fault_in, is_unknown as is_unknown_of, topics_named};
ghost use Rattle.channel_rules.specs.InForce.{joined_in};

use crate::asking::Caller;
use crate::fault::SessionFault;
use crate::joins::take_out;
use crate::session::Session;
use channel_rules::{Join, Port, Refusal, Topics, Unsubscribe};
use presence_base::Topic;
use std::alloc::Global;
use tracker_shard::ShardFault;

// Whether the port has no such subscriber.
fn is_unknown(refusal: Refusal) -> bool
    ensures { result ≡ is_unknown_of refusal }
{
    matches!(refusal, Refusal::Table(ShardFault::NoSub))
}

// Both calls for one topic. An unknown subscriber counts as gone.
fn end_topic<P: Port>(
    caller: Caller,
    topic: &Topic,
    join: &Join,
    port: &mut P,
) -> Result<(), Refusal>
    ensures { Gone (P.step caller.pid) topic.now join.now.sub port.old port.new result }
{
    let unsubscribe = Unsubscribe {
        topic,
        sub: join.sub,
    };
    match port.call(caller.alloc, caller.pid, &unsubscribe) {
        Ok(()) => take_out(caller, topic, port),
        Err(refusal) => {
            if is_unknown(refusal) {
                return take_out(caller, topic, port);
            }
            Err(refusal)
        }
    }
}

// Ends the topics from this place on, in order of joining. One whose calls are refused stays, and
// the first refusal is answered.
fn end_topics<P: Port>(
    caller: Caller,
    topics: &mut Topics,
    index: usize,
    port: &mut P,
) -> Result<(), Refusal>
    ensures before { take index (joined_in topics.new) ≡ take index (joined_in topics.old) }
    ensures empty { OnOk result (drop index (joined_in topics.new) ≡ []) }
    ensures played { EndsTopics (P.step caller.pid) (drop index (joined_in topics.old))
        (drop index (joined_in topics.new)) port.old port.new result }
{
    if index >= topics.len() {
        return Ok(());
    }
    let Some((topic, join)) = topics.at(index) else {
        return Ok(());
    };
    match end_topic(caller, topic, join, port) {
        Ok(()) => {
            topics.drop_at(index);
            end_topics(caller, topics, index, port)
        }
        Err(refusal) => {
            let _later = end_topics(caller, topics, index + 1, port);
            Err(refusal)
        }
    }
}

// The fault of a refusal.
fn fault_of_refusal(refusal: Refusal) -> SessionFault
    ensures { result ≡ fault_in refusal }
{
    match refusal {
        Refusal::Table(ShardFault::OutOfMemory) => SessionFault::OutOfMemory,
        Refusal::OverRation
        | Refusal::NotGranted
        | Refusal::Table(
            ShardFault::AlreadyTracked
            | ShardFault::NoPresence
            | ShardFault::ClockFull
            | ShardFault::JournalFull
            | ShardFault::NoSub
            | ShardFault::BadIncarnation,
        ) => SessionFault::ShardFull,
    }
}

// Ends the topics in force. A session in which one stays has failed.
fn end_joined<P: Port>(alloc: Global, session: &mut Session, port: &mut P) -> Result<(), Refusal>
    ensures empty { OnOk result (session.new.joined ≡ []) }
    ensures kept { Keeps session.old session.new result }
    ensures played { EndsTopics (P.step session.old.pid) session.old.joined session.new.joined
        port.old port.new result }
{
    let caller = Caller {
        alloc,
        pid: session.pid,
    };
    match end_topics(caller, &mut session.topics, 0, port) {
        Ok(()) => Ok(()),
        Err(refusal) => {
            session.failed = true;
            Err(refusal)
        }
    }
}

// Ends the join that was cut short, and then the topics in force.
fn end_calls<P: Port>(alloc: Global, session: &mut Session, port: &mut P) -> Result<(), Refusal>
    ensures empty { OnOk result (topics_named session.new ≡ []) }
    ensures played { Played (P.step session.old.pid) (ends session.old) port.old port.new
        (record { after = session.new; answer = result }) }
{
    let caller = Caller {
        alloc,
        pid: session.pid,
    };
    match &session.cut_short {
        None => end_joined(alloc, session, port),
        Some(topic) => match take_out(caller, topic, port) {
            Ok(()) => {
                session.cut_short = None;
                end_joined(alloc, session, port)
            }
            Err(refusal) => {
                let _later = end_joined(alloc, session, port);
                session.failed = true;
                Err(refusal)
            }
        },
    }
}

/// Ends a session: the rows of a join that a fault cut short go first, and then, topic by topic in
/// order of joining, its subscribers and rows. A topic is dropped when both its calls are done, an
/// unknown subscriber counting as gone.
///
/// A refusal keeps its topic, and the others are ended all the same: the first refusal is answered,
/// and the session has failed then. `end` may be called again.
pub fn end<P: Port>(alloc: Global, session: &mut Session, port: &mut P) -> Result<(), SessionFault>
    ensures ended { EndedBy (P.step session.old.pid) session.old port.old port.new session.new result }
    ensures empty { OnOk result (topics_named session.new ≡ []) }
{
    match end_calls(alloc, session, port) {
        Ok(()) => Ok(()),
        Err(refusal) => Err(fault_of_refusal(refusal)),
    }
}
