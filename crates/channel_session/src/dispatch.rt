//! Topic events, matched once.
ghost use Rattle.std.specs.Prelude.{IsTrue, None, false, codes};
ghost use Rattle.presence_journal.specs.Limits.{is_payload};
ghost use Rattle.channel_rules.specs.Replies.{RunsBy, RepliesWith};
ghost use Rattle.channel_rules.specs.Rules.{says_ok, says_error, empty as empty_of};
ghost use Rattle.channel_session.specs.Wording.{worded_by};
ghost use Rattle.channel_session.specs.Under.{event_under};

use crate::asking::{Caller, Incoming};
use crate::events::{get, list, ping, shout, track, unknown, untrack, update};
use channel_rules::{Port, Reply, Stop, TopicEvent, empty_object, write_error, write_ok};
use hook_registry::PresenceHooks;
use phx_message::Message;
use std::alloc::Global;

/// An event of a joined topic. Rows are told with what a fetch adds.
pub fn topic_event<P: Port, H: PresenceHooks>(
    caller: Caller,
    hooks: &H,
    incoming: Incoming<'_>,
    port: &mut P,
    event: TopicEvent,
) -> Result<Reply, Stop>
    requires { IsTrue (is_payload incoming.message.now.payload) }
    ensures { RunsBy (worded_by H.PresenceHooks hooks.now) (P.step caller.pid)
        (event_under incoming.entry.join.now incoming.entry.message.now event) port.old port.new result }
{
    let Incoming { join, message } = incoming;
    let join_ref = &join.join_ref;
    match event {
        TopicEvent::Ping => ping(caller, join_ref, port, message),
        TopicEvent::Shout => shout(caller, join_ref, port, message),
        TopicEvent::Track => track(caller, join_ref, port, message),
        TopicEvent::Update => update(caller, join_ref, port, message),
        TopicEvent::Untrack => untrack(caller, join_ref, port, message),
        TopicEvent::List => list(caller, hooks, incoming, port),
        TopicEvent::Get => get(caller, hooks, incoming, port),
        TopicEvent::Unknown => unknown(caller, join_ref, port, message),
    }
}

/// The reply that the topic is not joined, or is none that can be.
pub fn unmatched(alloc: Global, message: &Message) -> Result<Reply, Stop>
    ensures { RepliesWith (says_error message.now.join_ref message.now (codes "unmatched topic")) false result }
{
    Ok(Reply::One(write_error(alloc, &message.join_ref, message, "unmatched topic")?))
}

/// The reply to a heartbeat.
pub fn heartbeat(alloc: Global, message: &Message) -> Result<Reply, Stop>
    ensures { RepliesWith (says_ok None message.now empty_of) false result }
{
    let response = empty_object(alloc);
    Ok(Reply::One(write_ok(alloc, &None, message, response)?))
}
