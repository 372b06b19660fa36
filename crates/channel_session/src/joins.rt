//! Joins and their ends.
ghost use Rattle.std.specs.Prelude.{◌≡◌, IfOk, IfErr, option_map, is_ok, false};
ghost use Rattle.serde_json.specs.Written.{has_float as float_within};
ghost use Rattle.channel_rules.specs.Asks.{untrack_all};
ghost use Rattle.channel_rules.specs.InForce.{joined_of};
ghost use Rattle.channel_session.specs.Joining.{Joins, JoinsAsked, JoinsBehind, Leads, Leaves, JoinRuns, JoinRepliesWith, Rejoins, Subscribed, leave_end};
ghost use Rattle.channel_rules.specs.Replies.{RepliesWith, reply_end};
ghost use Rattle.channel_rules.specs.InForce.{InForce};
ghost use Rattle.channel_rules.specs.Rules.{said, refuses, subscribes, tracks, join_ref_of as join_ref_in, told_ref, empty as empty_of, says_ok};

use crate::asking::Caller;
use channel_rules::{
    Asked, Join, MAX_TOPICS, Port, Refusal, Reply, Stop, Subscribe, Track, Unsubscribe, UntrackAll,
    Written, empty_object, read_asked, ref_response, spoil, stop_of, subscribe_reason,
    track_reason, write_close, write_error, write_ok,
};
use phx_message::{Message, MsgRef};
use presence_base::{Dot, Json, Key, Meta, Topic};
use std::alloc::{AllocError, Global};
use tracker_shard::Sub;

/// Takes out the caller's rows on a topic.
pub fn take_out<P: Port>(caller: Caller, topic: &Topic, port: &mut P) -> Result<(), Refusal>
    ensures { P.step caller.pid port.old (untrack_all topic.now) result port.new }
{
    match port.call(caller.alloc, caller.pid, &UntrackAll { topic }) {
        Ok(_) => Ok(()),
        Err(refusal) => Err(refusal),
    }
}

// The calls that end a join.
fn end_join<P: Port>(caller: Caller, topic: &Topic, join: &Join, port: &mut P) -> Result<(), Stop>
    ensures { Leads (P.step caller.pid) topic.now join.now.sub port.old port.new result }
{
    let unsubscribe = Unsubscribe {
        topic,
        sub: join.sub,
    };
    match port.call(caller.alloc, caller.pid, &unsubscribe) {
        Err(refusal) => Err(stop_of(refusal, true)),
        Ok(()) => match take_out(caller, topic, port) {
            Err(refusal) => Err(stop_of(refusal, true)),
            Ok(()) => Ok(()),
        },
    }
}

/// What a join answers, and its subscriber where it was accepted.
#[derive(Debug, Drop)]
pub struct JoinReply {
    pub reply: Written,
    pub sub: Option<Sub>,
}

/// The reference of a join.
pub fn join_ref_for(message: &Message) -> &Option<MsgRef>
    ensures { result.now ≡ join_ref_in message.now }
{
    match &message.join_ref {
        Some(_) => &message.join_ref,
        None => &message.msg_ref,
    }
}

// The reply of a join that is refused for this reason.
fn refusing(alloc: Global, message: &Message, reason: &str) -> Result<JoinReply, Stop>
    ensures { JoinRepliesWith
        (λ before kind s. refuses before s message.now reason.now) false message.now result }
{
    let reply = write_error(alloc, join_ref_for(message), message, reason)?;
    Ok(JoinReply { reply, sub: None })
}

// What a refusal of the port leads to in a join.
fn refused_join(
    alloc: Global,
    message: &Message,
    refusal: Refusal,
    reason: Option<&'static str>,
) -> Result<JoinReply, Stop>
    ensures { JoinRepliesWith
        (λ before kind s. said (refuses before s message.now) refusal (option_map (λ r. r.now) reason.entry))
        false message.now result }
{
    match reason {
        Some(reason) => refusing(alloc, message, reason),
        None => Err(stop_of(refusal, false)),
    }
}

// What the port's answer to a subscription leads to.
fn subscribed(
    alloc: Global,
    first: Option<bool>,
    message: &Message,
    reply: Written,
    answer: Result<Sub, Refusal>,
) -> Result<JoinReply, Stop>
    ensures gives { Subscribed first message.now reply.message answer result }
    ensures heeds { IfErr result (λ _. is_ok answer ≡ false) }
{
    match answer {
        Ok(sub) => Ok(JoinReply {
            reply,
            sub: Some(sub),
        }),
        Err(refusal) => refused_join(alloc, message, refusal, subscribe_reason(first, refusal)),
    }
}

// Subscribes. The reply is written before the call, since nothing may fail behind it.
fn subscribe_with<P: Port>(
    caller: Caller,
    first: Option<bool>,
    port: &mut P,
    message: &Message,
    response: Json,
) -> Result<JoinReply, Stop>
    requires whole { float_within response ≡ false }
    ensures { JoinRuns (P.step caller.pid)
        (λ before kind s. subscribes first before kind s message.now response)
        message.now port.old port.new result }
{
    let reply = write_ok(caller.alloc, join_ref_for(message), message, response)?;
    let topic = &message.topic;
    let answer = port.call(caller.alloc, caller.pid, &Subscribe { topic });
    subscribed(caller.alloc, first, message, reply, answer)
}

fn subscribe_plain<P: Port>(
    caller: Caller,
    first: bool,
    port: &mut P,
    message: &Message,
) -> Result<JoinReply, Stop>
    ensures { JoinRuns (P.step caller.pid)
        (λ before kind s. subscribes (Some first) before kind s message.now empty_of)
        message.now port.old port.new result }
{
    let response = empty_object(caller.alloc);
    subscribe_with(caller, Some(first), port, message, response)
}

fn subscribe_told<P: Port>(
    caller: Caller,
    port: &mut P,
    message: &Message,
    dot: &Dot,
) -> Result<JoinReply, Stop>
    ensures { JoinRuns (P.step caller.pid)
        (λ before kind s. subscribes None before kind s message.now (told_ref dot.now))
        message.now port.old port.new result }
{
    let response = ref_response(caller.alloc, dot)?;
    subscribe_with(caller, None, port, message, response)
}

// Who joins: a session that has joined `count` topics, and whether the join's calls are its text's first.
#[derive(Clone, Copy)]
struct Joiner {
    caller: Caller,
    count: usize,
    first: bool,
}

fn track_then_subscribe<P: Port>(
    joiner: Joiner,
    port: &mut P,
    message: &Message,
    key: &Key,
    meta: &Meta,
) -> Result<JoinReply, Stop>
    ensures { JoinRuns (P.step joiner.caller.pid)
        (λ before kind s. tracks joiner.first before kind s message.now key.now meta.now)
        message.now port.old port.new result }
{
    let Joiner { caller, first, .. } = joiner;
    let alloc = caller.alloc;
    let track = Track {
        topic: &message.topic,
        key,
        meta,
    };
    match port.call(alloc, caller.pid, &track) {
        Ok(dot) => {
            let rest = subscribe_told(caller, port, message, &dot);
            spoil(rest)
        }
        Err(refusal) => refused_join(alloc, message, refusal, track_reason(first, refusal)),
    }
}

fn join_asked<P: Port>(
    joiner: Joiner,
    port: &mut P,
    message: &Message,
    asked: Asked,
) -> Result<JoinReply, Stop>
    ensures { JoinsAsked (P.step joiner.caller.pid) joiner.count joiner.first message.now asked
        port.old port.new result }
{
    let Joiner {
        caller,
        count,
        first,
    } = joiner;
    let alloc = caller.alloc;
    match asked {
        Asked::Bad => refusing(alloc, message, "bad payload"),
        Asked::Nothing => {
            if count >= MAX_TOPICS {
                refusing(alloc, message, "too many topics")
            } else {
                subscribe_plain(caller, first, port, message)
            }
        }
        Asked::Wants(key, meta) => {
            if count >= MAX_TOPICS {
                refusing(alloc, message, "too many topics")
            } else {
                track_then_subscribe(joiner, port, message, &key, &meta)
            }
        }
    }
}

/// A first join, by a session that has joined `count` topics.
pub fn join<P: Port>(
    caller: Caller,
    count: usize,
    port: &mut P,
    message: &Message,
) -> Result<JoinReply, Stop>
    ensures { Joins (P.step caller.pid) count message.now port.old port.new result }
{
    let asked = read_asked(caller.alloc, message.payload.as_value())?;
    let joiner = Joiner {
        caller,
        count,
        first: true,
    };
    join_asked(joiner, port, message, asked)
}

/// What a second join answers, behind the close of the first.
#[derive(Debug, Drop)]
pub struct RejoinReply {
    pub close: Written,
    pub join: JoinReply,
}

// The new join, behind the close of the old one.
fn join_behind<P: Port>(
    joiner: Joiner,
    port: &mut P,
    message: &Message,
    asked: Asked,
    close: Written,
) -> Result<RejoinReply, Stop>
    ensures { JoinsBehind (P.step joiner.caller.pid) joiner.count joiner.first
        close.message message.now asked port.old port.new result }
{
    match join_asked(joiner, port, message, asked) {
        Ok(join) => Ok(RejoinReply { close, join }),
        Err(stop) => Err(stop),
    }
}

/// A second join. `count` is the number of the other topics that are joined.
pub fn rejoin<P: Port>(
    caller: Caller,
    count: usize,
    join: &Join,
    port: &mut P,
    message: &Message,
) -> Result<RejoinReply, Stop>
    ensures { Rejoins (P.step caller.pid) count (joined_of (message.now.topic, join.now)) message.now
        port.old port.new result }
{
    let close = write_close(caller.alloc, &join.join_ref, &message.topic)?;
    let asked = read_asked(caller.alloc, message.payload.as_value())?;
    let joiner = Joiner {
        caller,
        count,
        first: false,
    };
    match end_join(caller, &message.topic, join, port) {
        Ok(()) => {
            let rest = join_behind(joiner, port, message, asked, close);
            spoil(rest)
        }
        Err(stop) => Err(stop),
    }
}

// The reply to a leave, and the close behind it.
fn leave_reply(alloc: Global, join: &Join, message: &Message) -> Result<Reply, AllocError>
    ensures { IfOk result (λ r. (s : InForce)
        → reply_end s r ≡ leave_end (joined_of (message.now.topic, join.now)) message.now s) }
{
    let response = empty_object(alloc);
    let reply = write_ok(alloc, &join.join_ref, message, response)?;
    let close = write_close(alloc, &join.join_ref, &message.topic)?;
    Ok(Reply::Two(reply, close))
}

/// A leave of a joined topic. Its texts are written before the calls.
pub fn leave<P: Port>(
    caller: Caller,
    join: &Join,
    port: &mut P,
    message: &Message,
) -> Result<Reply, Stop>
    ensures { Leaves (P.step caller.pid) (joined_of (message.now.topic, join.now)) message.now
        port.old port.new result }
{
    let reply = leave_reply(caller.alloc, join, message)?;
    match end_join(caller, &message.topic, join, port) {
        Ok(()) => Ok(reply),
        Err(stop) => Err(stop),
    }
}

/// A leave of a topic that is not joined.
pub fn leave_nothing(alloc: Global, message: &Message) -> Result<Reply, Stop>
    ensures { RepliesWith (says_ok message.now.join_ref message.now empty_of) false result }
{
    let response = empty_object(alloc);
    Ok(Reply::One(write_ok(alloc, &message.join_ref, message, response)?))
}
