//! Each event's function.
ghost use Rattle.std.specs.Prelude.{◌≡◌, ◌≤◌, ◌^◌, IfOk, IsTrue, is_ok, option_map, codes, true, false};
ghost use Rattle.presence_journal.specs.Limits.{is_payload};
ghost use Rattle.channel_rules.specs.Seen.{seen_by};
ghost use Rattle.channel_rules.specs.Asked.{asked as asked_of, key_asked};
ghost use Rattle.channel_rules.specs.Rules.{said, says_ok, says_error, after_shout, after_track, after_update, after_untrack, ok as ok_message, on_ping, on_shout, on_track, on_update, on_untrack, on_unknown, told_ref, empty as empty_of};
ghost use Rattle.channel_rules.specs.Replies.{Runs, RunsBy, RepliesWith};
ghost use Rattle.channel_session.specs.Wording.{worded_by, ListsRows, TellsRows};
ghost use Rattle.channel_session.specs.Under.{done_by, listed_under, list_under, get_under, gets_under};

use crate::asking::{Caller, Incoming};
use channel_rules::{
    Asked, Get, List, Port, Refusal, Reply, Shout, Stop, Track, Untrack, Update, Written,
    empty_object, full_reason, read_asked, read_key, ref_response, spoiling, stop_of, track_reason,
    update_reason, write_error, write_listed, write_ok,
};
use hook_registry::{PresenceHooks, render_state};
use phx_message::{Message, MsgRef};
use presence_base::{Dot, Json, Key, Row};
use presence_journal::SharedRows;
use std::alloc::{AllocError, Global};

// What a refusal of the port leads to.
fn refused(
    alloc: Global,
    join_ref: &Option<MsgRef>,
    message: &Message,
    refusal: Refusal,
    reason: Option<&'static str>,
) -> Result<Reply, Stop>
    ensures { RepliesWith (λ s. said (λ t. says_error join_ref.now message.now t s) refusal
        (option_map (λ r. r.now) reason.entry)) false result }
{
    match reason {
        Some(reason) => Ok(Reply::One(write_error(alloc, join_ref, message, reason)?)),
        None => Err(stop_of(refusal, false)),
    }
}

// The reply that the payload is none that the event takes.
fn bad_payload(alloc: Global, join_ref: &Option<MsgRef>, message: &Message) -> Result<Reply, Stop>
    ensures { RepliesWith (says_error join_ref.now message.now (codes "bad payload")) false result }
{
    Ok(Reply::One(write_error(alloc, join_ref, message, "bad payload")?))
}

pub(crate) fn ping<P: Port>(
    caller: Caller,
    join_ref: &Option<MsgRef>,
    port: &mut P,
    message: &Message,
) -> Result<Reply, Stop>
    requires { IsTrue (is_payload message.now.payload) }
    ensures { Runs (P.step caller.pid) (λ s. on_ping s join_ref.now message.now) port.old port.new result }
{
    let payload = message.payload.clone()?;
    Ok(Reply::One(write_ok(caller.alloc, join_ref, message, payload)?))
}

pub(crate) fn unknown<P: Port>(
    caller: Caller,
    join_ref: &Option<MsgRef>,
    port: &mut P,
    message: &Message,
) -> Result<Reply, Stop>
    ensures { Runs (P.step caller.pid) (λ s. on_unknown s join_ref.now message.now) port.old port.new result }
{
    Ok(Reply::One(write_error(caller.alloc, join_ref, message, "unknown event")?))
}

// What the port's answer to a shout leads to.
fn shouted(
    alloc: Global,
    join_ref: &Option<MsgRef>,
    message: &Message,
    answer: Result<(), Refusal>,
) -> Result<Reply, Stop>
    ensures { RepliesWith (λ s. after_shout s join_ref.now message.now answer) (is_ok answer) result }
{
    match answer {
        Ok(()) => Ok(Reply::Nothing),
        Err(refusal) => refused(
            alloc,
            join_ref,
            message,
            refusal,
            full_reason(true, refusal),
        ),
    }
}

pub(crate) fn shout<P: Port>(
    caller: Caller,
    join_ref: &Option<MsgRef>,
    port: &mut P,
    message: &Message,
) -> Result<Reply, Stop>
    requires { IsTrue (is_payload message.now.payload) }
    ensures { Runs (P.step caller.pid) (λ s. on_shout s join_ref.now message.now) port.old port.new result }
{
    let shout = Shout {
        topic: &message.topic,
        payload: &message.payload,
    };
    let answer = port.call(caller.alloc, caller.pid, &shout);
    shouted(caller.alloc, join_ref, message, answer)
}

// The reply that tells a reference.
fn ref_reply(
    alloc: Global,
    join_ref: &Option<MsgRef>,
    message: &Message,
    dot: &Dot,
) -> Result<Written, AllocError>
    ensures { IfOk result (λ w. w.message ≡ ok_message join_ref.now message.now (told_ref dot.now)) }
{
    let response = ref_response(alloc, dot)?;
    write_ok(alloc, join_ref, message, response)
}

// What an accepted track or update leads to.
fn told(
    alloc: Global,
    join_ref: &Option<MsgRef>,
    message: &Message,
    dot: &Dot,
) -> Result<Reply, Stop>
    ensures { RepliesWith (says_ok join_ref.now message.now (told_ref dot.now)) true result }
{
    match spoiling(ref_reply(alloc, join_ref, message, dot)) {
        Ok(reply) => Ok(Reply::One(reply)),
        Err(stop) => Err(stop),
    }
}

// What the port's answer to a track leads to.
fn tracked(
    alloc: Global,
    join_ref: &Option<MsgRef>,
    message: &Message,
    answer: Result<Dot, Refusal>,
) -> Result<Reply, Stop>
    ensures { RepliesWith (λ s. after_track s join_ref.now message.now answer) (is_ok answer) result }
{
    match answer {
        Ok(dot) => told(alloc, join_ref, message, &dot),
        Err(refusal) => refused(
            alloc,
            join_ref,
            message,
            refusal,
            track_reason(true, refusal),
        ),
    }
}

// What the port's answer to an update leads to.
fn updated(
    alloc: Global,
    join_ref: &Option<MsgRef>,
    message: &Message,
    answer: Result<Dot, Refusal>,
) -> Result<Reply, Stop>
    ensures { RepliesWith (λ s. after_update s join_ref.now message.now answer) (is_ok answer) result }
{
    match answer {
        Ok(dot) => told(alloc, join_ref, message, &dot),
        Err(refusal) => refused(alloc, join_ref, message, refusal, update_reason(refusal)),
    }
}

fn track_asked<P: Port>(
    caller: Caller,
    join_ref: &Option<MsgRef>,
    port: &mut P,
    message: &Message,
    asked: Asked,
) -> Result<Reply, Stop>
    ensures { Runs (P.step caller.pid) (λ s. on_track s join_ref.now message.now asked) port.old port.new result }
{
    match asked {
        Asked::Wants(key, meta) => {
            let track = Track {
                topic: &message.topic,
                key: &key,
                meta: &meta,
            };
            let answer = port.call(caller.alloc, caller.pid, &track);
            tracked(caller.alloc, join_ref, message, answer)
        }
        Asked::Nothing => bad_payload(caller.alloc, join_ref, message),
        Asked::Bad => bad_payload(caller.alloc, join_ref, message),
    }
}

pub(crate) fn track<P: Port>(
    caller: Caller,
    join_ref: &Option<MsgRef>,
    port: &mut P,
    message: &Message,
) -> Result<Reply, Stop>
    ensures { Runs (P.step caller.pid) (λ s. on_track s join_ref.now message.now (asked_of message.now.payload))
        port.old port.new result }
{
    let asked = read_asked(caller.alloc, message.payload.as_value())?;
    track_asked(caller, join_ref, port, message, asked)
}

fn update_asked<P: Port>(
    caller: Caller,
    join_ref: &Option<MsgRef>,
    port: &mut P,
    message: &Message,
    asked: Asked,
) -> Result<Reply, Stop>
    ensures { Runs (P.step caller.pid) (λ s. on_update s join_ref.now message.now asked) port.old port.new result }
{
    match asked {
        Asked::Wants(key, meta) => {
            let update = Update {
                topic: &message.topic,
                key: &key,
                meta: &meta,
            };
            let answer = port.call(caller.alloc, caller.pid, &update);
            updated(caller.alloc, join_ref, message, answer)
        }
        Asked::Nothing => bad_payload(caller.alloc, join_ref, message),
        Asked::Bad => bad_payload(caller.alloc, join_ref, message),
    }
}

pub(crate) fn update<P: Port>(
    caller: Caller,
    join_ref: &Option<MsgRef>,
    port: &mut P,
    message: &Message,
) -> Result<Reply, Stop>
    ensures { Runs (P.step caller.pid) (λ s. on_update s join_ref.now message.now (asked_of message.now.payload))
        port.old port.new result }
{
    let asked = read_asked(caller.alloc, message.payload.as_value())?;
    update_asked(caller, join_ref, port, message, asked)
}

// The reply that a message went well and tells nothing.
fn empty_reply(
    alloc: Global,
    join_ref: &Option<MsgRef>,
    message: &Message,
) -> Result<Written, AllocError>
    ensures { IfOk result (λ w. w.message ≡ ok_message join_ref.now message.now empty_of) }
{
    let response = empty_object(alloc);
    write_ok(alloc, join_ref, message, response)
}

// What the port's answer to an untrack leads to.
fn untracked(
    alloc: Global,
    join_ref: &Option<MsgRef>,
    message: &Message,
    answer: Result<Vec<Dot>, Refusal>,
) -> Result<Reply, Stop>
    ensures { RepliesWith (λ s. after_untrack s join_ref.now message.now (done_by answer)) (is_ok (done_by answer)) result }
{
    match answer {
        Ok(_) => match spoiling(empty_reply(alloc, join_ref, message)) {
            Ok(reply) => Ok(Reply::One(reply)),
            Err(stop) => Err(stop),
        },
        Err(refusal) => refused(
            alloc,
            join_ref,
            message,
            refusal,
            full_reason(true, refusal),
        ),
    }
}

fn untrack_asked<P: Port>(
    caller: Caller,
    join_ref: &Option<MsgRef>,
    port: &mut P,
    message: &Message,
    key: Option<Key>,
) -> Result<Reply, Stop>
    ensures { Runs (P.step caller.pid) (λ s. on_untrack s join_ref.now message.now key) port.old port.new result }
{
    match key {
        Some(key) => {
            let untrack = Untrack {
                topic: &message.topic,
                key: &key,
            };
            let answer = port.call(caller.alloc, caller.pid, &untrack);
            untracked(caller.alloc, join_ref, message, answer)
        }
        None => bad_payload(caller.alloc, join_ref, message),
    }
}

pub(crate) fn untrack<P: Port>(
    caller: Caller,
    join_ref: &Option<MsgRef>,
    port: &mut P,
    message: &Message,
) -> Result<Reply, Stop>
    ensures { Runs (P.step caller.pid) (λ s. on_untrack s join_ref.now message.now (key_asked message.now.payload))
        port.old port.new result }
{
    let key = read_key(caller.alloc, message.payload.as_value())?;
    untrack_asked(caller, join_ref, port, message, key)
}

// The reply that tells rows, with what the fetch adds.
fn fetched_rows<H: PresenceHooks>(
    alloc: Global,
    hooks: &H,
    incoming: Incoming<'_>,
    rows: &[(Dot, Row)],
) -> Result<Written, AllocError>
    ensures { IfOk result (λ w. worded_by H.PresenceHooks hooks.now
        (listed_under incoming.entry.join.now incoming.entry.message.now rows.now) w.message) }
{
    let Incoming { join, message } = incoming;
    let state = render_state(alloc, hooks, join.kind, &message.topic, rows)?;
    write_ok(alloc, &join.join_ref, message, Json::new(state))
}

// The reply that tells rows: their text alone, where nothing is added to them.
fn rows_reply<H: PresenceHooks>(
    alloc: Global,
    hooks: &H,
    incoming: Incoming<'_>,
    rows: SharedRows,
) -> Result<Reply, AllocError>
    ensures { IfOk result (λ r. ListsRows H.PresenceHooks hooks.now incoming.entry.join.now
        incoming.entry.message.now rows r) }
{
    if hooks.is_plain() {
        let reply = write_listed(alloc, &incoming.join.join_ref, incoming.message, rows)?;
        return Ok(Reply::Listed(reply));
    }
    let reply = fetched_rows(alloc, hooks, incoming, rows.as_slice())?;
    Ok(Reply::One(reply))
}

// What the port's answer to a list leads to.
fn told_rows<H: PresenceHooks>(
    alloc: Global,
    hooks: &H,
    incoming: Incoming<'_>,
    answer: Result<SharedRows, Refusal>,
) -> Result<Reply, Stop>
    ensures { TellsRows H.PresenceHooks hooks.now incoming.entry.join.now incoming.entry.message.now answer result }
{
    let Incoming { join, message } = incoming;
    match answer {
        Ok(rows) => spoiling(rows_reply(alloc, hooks, incoming, rows)),
        Err(refusal) => refused(
            alloc,
            &join.join_ref,
            message,
            refusal,
            full_reason(true, refusal),
        ),
    }
}

pub(crate) fn list<P: Port, H: PresenceHooks>(
    caller: Caller,
    hooks: &H,
    incoming: Incoming<'_>,
    port: &mut P,
) -> Result<Reply, Stop>
    ensures { RunsBy (worded_by H.PresenceHooks hooks.now) (P.step caller.pid)
        (list_under incoming.entry.join.now incoming.entry.message.now) port.old port.new result }
{
    let topic = &incoming.message.topic;
    let answer = port.call(caller.alloc, caller.pid, &List { topic });
    told_rows(caller.alloc, hooks, incoming, answer)
}

// The reply to a get.
fn got_reply<H: PresenceHooks>(
    alloc: Global,
    hooks: &H,
    incoming: Incoming<'_>,
    rows: Vec<(Dot, Row)>,
) -> Result<Reply, AllocError>
    ensures { IfOk result (λ r. ListsRows H.PresenceHooks hooks.now incoming.entry.join.now
        incoming.entry.message.now rows.items r) }
{
    let rows = SharedRows::new(alloc, rows)?;
    rows_reply(alloc, hooks, incoming, rows)
}

// What the port's answer to a get leads to.
fn told_got<H: PresenceHooks>(
    alloc: Global,
    hooks: &H,
    incoming: Incoming<'_>,
    answer: Result<Vec<(Dot, Row)>, Refusal>,
) -> Result<Reply, Stop>
    ensures { TellsRows H.PresenceHooks hooks.now incoming.entry.join.now incoming.entry.message.now
        (seen_by (λ v. v.items) answer) result }
{
    let Incoming { join, message } = incoming;
    match answer {
        Ok(rows) => spoiling(got_reply(alloc, hooks, incoming, rows)),
        Err(refusal) => refused(
            alloc,
            &join.join_ref,
            message,
            refusal,
            full_reason(true, refusal),
        ),
    }
}

fn get_asked<P: Port, H: PresenceHooks>(
    caller: Caller,
    hooks: &H,
    incoming: Incoming<'_>,
    port: &mut P,
    key: Option<Key>,
) -> Result<Reply, Stop>
    ensures { RunsBy (worded_by H.PresenceHooks hooks.now) (P.step caller.pid)
        (get_under incoming.entry.join.now incoming.entry.message.now key) port.old port.new result }
{
    match key {
        Some(key) => {
            let get = Get {
                topic: &incoming.message.topic,
                key: &key,
            };
            let answer = port.call(caller.alloc, caller.pid, &get);
            told_got(caller.alloc, hooks, incoming, answer)
        }
        None => bad_payload(caller.alloc, &incoming.join.join_ref, incoming.message),
    }
}

pub(crate) fn get<P: Port, H: PresenceHooks>(
    caller: Caller,
    hooks: &H,
    incoming: Incoming<'_>,
    port: &mut P,
) -> Result<Reply, Stop>
    ensures { RunsBy (worded_by H.PresenceHooks hooks.now) (P.step caller.pid)
        (gets_under incoming.entry.join.now incoming.entry.message.now) port.old port.new result }
{
    let key = read_key(caller.alloc, incoming.message.payload.as_value())?;
    get_asked(caller, hooks, incoming, port, key)
}
