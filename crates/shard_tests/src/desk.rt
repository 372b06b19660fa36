//! A shard at its desk: what it is asked, and its answers as text.
ghost use Rattle.std.specs.Prelude.{◌≡◌, IfOk};

use crate::merge_desk::{Telling, replica, told};
use orswot_core::{Form, Told};
use presence_base::{
    Dot, Json, Key, Meta, Replica, Row, Topic, has_float, is_within_depth, ref_text,
};
use presence_journal::{Item, MAX_PAYLOAD_DEPTH};
use presence_journal_known::{walk_status, walk_top};
use serde_json::Value;
use std::alloc::{AllocError, Global};
use tracker_shard::{Shard, ShardFault, Sub};

pub(crate) const ROOM: &str = "room:lobby";

// A call of a shard in a test. A pid stands first, then a key; the topic is the lobby where none is named.
#[derive(Clone, Copy)]
pub(crate) enum Ask {
    Track(u32, &'static str),
    // So many tracks of keys of their own, of which the last is answered.
    Tracks(u32),
    Update(u32, &'static str),
    // So many updates, of which the last is answered.
    Updates(u32, &'static str, u32),
    Untrack(u32, &'static str),
    UntrackAll(u32),
    List,
    Get(&'static str),
    Subscribe(&'static str),
    // A letter for each item.
    Take(u64),
    // The items with their rows.
    TakeRows(u64),
    Unsubscribe(u64),
    Shout(&'static str),
    // So many shouts in the lobby, of which the last is answered.
    Shouts(u32),
    Waits(u64, u64),
    Cut,
    // What is told of the own dots from a count on.
    ToldFrom(u64),
    // The same: its ranges, and how many rows it has.
    ToldSize(u64),
    Checkpoint,
    CheckpointKeepingCurrent,
    Merge(Telling),
    Heard(&'static str, u64),
    Tick(u64),
    PermDown(&'static str),
    Status(&'static str),
    // The same as the journal is walked.
    WalkedStatus(&'static str),
    Top(&'static str),
    // The same as the journal is walked.
    WalkedTop(&'static str),
    // The own replica goes on under this incarnation.
    Rebirth(u64),
    Incarnation,
    // The own replica of this incarnation was heard from elsewhere, or its status is asked for.
    HeardAs(u64),
    StatusAs(u64),
    // How many rows of all nodes there are, shown or not.
    LiveCount,
    LastNumber,
}

fn topic(alloc: Global, text: &str) -> Result<Topic, AllocError> {
    Topic::new(alloc, text)?.ok_or(AllocError)
}

fn key(alloc: Global, text: &str) -> Result<Key, AllocError> {
    Key::new(alloc, text)?.ok_or(AllocError)
}

fn meta(alloc: Global, text: &str) -> Result<Meta, AllocError> {
    match Value::from_str(alloc, text) {
        Ok(value) => Meta::new(alloc, value)?.ok_or(AllocError),
        Err(_) => Err(AllocError),
    }
}

// The shard of a node.
pub(crate) fn shard_of(alloc: Global, name: &str) -> Result<Shard, AllocError> {
    let own = replica(alloc, name)?;
    Ok(Shard::new(alloc, own))
}

// The dot's reference, or the refusal's name.
fn dot_text(alloc: Global, answer: Result<Dot, ShardFault>) -> Result<String, AllocError> {
    match answer {
        Ok(dot) => ref_text(alloc, &dot),
        Err(fault) => format!(in alloc; "{fault:?}"),
    }
}

// The references, each with a space after it, or the refusal's name.
fn dots_text(alloc: Global, answer: Result<Vec<Dot>, ShardFault>) -> Result<String, AllocError> {
    match answer {
        Ok(dots) => references(alloc, &dots),
        Err(fault) => format!(in alloc; "{fault:?}"),
    }
}

pub(crate) fn references(alloc: Global, dots: &[Dot]) -> Result<String, AllocError> {
    let mut text = String::new(alloc);
    for dot in dots {
        let reference = ref_text(alloc, dot)?;
        text.push_str(reference.as_str())?;
        text.push(' ')?;
    }
    Ok(text)
}

fn rows_text(
    alloc: Global,
    answer: Result<Vec<(Dot, Row)>, ShardFault>,
) -> Result<String, AllocError> {
    match answer {
        Ok(rows) => row_references(alloc, &rows),
        Err(fault) => format!(in alloc; "{fault:?}"),
    }
}

pub(crate) fn row_references(alloc: Global, rows: &[(Dot, Row)]) -> Result<String, AllocError> {
    let mut text = String::new(alloc);
    for row in rows {
        let reference = ref_text(alloc, &row.0)?;
        text.push_str(reference.as_str())?;
        text.push(' ')?;
    }
    Ok(text)
}

fn done(alloc: Global, answer: Result<(), ShardFault>) -> Result<String, AllocError> {
    format!(in alloc; "{answer:?}")
}

// The calls, with what they answer as text.

fn track(alloc: Global, shard: &mut Shard, pid: u32, name: &str) -> Result<String, AllocError> {
    let topic = topic(alloc, ROOM)?;
    let key = key(alloc, name)?;
    let meta = meta(alloc, "{\"x\":1}")?;
    let answer = shard.track(alloc, None, u64::from(pid), &topic, &key, &meta);
    dot_text(alloc, answer)
}

// A track of a key that no track had before.
fn track_next(alloc: Global, shard: &mut Shard) -> Result<String, AllocError> {
    let number = shard.journal().last_number();
    let name = format!(in alloc; "k{number}")?;
    track(alloc, shard, 5, name.as_str())
}

fn tracks(alloc: Global, shard: &mut Shard, count: u32) -> Result<String, AllocError> {
    for _ in 1..count {
        track_next(alloc, shard)?;
    }
    track_next(alloc, shard)
}

fn update(alloc: Global, shard: &mut Shard, pid: u32, name: &str) -> Result<String, AllocError> {
    let topic = topic(alloc, ROOM)?;
    let key = key(alloc, name)?;
    let meta = meta(alloc, "{\"x\":1}")?;
    let answer = shard.update(alloc, None, u64::from(pid), &topic, &key, &meta);
    dot_text(alloc, answer)
}

fn updates(
    alloc: Global,
    shard: &mut Shard,
    pid: u32,
    name: &str,
    count: u32,
) -> Result<String, AllocError> {
    for _ in 1..count {
        update(alloc, shard, pid, name)?;
    }
    update(alloc, shard, pid, name)
}

fn untrack(alloc: Global, shard: &mut Shard, pid: u32, name: &str) -> Result<String, AllocError> {
    let topic = topic(alloc, ROOM)?;
    let key = key(alloc, name)?;
    let answer = shard.untrack(alloc, None, u64::from(pid), &topic, &key);
    dots_text(alloc, answer)
}

fn untrack_all(alloc: Global, shard: &mut Shard, pid: u32) -> Result<String, AllocError> {
    let topic = topic(alloc, ROOM)?;
    let answer = shard.untrack_all(alloc, None, u64::from(pid), &topic);
    dots_text(alloc, answer)
}

fn list(alloc: Global, shard: &mut Shard) -> Result<String, AllocError> {
    let topic = topic(alloc, ROOM)?;
    match shard.list(alloc, None, &topic) {
        Ok(rows) => row_references(alloc, rows.as_slice()),
        Err(fault) => format!(in alloc; "{fault:?}"),
    }
}

fn get(alloc: Global, shard: &mut Shard, name: &str) -> Result<String, AllocError> {
    let topic = topic(alloc, ROOM)?;
    let key = key(alloc, name)?;
    let answer = shard.get(alloc, None, &topic, &key);
    rows_text(alloc, answer)
}

fn subscribe(alloc: Global, shard: &mut Shard, room: &str) -> Result<String, AllocError> {
    let topic = topic(alloc, room)?;
    let answer = shard.subscribe(alloc, None, &topic);
    format!(in alloc; "{answer:?}")
}

// What is taken, or the refusal's name: letters, or rows.
fn take(
    alloc: Global,
    shard: &mut Shard,
    number: u64,
    with_rows: bool,
) -> Result<String, AllocError> {
    let sub = Sub { slot: 0, number };
    match shard.take(alloc, None, &sub, 256) {
        Ok(items) if with_rows => items_text(alloc, &items),
        Ok(items) => item_letters(alloc, &items),
        Err(fault) => format!(in alloc; "{fault:?}"),
    }
}

fn item_letters(alloc: Global, items: &[Item]) -> Result<String, AllocError> {
    let mut text = String::new(alloc);
    for item in items {
        text.push(letter(item))?;
    }
    Ok(text)
}

// A state that has its text is a `T`.
fn letter(item: &Item) -> char {
    match item {
        Item::State(rows) if rows.text().is_some() => 'T',
        Item::State(_) => 'S',
        Item::Diff(_) => 'D',
        Item::Shout(_) => 'H',
    }
}

pub(crate) fn items_text(alloc: Global, items: &[Item]) -> Result<String, AllocError> {
    let mut text = String::new(alloc);
    for item in items {
        let item = item_text(alloc, item)?;
        text.push_str(item.as_str())?;
    }
    Ok(text)
}

// An item: `state`, or what joins and what leaves.
fn item_text(alloc: Global, item: &Item) -> Result<String, AllocError> {
    match item {
        Item::State(rows) => {
            let rows = row_references(alloc, rows.as_slice())?;
            format!(in alloc; "state {rows}")
        }
        Item::Diff(shared) => {
            let diff = shared.diff();
            changes_text(alloc, diff.joins.as_slice(), diff.leaves.as_slice())
        }
        Item::Shout(_) => String::from_str(alloc, "shout "),
    }
}

fn changes_text(
    alloc: Global,
    joins: &[(Dot, Row)],
    leaves: &[(Dot, Row)],
) -> Result<String, AllocError> {
    let joins = row_references(alloc, joins)?;
    let leaves = row_references(alloc, leaves)?;
    format!(in alloc; "+ {joins}- {leaves}")
}

fn payload(alloc: Global) -> Result<Json, AllocError> {
    match Value::from_str(alloc, "{\"b\":2}") {
        Ok(value) => Ok(Json::new(value)),
        Err(_) => Err(AllocError),
    }
}

fn shout(alloc: Global, shard: &mut Shard, room: &str) -> Result<String, AllocError> {
    let topic = topic(alloc, room)?;
    let payload = payload(alloc)?;
    if !is_within_depth(payload.as_value(), MAX_PAYLOAD_DEPTH) || has_float(payload.as_value()) {
        return Err(AllocError);
    }
    let answer = shard.shout(alloc, None, &topic, &payload);
    done(alloc, answer)
}

fn shouts(alloc: Global, shard: &mut Shard, count: u32) -> Result<String, AllocError> {
    for _ in 1..count {
        shout(alloc, shard, ROOM)?;
    }
    shout(alloc, shard, ROOM)
}

// The range, the runs of older counts and the rows of a cut, or the refusal's name.
fn cut(alloc: Global, shard: &mut Shard) -> Result<String, AllocError> {
    let delta = match shard.cut(alloc) {
        Ok(delta) => delta,
        Err(fault) => return format!(in alloc; "{fault:?}"),
    };
    let mut text = format!(in alloc; "{}-{}:", delta.from(), delta.to())?;
    for run in delta.older() {
        let counts = format!(in alloc; " {}-{}", run.0, run.1)?;
        text.push_str(counts.as_str())?;
    }
    let rows = row_references(alloc, delta.live())?;
    format!(in alloc; "{text}: {rows}")
}

// Each new dot with its old one, or the refusal's name.
fn rebirth(alloc: Global, shard: &mut Shard, incarnation: u64) -> Result<String, AllocError> {
    let pairs = match shard.rebirth(alloc, incarnation) {
        Ok(pairs) => pairs,
        Err(fault) => return format!(in alloc; "{fault:?}"),
    };
    let mut text = String::new(alloc);
    for pair in pairs.as_slice() {
        let new = ref_text(alloc, &pair.0)?;
        let old = ref_text(alloc, &pair.1)?;
        let pair = format!(in alloc; "{new} from {old} ")?;
        text.push_str(pair.as_str())?;
    }
    Ok(text)
}

// The own node under an incarnation.
pub(crate) fn life(alloc: Global, incarnation: u64) -> Result<Replica, AllocError>
    ensures { IfOk result (λ r. r.incarnation ≡ incarnation) }
{
    let first = replica(alloc, "a")?;
    Ok(Replica {
        name: first.name,
        incarnation,
    })
}

fn ranges_text(alloc: Global, told: &Told) -> Result<String, AllocError> {
    let mut text = String::new(alloc);
    for range in told.ranges() {
        let range = format!(in alloc; "{}-{}:", range.1, range.2)?;
        text.push_str(range.as_str())?;
    }
    Ok(text)
}

fn told_size(alloc: Global, shard: &mut Shard, count: u64) -> Result<String, AllocError> {
    let told = shard.told_from(alloc, count, Form::One)?;
    let ranges = ranges_text(alloc, &told)?;
    format!(in alloc; "{ranges} {}", told.live().len())
}

// The ranges, the extras and the rows of what is told from a count on.
fn told_from(alloc: Global, shard: &mut Shard, count: u64) -> Result<String, AllocError> {
    let told = shard.told_from(alloc, count, Form::One)?;
    let text = ranges_text(alloc, &told)?;
    let extras = references(alloc, told.extras())?;
    let rows = row_references(alloc, told.live())?;
    format!(in alloc; "{text} {extras}: {rows}")
}

// Takes in what is told.
fn merge(alloc: Global, shard: &mut Shard, telling: &Telling) -> Result<String, AllocError> {
    let told = told(alloc, telling)?;
    let answer = shard.merge(alloc, &told);
    done(alloc, answer)
}

fn status(alloc: Global, shard: &Shard, name: &str, walked: bool) -> Result<String, AllocError> {
    let replica = replica(alloc, name)?;
    let status = if walked {
        walk_status(shard.journal(), &replica)
    } else {
        shard.status(&replica)
    };
    format!(in alloc; "{status:?}")
}

fn top(alloc: Global, shard: &Shard, name: &str, walked: bool) -> Result<String, AllocError> {
    let replica = replica(alloc, name)?;
    let top = if walked {
        walk_top(shard.journal(), &replica)
    } else {
        shard.top(&replica)
    };
    format!(in alloc; "{top}")
}

// A call that no session makes.
fn note(alloc: Global, shard: &mut Shard, ask: Ask) -> Result<String, AllocError> {
    match ask {
        Ask::Cut => cut(alloc, shard),
        Ask::ToldFrom(count) => told_from(alloc, shard, count),
        Ask::ToldSize(count) => told_size(alloc, shard, count),
        Ask::Checkpoint => done(alloc, shard.checkpoint(alloc)),
        Ask::CheckpointKeepingCurrent => done(alloc, shard.checkpoint_keeping_current(alloc)),
        Ask::Merge(telling) => merge(alloc, shard, &telling),
        Ask::Heard(name, now) => {
            let replica = replica(alloc, name)?;
            done(alloc, shard.heard(alloc, replica, now))
        }
        Ask::Tick(now) => done(alloc, shard.tick(alloc, now)),
        Ask::PermDown(name) => {
            let replica = replica(alloc, name)?;
            done(alloc, shard.permdown(alloc, replica))
        }
        Ask::Status(name) => status(alloc, shard, name, false),
        Ask::WalkedStatus(name) => status(alloc, shard, name, true),
        Ask::Top(name) => top(alloc, shard, name, false),
        Ask::WalkedTop(name) => top(alloc, shard, name, true),
        Ask::LiveCount => {
            let full = shard.full(alloc, Form::One)?;
            format!(in alloc; "{}", full.live().len())
        }
        Ask::Rebirth(incarnation) => rebirth(alloc, shard, incarnation),
        Ask::Incarnation => format!(in alloc; "{}", shard.incarnation()),
        Ask::HeardAs(incarnation) => {
            let replica = life(alloc, incarnation)?;
            done(alloc, shard.heard(alloc, replica, 0))
        }
        Ask::StatusAs(incarnation) => {
            let replica = life(alloc, incarnation)?;
            format!(in alloc; "{:?}", shard.status(&replica))
        }
        Ask::LastNumber => format!(in alloc; "{}", shard.journal().last_number()),
        _ => String::from_str(alloc, "no such call"),
    }
}

fn call(alloc: Global, shard: &mut Shard, ask: Ask) -> Result<String, AllocError> {
    match ask {
        Ask::Track(pid, name) => track(alloc, shard, pid, name),
        Ask::Tracks(count) => tracks(alloc, shard, count),
        Ask::Update(pid, name) => update(alloc, shard, pid, name),
        Ask::Updates(pid, name, count) => updates(alloc, shard, pid, name, count),
        Ask::Untrack(pid, name) => untrack(alloc, shard, pid, name),
        Ask::UntrackAll(pid) => untrack_all(alloc, shard, pid),
        Ask::List => list(alloc, shard),
        Ask::Get(name) => get(alloc, shard, name),
        Ask::Subscribe(room) => subscribe(alloc, shard, room),
        Ask::Take(number) => take(alloc, shard, number, false),
        Ask::TakeRows(number) => take(alloc, shard, number, true),
        Ask::Unsubscribe(number) => {
            done(
                alloc,
                shard.unsubscribe(alloc, None, &Sub { slot: 0, number }),
            )
        }
        Ask::Shout(room) => shout(alloc, shard, room),
        Ask::Shouts(count) => shouts(alloc, shard, count),
        Ask::Waits(slot, number) => {
            let answer = shard.waits(&Sub { slot, number });
            format!(in alloc; "{answer:?}")
        }
        other => note(alloc, shard, other),
    }
}

// What the calls answer in turn, each with a semicolon after it.
pub(crate) fn said(alloc: Global, shard: &mut Shard, asks: &[Ask]) -> Result<String, AllocError> {
    let mut text = String::new(alloc);
    for ask in asks {
        let answer = call(alloc, shard, *ask)?;
        text.push_str(answer.as_str())?;
        text.push(';')?;
    }
    Ok(text)
}

// Whether the calls of a new shard of `a` are answered so.
pub(crate) fn answers(alloc: Global, asks: &[Ask], want: &str) -> Result<bool, AllocError> {
    let mut shard = shard_of(alloc, "a")?;
    let said = said(alloc, &mut shard, asks)?;
    Ok(said.as_str() == want)
}

// The shard of `a` after these calls.
pub(crate) fn shard_after(alloc: Global, asks: &[Ask]) -> Result<Shard, AllocError> {
    let mut shard = shard_of(alloc, "a")?;
    said(alloc, &mut shard, asks)?;
    Ok(shard)
}
