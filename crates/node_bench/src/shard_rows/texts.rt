// What a shard is, as text.
use super::calls::subscriber;
use super::making::other_replica;
use crate::making::{ROOM, topic};
use crate::texts::{push_dot, push_dots, push_rows, push_told};
use orswot_core::Form;
use presence_journal::Outcome;
use presence_journal_walks::walk_list;
use std::alloc::{AllocError, Global};
use tracker_shard::Shard;

// What an entry came to. Dots are written by their references.
fn push_outcome(text: &mut String, outcome: &Outcome) -> Result<(), AllocError> {
    match outcome {
        Outcome::Added(dot) => push_dot(text, dot.get()),
        Outcome::Replaced(dot, old) => {
            push_dot(text, dot.get())?;
            push_dot(text, old.get())
        }
        Outcome::Removed(dots) => push_dots(text, dots.as_slice()),
        other => write!(text, " {other:?}"),
    }
}

// The number of the last entry, and what it came to.
fn push_last(text: &mut String, shard: &Shard) -> Result<(), AllocError> {
    let number = shard.journal().last_number();
    write!(text, "{number}")?;
    match shard.journal().entries().last() {
        Some(entry) => push_outcome(text, &entry.outcome),
        None => Ok(()),
    }
}

fn push_full(alloc: Global, text: &mut String, shard: &Shard) -> Result<(), AllocError> {
    let full = shard.full(alloc, Form::One)?;
    push_told(text, &full)
}

fn push_room(
    alloc: Global,
    text: &mut String,
    shard: &Shard,
    room: &str,
) -> Result<(), AllocError> {
    let topic = topic(alloc, room)?;
    let rows = walk_list(alloc, shard.journal(), &topic)?;
    push_rows(text, &rows)
}

// The rows of both topics, with a bar between.
fn push_shown(alloc: Global, text: &mut String, shard: &Shard) -> Result<(), AllocError> {
    text.push_str(", shown {")?;
    push_room(alloc, text, shard, ROOM)?;
    text.push_str(" |")?;
    push_room(alloc, text, shard, "room:b")?;
    text.push_str(" }")
}

// What it says of the other node.
fn push_other(alloc: Global, text: &mut String, shard: &Shard) -> Result<(), AllocError> {
    let other = other_replica(alloc)?;
    let status = shard.status(&other);
    let top = shard.top(&other);
    write!(text, "; b.1 {status:?}, top {top}, ")
}

// Which subscribers are behind or have something waiting.
fn push_waits(text: &mut String, shard: &Shard) -> Result<(), AllocError> {
    text.push_str(", waiting {")?;
    for number in 1..5 {
        if shard.waits(&subscriber(number)) == Ok(true) {
            write!(text, " {number}")?;
        }
    }
    text.push_str(" }")
}

/// What the shard tells from a count on.
pub fn tell_from(alloc: Global, shard: &mut Shard, count: u64) -> Result<String, AllocError> {
    let told = shard.told_from(alloc, count, Form::One)?;
    let mut text = String::new(alloc);
    push_told(&mut text, &told)?;
    Ok(text)
}

/// What the shard's public calls and its journal say of it.
pub fn tell(alloc: Global, shard: &Shard) -> Result<String, AllocError> {
    let mut text = String::new(alloc);
    push_last(&mut text, shard)?;
    push_other(alloc, &mut text, shard)?;
    push_full(alloc, &mut text, shard)?;
    push_shown(alloc, &mut text, shard)?;
    push_waits(&mut text, shard)?;
    Ok(text)
}
