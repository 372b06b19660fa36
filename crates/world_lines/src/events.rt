// The lines that are events.
use crate::fault::LineFault;
use crate::members::{
    are_so_many, key_at, meta_of, number_at, number_or_null_at, position_at, replica_at, text_at,
    topic_at,
};
use node_world::Event;
use orswot_core::Form;
use presence_base::Meta;
use presence_journal::Step;
use serde_json::Value;
use std::alloc::Global;

// The last member, which is a meta.
fn last_meta(alloc: Global, members: &mut Vec<Value>) -> Result<Meta, LineFault> {
    match members.pop() {
        Some(value) => meta_of(alloc, value),
        None => Err(LineFault::Unknown),
    }
}

fn track_of(alloc: Global, members: &mut Vec<Value>) -> Result<Step, LineFault> {
    are_so_many(members.as_slice(), 7)?;
    let meta = last_meta(alloc, members)?;
    let pid = number_at(members.as_slice(), 3)?;
    let topic = topic_at(alloc, members.as_slice(), 4)?;
    let key = key_at(alloc, members.as_slice(), 5)?;
    Ok(Step::Track {
        pid,
        topic,
        key,
        meta,
    })
}

fn update_of(alloc: Global, members: &mut Vec<Value>) -> Result<Step, LineFault> {
    are_so_many(members.as_slice(), 7)?;
    let meta = last_meta(alloc, members)?;
    let pid = number_at(members.as_slice(), 3)?;
    let topic = topic_at(alloc, members.as_slice(), 4)?;
    let key = key_at(alloc, members.as_slice(), 5)?;
    Ok(Step::Update {
        pid,
        topic,
        key,
        meta,
    })
}

fn untrack_of(alloc: Global, members: &[Value]) -> Result<Step, LineFault> {
    are_so_many(members, 6)?;
    let pid = number_at(members, 3)?;
    let topic = topic_at(alloc, members, 4)?;
    let key = key_at(alloc, members, 5)?;
    Ok(Step::Untrack { pid, topic, key })
}

fn untrack_all_of(alloc: Global, members: &[Value]) -> Result<Step, LineFault> {
    are_so_many(members, 5)?;
    let pid = number_at(members, 3)?;
    let topic = topic_at(alloc, members, 4)?;
    Ok(Step::UntrackAll { pid, topic })
}

// The step that the third member names.
fn step_of(alloc: Global, members: &mut Vec<Value>) -> Result<Step, LineFault> {
    match text_at(members.as_slice(), 2)? {
        "track" => track_of(alloc, members),
        "update" => update_of(alloc, members),
        "untrack" => untrack_of(alloc, members.as_slice()),
        "untrack_all" => untrack_all_of(alloc, members.as_slice()),
        _ => Err(LineFault::Unknown),
    }
}

/// A caller's step at a node.
pub(crate) fn client_of(alloc: Global, members: &mut Vec<Value>) -> Result<Event, LineFault> {
    let node = position_at(members.as_slice(), 1)?;
    let step = step_of(alloc, members)?;
    Ok(Event::Client { node, step })
}

fn cut_of(members: &[Value], form: Form) -> Result<Event, LineFault> {
    are_so_many(members, 2)?;
    let node = position_at(members, 1)?;
    Ok(Event::Cut { node, form })
}

fn full_of(members: &[Value], form: Form) -> Result<Event, LineFault> {
    are_so_many(members, 3)?;
    let node = position_at(members, 1)?;
    let from = number_or_null_at(members, 2)?;
    Ok(Event::Full { node, from, form })
}

// As far as fits a line, or up to a count, which is then the fourth member.
fn part_of(members: &[Value], form: Form) -> Result<Event, LineFault> {
    let node = position_at(members, 1)?;
    let from = number_at(members, 2)?;
    let mut to = None;
    if members.len() != 3 {
        are_so_many(members, 4)?;
        to = Some(number_at(members, 3)?);
    }
    Ok(Event::Part {
        node,
        from,
        to,
        form,
    })
}

fn deliver_of(members: &[Value]) -> Result<Event, LineFault> {
    are_so_many(members, 3)?;
    let node = position_at(members, 1)?;
    let told = position_at(members, 2)?;
    Ok(Event::Deliver { node, told })
}

fn deliver_others_of(members: &[Value]) -> Result<Event, LineFault> {
    are_so_many(members, 3)?;
    let node = position_at(members, 1)?;
    let told = position_at(members, 2)?;
    Ok(Event::DeliverOthers { node, told })
}

fn heard_of(alloc: Global, members: &[Value]) -> Result<Event, LineFault> {
    are_so_many(members, 4)?;
    let node = position_at(members, 1)?;
    let replica = replica_at(alloc, members, 2)?;
    let now = number_at(members, 3)?;
    Ok(Event::Heard { node, replica, now })
}

fn tick_of(members: &[Value]) -> Result<Event, LineFault> {
    are_so_many(members, 3)?;
    let node = position_at(members, 1)?;
    let now = number_at(members, 2)?;
    Ok(Event::Tick { node, now })
}

fn permdown_of(alloc: Global, members: &[Value]) -> Result<Event, LineFault> {
    are_so_many(members, 3)?;
    let node = position_at(members, 1)?;
    let replica = replica_at(alloc, members, 2)?;
    Ok(Event::PermDown { node, replica })
}

fn checkpoint_of(members: &[Value]) -> Result<Event, LineFault> {
    are_so_many(members, 2)?;
    let node = position_at(members, 1)?;
    Ok(Event::Checkpoint { node })
}

fn restart_of(members: &[Value]) -> Result<Event, LineFault> {
    are_so_many(members, 3)?;
    let node = position_at(members, 1)?;
    let incarnation = number_at(members, 2)?;
    Ok(Event::Restart { node, incarnation })
}

fn rebirth_of(members: &[Value]) -> Result<Event, LineFault> {
    are_so_many(members, 3)?;
    let node = position_at(members, 1)?;
    let incarnation = number_at(members, 2)?;
    Ok(Event::Rebirth { node, incarnation })
}

/// What happens to a node besides, by the first member. A node tells in this form.
pub(crate) fn event_of(
    alloc: Global,
    kind: &str,
    members: &[Value],
    form: Form,
) -> Result<Event, LineFault> {
    match kind {
        "cut" => cut_of(members, form),
        "full" => full_of(members, form),
        "part" => part_of(members, form),
        "deliver" => deliver_of(members),
        "deliver_others" => deliver_others_of(members),
        "heard" => heard_of(alloc, members),
        "tick" => tick_of(members),
        "permdown" => permdown_of(alloc, members),
        "checkpoint" => checkpoint_of(members),
        "restart" => restart_of(members),
        "rebirth" => rebirth_of(members),
        _ => Err(LineFault::Unknown),
    }
}
