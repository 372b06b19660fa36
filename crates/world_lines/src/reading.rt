// A line read from its text.
use crate::events::{client_of, event_of};
use crate::fault::LineFault;
use crate::line::Line;
use crate::members::{are_so_many, names_at, position_at, replica_at, text_at, topic_at};
use orswot_core::Form;
use serde_json::{Category, Value};
use std::alloc::Global;

fn members_of(alloc: Global, text: &str) -> Result<Vec<Value>, LineFault> {
    match Value::from_str(alloc, text) {
        Ok(Value::Array(members)) => Ok(members),
        Ok(_) => Err(LineFault::Unknown),
        Err(e) => match e.classify() {
            Category::Memory => Err(LineFault::OutOfMemory),
            _ => Err(LineFault::Unknown),
        },
    }
}

fn list_of(alloc: Global, members: &[Value]) -> Result<Line, LineFault> {
    are_so_many(members, 3)?;
    let node = position_at(members, 1)?;
    let topic = topic_at(alloc, members, 2)?;
    Ok(Line::List { node, topic })
}

fn caught_up_of(alloc: Global, members: &[Value]) -> Result<Line, LineFault> {
    are_so_many(members, 3)?;
    let node = position_at(members, 1)?;
    let replica = replica_at(alloc, members, 2)?;
    Ok(Line::CaughtUp { node, replica })
}

fn names_line(alloc: Global, members: &[Value]) -> Result<Line, LineFault> {
    are_so_many(members, 2)?;
    let names = names_at(alloc, members, 1)?;
    Ok(Line::Names(names))
}

fn told_line(members: &[Value]) -> Result<Line, LineFault> {
    are_so_many(members, 1)?;
    Ok(Line::Told)
}

fn form_line(members: &[Value]) -> Result<Line, LineFault> {
    are_so_many(members, 2)?;
    match position_at(members, 1)? {
        1 => Ok(Line::Form(Form::One)),
        2 => Ok(Line::Form(Form::Two)),
        _ => Err(LineFault::Unknown),
    }
}

// A line of any other kind than a client's.
fn other_line(alloc: Global, kind: &str, members: &[Value], form: Form) -> Result<Line, LineFault> {
    match kind {
        "names" => names_line(alloc, members),
        "list" => list_of(alloc, members),
        "told" => told_line(members),
        "form" => form_line(members),
        "caught_up" => caught_up_of(alloc, members),
        _ => {
            let event = event_of(alloc, kind, members, form)?;
            Ok(Line::Happens(event))
        }
    }
}

/// What a text says, where nodes tell in this form.
pub(crate) fn line_of(alloc: Global, text: &str, form: Form) -> Result<Line, LineFault> {
    let mut members = members_of(alloc, text)?;
    if text_at(members.as_slice(), 0)? == "client" {
        let event = client_of(alloc, &mut members)?;
        return Ok(Line::Happens(event));
    }
    let kind = text_at(members.as_slice(), 0)?;
    other_line(alloc, kind, members.as_slice(), form)
}
