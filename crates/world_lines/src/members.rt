// The members of a line.
use crate::fault::LineFault;
use link_lines::replica_of;
use presence_base::{Key, Meta, NodeName, Replica, Topic};
use serde_json::Value;
use std::alloc::Global;

/// That there are so many members, the first one included.
pub(crate) fn are_so_many(members: &[Value], count: usize) -> Result<(), LineFault> {
    if members.len() == count {
        Ok(())
    } else {
        Err(LineFault::Unknown)
    }
}

/// A member that is a text.
pub(crate) fn text_at(members: &[Value], place: usize) -> Result<&str, LineFault> {
    match members.get(place) {
        Some(Value::String(text)) => Ok(text.as_str()),
        _ => Err(LineFault::Unknown),
    }
}

/// A whole number of 64 bits.
pub(crate) fn number_at(members: &[Value], place: usize) -> Result<u64, LineFault> {
    let Some(value) = members.get(place) else {
        return Err(LineFault::Unknown);
    };
    value.as_u64().ok_or(LineFault::Unknown)
}

/// A position, from 0.
pub(crate) fn position_at(members: &[Value], place: usize) -> Result<usize, LineFault> {
    let number = number_at(members, place)?;
    Ok(number as usize)
}

/// A number, or null.
pub(crate) fn number_or_null_at(members: &[Value], place: usize) -> Result<Option<u64>, LineFault> {
    match members.get(place) {
        Some(Value::Null) => Ok(None),
        _ => {
            let number = number_at(members, place)?;
            Ok(Some(number))
        }
    }
}

/// A replica: an array of its name and its incarnation.
pub(crate) fn replica_at(
    alloc: Global,
    members: &[Value],
    place: usize,
) -> Result<Replica, LineFault> {
    let Some(Value::Array(pair)) = members.get(place) else {
        return Err(LineFault::Unknown);
    };
    if pair.len() != 2 {
        return Err(LineFault::Unknown);
    }
    replica_of(alloc, &pair[0], &pair[1]).ok_or(LineFault::Unknown)
}

pub(crate) fn topic_at(alloc: Global, members: &[Value], place: usize) -> Result<Topic, LineFault> {
    let text = text_at(members, place)?;
    Topic::new(alloc, text)?.ok_or(LineFault::Unknown)
}

pub(crate) fn key_at(alloc: Global, members: &[Value], place: usize) -> Result<Key, LineFault> {
    let text = text_at(members, place)?;
    Key::new(alloc, text)?.ok_or(LineFault::Unknown)
}

pub(crate) fn meta_of(alloc: Global, value: Value) -> Result<Meta, LineFault> {
    Meta::new(alloc, value)?.ok_or(LineFault::Unknown)
}

fn name_of(alloc: Global, value: &Value) -> Result<NodeName, LineFault> {
    let Value::String(text) = value else {
        return Err(LineFault::Unknown);
    };
    NodeName::new(alloc, text.as_str())?.ok_or(LineFault::Unknown)
}

fn names_of(alloc: Global, values: &[Value]) -> Result<Vec<NodeName>, LineFault> {
    let mut names = Vec::new(alloc);
    for value in values {
        let name = name_of(alloc, value)?;
        if names.push(name).is_err() {
            return Err(LineFault::OutOfMemory);
        }
    }
    Ok(names)
}

/// An array of names.
pub(crate) fn names_at(
    alloc: Global,
    members: &[Value],
    place: usize,
) -> Result<Vec<NodeName>, LineFault> {
    match members.get(place) {
        Some(Value::Array(values)) => names_of(alloc, values.as_slice()),
        _ => Err(LineFault::Unknown),
    }
}
