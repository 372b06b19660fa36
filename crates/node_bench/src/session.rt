// Times a session in a room of so many keys of another session. A join comes behind so many entries more of the journal;
// the other cases make so many tracks or lists.
mod cases;

use crate::words::number_at;
use cases::{Room, fill, join, lists, new_room, rooms, tracks};
use hook_registry::Routes;
use std::io;
use std::time::{Clock, Duration, Instant};

fn broken() -> io::Error {
    io::Error::from(io::ErrorKind::InvalidData)
}

// A room of so many keys, in a journal with so many entries more, and the routes to it.
fn filled<R: AllocGlobal>(rt: &R, keys: u32, lists: u32) -> io::Result<(Room, Routes)> {
    let alloc = rt.alloc();
    let mut room = new_room(alloc)?;
    if fill(alloc, &mut room, keys, lists).is_err() {
        return Err(broken());
    }
    match rooms(alloc) {
        Ok(routes) => Ok((room, routes)),
        Err(_) => Err(broken()),
    }
}

// How long it takes to join the room, up to the text of its state.
fn time_join<R: Clock + AllocGlobal>(rt: &R, keys: u32, entries: u32) -> io::Result<Duration> {
    let (mut room, routes) = filled(rt, keys, entries)?;
    let start = Instant::now(rt)?;
    match join(rt.alloc(), &mut room, &routes) {
        Ok(_) => start.elapsed(rt),
        Err(_) => Err(broken()),
    }
}

// How long it takes to join the room and to track so many keys there.
fn time_tracks<R: Clock + AllocGlobal>(rt: &R, keys: u32, count: u32) -> io::Result<Duration> {
    let (mut room, routes) = filled(rt, keys, 0)?;
    let start = Instant::now(rt)?;
    match tracks(rt.alloc(), &mut room, &routes, count) {
        Ok(()) => start.elapsed(rt),
        Err(_) => Err(broken()),
    }
}

// How long it takes to join the room and to list it so many times.
fn time_lists<R: Clock + AllocGlobal>(rt: &R, keys: u32, count: u32) -> io::Result<Duration> {
    let (mut room, routes) = filled(rt, keys, 0)?;
    let start = Instant::now(rt)?;
    match lists(rt.alloc(), &mut room, &routes, count) {
        Ok(()) => start.elapsed(rt),
        Err(_) => Err(broken()),
    }
}

// How long the case takes.
fn time_case<R: Clock + AllocGlobal>(
    rt: &R,
    case: &str,
    keys: u32,
    count: u32,
) -> io::Result<Duration> {
    match case {
        "join" => time_join(rt, keys, count),
        "tracks" => time_tracks(rt, keys, count),
        _ => time_lists(rt, keys, count),
    }
}

/// Times the case that the words name and prints its microseconds, or answers whether they name none.
pub fn time<R: Clock + Print + AllocGlobal>(rt: &R, words: &[String]) -> io::Result<bool> {
    let (Some(case), Some(keys)) = (words.get(2), number_at(words, 3)) else {
        return Ok(false);
    };
    let Some(count) = number_at(words, 4) else {
        return Ok(false);
    };
    let took = time_case(rt, case.as_str(), keys, count)?;
    let micros = took.as_micros();
    println!(rt; "{micros}")?;
    Ok(true)
}
