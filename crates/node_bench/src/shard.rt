// Times a shard's calls, in a room of so many rows and subscribers behind a journal of so many entries more.
mod calls;
mod making;
mod room;

use crate::words::number_at;
use calls::{Call, calls, make, name_of, ready};
use room::{Room, Size, filled};
use std::io::{self, ErrorKind};
use std::time::{Clock, Instant};
use tracker_shard::ShardFault;

/// How often each call is made.
const TIMES: u64 = 101;

fn io_error(fault: ShardFault) -> io::Error {
    match fault {
        ShardFault::OutOfMemory => io::Error::from(ErrorKind::OutOfMemory),
        _ => io::Error::from(ErrorKind::InvalidData),
    }
}

// The sizes that the words ask for.
fn size_of(words: &[String]) -> Option<Size> {
    Some(Size {
        rows: number_at(words, 2)?,
        subscribers: number_at(words, 3)?,
        entries: number_at(words, 4)?,
    })
}

// How many nanoseconds the call takes, what it is given made before.
fn time_once<R: Clock + AllocGlobal>(
    rt: &R,
    room: &mut Room,
    call: Call,
    n: u64,
) -> io::Result<u128> {
    let alloc = rt.alloc();
    let given = ready(alloc, room, call, n).map_err(io_error)?;
    let start = Instant::now(rt)?;
    make(alloc, room, call, &given).map_err(io_error)?;
    let took = start.elapsed(rt)?;
    Ok(took.as_nanos())
}

// The median of the nanoseconds that the call takes.
fn time_call<R: Clock + AllocGlobal>(rt: &R, room: &mut Room, call: Call) -> io::Result<u128> {
    let mut times = Vec::new(rt.alloc());
    for n in 0..TIMES {
        times.push(time_once(rt, room, call, n)?)?;
    }
    times.sort()?;
    match times.get(times.len() / 2) {
        Some(median) => Ok(*median),
        None => Ok(0),
    }
}

// Times each call in the room, in turn.
fn time_calls<R: Clock + Print + AllocGlobal>(rt: &R, room: &mut Room) -> io::Result<()> {
    for call in calls() {
        let nanos = time_call(rt, room, call)?;
        let name = name_of(call);
        println!(rt; "{name} {nanos}")?;
    }
    Ok(())
}

/// Times each call in a room of the size that the words ask for, and prints a line a call with the median of its
/// nanoseconds, or answers whether they ask for none.
pub fn time<R: Clock + Print + AllocGlobal>(rt: &R, words: &[String]) -> io::Result<bool> {
    let Some(size) = size_of(words) else {
        return Ok(false);
    };
    let mut room = filled(rt.alloc(), &size).map_err(io_error)?;
    time_calls(rt, &mut room)?;
    Ok(true)
}
