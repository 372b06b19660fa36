// Times the sets: so many dots, runs or rows.
mod cases;

use crate::words::number_at;
use cases::{add_in_order, add_in_reverse, rows_told, set_of_rows};
use orswot_core::ToldFault;
use std::io::{self, ErrorKind};
use std::time::{Clock, Duration, Instant};

// How long it takes to add dots in order.
fn time_adds<R: Clock + AllocGlobal>(rt: &R, count: u64) -> io::Result<Duration> {
    let start = Instant::now(rt)?;
    let _context = add_in_order(rt.alloc(), count)?;
    start.elapsed(rt)
}

// How long it takes to add runs in falling order.
fn time_reverse<R: Clock + AllocGlobal>(rt: &R, count: u64) -> io::Result<Duration> {
    let start = Instant::now(rt)?;
    let _context = add_in_reverse(rt.alloc(), count, 0)?;
    start.elapsed(rt)
}

// How long it takes to join a context of runs with another, whose runs lie between them.
fn time_join<R: Clock + AllocGlobal>(rt: &R, count: u64) -> io::Result<Duration> {
    let alloc = rt.alloc();
    let mut context = add_in_reverse(alloc, count, 0)?;
    let other = add_in_reverse(alloc, count, 2)?;
    let start = Instant::now(rt)?;
    context.join(alloc, &other)?;
    start.elapsed(rt)
}

fn io_error(fault: ToldFault) -> io::Error {
    match fault {
        ToldFault::OutOfMemory => io::Error::from(ErrorKind::OutOfMemory),
        _ => io::Error::from(ErrorKind::InvalidData),
    }
}

// How long it takes to join a set of rows with a delta of 100 more.
fn time_delta<R: Clock + AllocGlobal>(rt: &R, count: u64) -> io::Result<Duration> {
    let alloc = rt.alloc();
    let mut set = set_of_rows(alloc, count).map_err(io_error)?;
    let told = rows_told(alloc, count, count.saturating_add(100)).map_err(io_error)?;
    let start = Instant::now(rt)?;
    set.join(alloc, &told)?;
    start.elapsed(rt)
}

// How long the case takes.
fn time_case<R: Clock + AllocGlobal>(rt: &R, case: &str, count: u64) -> io::Result<Duration> {
    match case {
        "adds" => time_adds(rt, count),
        "reverse" => time_reverse(rt, count),
        "join" => time_join(rt, count),
        _ => time_delta(rt, count),
    }
}

/// Times the case that the words name and prints its microseconds, or answers whether they name none.
pub fn time<R: Clock + Print + AllocGlobal>(rt: &R, words: &[String]) -> io::Result<bool> {
    let (Some(case), Some(count)) = (words.get(2), number_at(words, 3)) else {
        return Ok(false);
    };
    let took = time_case(rt, case.as_str(), u64::from(count))?;
    let micros = took.as_micros();
    println!(rt; "{micros}")?;
    Ok(true)
}
