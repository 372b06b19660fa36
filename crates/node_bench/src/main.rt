//! Times parts of a node, for `bench/run`, plays worked rows, for `tests/refusals`, and runs the world of nodes.
//!
//! `sets`, `session` and `shard` time a case and print microseconds, or of each of a shard's calls its nanoseconds.
//! `rows sets`, `rows shard` and `rows`, which plays both, print a line for each call of the rows.
//!
//! `world` reads events and questions as lines of JSON from standard input, which `world_lines` tells, and prints an answer
//! for each question. A line that is none of these ends it with status 1, and `line N` on standard error.
#![tactic(auto)]

mod making;
mod session;
mod set_rows;
mod sets;
mod shard;
mod shard_rows;
mod texts;
mod words;
mod world;

use std::env::Env;
use std::io::{self, ErrorKind};
use std::process::ExitCode;
use std::time::Clock;
use words::words_of;

const USAGE: &str = "usage: node_bench sets adds|reverse|join|delta COUNT, \
session join|tracks|lists KEYS COUNT, shard ROWS SUBSCRIBERS ENTRIES, rows [sets|shard], or world. \
Numbers are whole ones of 32 bits";

// Plays the rows that the words name, or answers whether they name none.
fn play<R: Print + AllocGlobal>(rt: &R, words: &[String]) -> io::Result<bool> {
    let of = match words.get(2) {
        Some(word) => word.as_str(),
        None => "",
    };
    if of != "" && of != "sets" && of != "shard" {
        return Ok(false);
    }
    if of != "shard" {
        set_rows::play_rows(rt)?;
    }
    if of != "sets" {
        shard_rows::play_rows(rt)?;
    }
    Ok(true)
}

// Does what the words of the command line ask for, and answers whether they ask for something.
fn run_words<R: Clock + Print + AllocGlobal>(rt: &R, words: &[String]) -> io::Result<bool> {
    let Some(what) = words.get(1) else {
        return Ok(false);
    };
    match what.as_str() {
        "sets" => sets::time(rt, words),
        "session" => session::time(rt, words),
        "shard" => shard::time(rt, words),
        "rows" => play(rt, words),
        _ => Ok(false),
    }
}

// Whether the words ask for the world of nodes.
fn asks_for_world(words: &[String]) -> bool {
    match words.get(1) {
        Some(word) => word.as_str() == "world" && words.len() == 2,
        None => false,
    }
}

// Gives the status to end with.
fn run<R: Clock + Env + Input + Print + Eprint + AllocGlobal>(rt: &R) -> io::Result<u8> {
    let words = words_of(rt)?;
    if asks_for_world(&words) {
        return world::play(rt);
    }
    if run_words(rt, &words)? {
        return Ok(0);
    }
    rt.eprintln(USAGE)?;
    Ok(1)
}

fn main(rt: HostRuntime) -> ExitCode {
    match run(&rt) {
        Ok(status) => ExitCode::from(status),
        Err(e) if e.kind() == ErrorKind::OutOfMemory => ExitCode::from(2),
        Err(_) => ExitCode::from(1),
    }
}
