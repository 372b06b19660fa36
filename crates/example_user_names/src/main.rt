//! An example: a server that tells each user's name beside the user's metas, and over the standard streams says on
//! standard error which rows came and went. It keeps three closures of its own, of which one captures a table, and takes
//! the words of the command line that `presence_node` takes.
#![tactic(auto)]

mod names;

use hook_registry::{Fetch, Hooks, Notice, Tell};
use names::UserNames;
use presence_base::{Dot, Key, Topic, ref_text};
use presence_node_main::{ServeRuntime, run_program_with};
use std::alloc::{AllocError, Global};
use std::env::Env;
use std::net::{TcpListener, TcpStream};
use std::process::ExitCode;

// The users of this example, by the keys that they are tracked under.
fn known_users(alloc: Global) -> Result<UserNames, AllocError> {
    let mut names = UserNames::new(alloc);
    names.add(alloc, "u1", "Ann")?;
    names.add(alloc, "u2", "Bob")?;
    Ok(names)
}

// A word and the reference of a row, as in `came a.1.2`.
fn note(alloc: Global, word: &str, dot: &Dot) -> Result<Notice, AllocError> {
    let reference = ref_text(alloc, dot)?;
    let text = format!(in alloc; "{word} {reference}")?;
    match Notice::new(alloc, text.as_str())? {
        Some(notice) => Ok(notice),
        None => Ok(Notice::empty(alloc)),
    }
}

// Runs the program with the closures of this example, and gives the status to end with.
fn run<R>(rt: &R) -> Result<u8, AllocError>
where
    R: ServeRuntime + Env + AllocGlobal,
{
    let alloc = rt.alloc();
    let names = known_users(alloc)?;
    let fetch: Fetch = Box::new(
        alloc,
        move |_: u32, _: &Topic, key: &Key| names.extra_of(alloc, key),
    )?;
    let on_join: Tell = Box::new(
        alloc,
        move |_: u32, _: &Topic, _: &Key, dot: &Dot| note(alloc, "came", dot),
    )?;
    let on_leave: Tell = Box::new(
        alloc,
        move |_: u32, _: &Topic, _: &Key, dot: &Dot| note(alloc, "went", dot),
    )?;
    let hooks = Hooks::new(fetch, on_join, on_leave);
    Ok(run_program_with(rt, &hooks))
}

fn main(rt: HostRuntime) -> ExitCode {
    // A server's sockets: the check finds them here, but not in the bounds of the trait `ServeRuntime`.
    let _sockets: Option<(TcpListener, TcpStream)> = None;
    match run(&rt) {
        Ok(status) => ExitCode::from(status),
        Err(_) => ExitCode::from(2),
    }
}
