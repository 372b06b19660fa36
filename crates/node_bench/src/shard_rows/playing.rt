// One call, made and told.
use super::calls::{Call, make};
use super::texts::{tell, tell_from};
use std::alloc::Global;
use std::io;
use tracker_shard::{Shard, ShardFault};

fn want_of_memory() -> io::Error {
    io::Error::from(io::ErrorKind::OutOfMemory)
}

// What the shard is. It is asked once more where memory was refused.
fn told(alloc: Global, shard: &Shard) -> io::Result<String> {
    match tell(alloc, shard) {
        Ok(text) => Ok(text),
        Err(_) => tell(alloc, shard).map_err(|_| want_of_memory()),
    }
}

// Tells that a call was refused memory, and whether the shard is as it was before.
fn tell_refusal<R: Print + AllocGlobal>(rt: &R, shard: &Shard, before: &str) -> io::Result<()> {
    let now = told(rt.alloc(), shard)?;
    if now.as_str() == before {
        rt.println("  refused, as before")
    } else {
        println!(rt; "  refused, changed: {now}")
    }
}

/// Tells what a node is told that knows the own dots up to a count. It is asked once more where memory was refused.
pub fn play_told_from<R: Print + AllocGlobal>(
    rt: &R,
    shard: &mut Shard,
    count: u64,
) -> io::Result<()> {
    let alloc = rt.alloc();
    let before = told(alloc, shard)?;
    if let Ok(text) = tell_from(alloc, shard, count) {
        return println!(rt; "  told from {count}: {text}");
    }
    tell_refusal(rt, shard, before.as_str())?;
    match tell_from(alloc, shard, count) {
        Ok(text) => println!(rt; "  told from {count}: {text}"),
        Err(_) => Err(want_of_memory()),
    }
}

/// Makes the call, once more where it was refused memory, and tells what the shard then is.
pub fn play<R: Print + AllocGlobal>(
    rt: &R,
    shard: &mut Shard,
    what: &str,
    call: &Call,
) -> io::Result<()> {
    let alloc = rt.alloc();
    let before = told(alloc, shard)?;
    let mut answer = make(shard, alloc, call);
    if answer == Err(ShardFault::OutOfMemory) {
        tell_refusal(rt, shard, before.as_str())?;
        answer = make(shard, alloc, call);
    }
    let now = told(alloc, shard)?;
    match answer {
        Ok(()) => println!(rt; "  {what}: {now}"),
        Err(ShardFault::OutOfMemory) => Err(want_of_memory()),
        Err(fault) => println!(rt; "  {what}: {fault}; {now}"),
    }
}
