// The calls of a shard, made.
use super::making::{ToldOf, other_replica, told};
use crate::making::{ROOM, key, meta, topic};
use std::alloc::Global;
use tracker_shard::{Shard, ShardFault, Sub};

/// A call, with what it is given: a topic, a subscriber's number, a key, a time, or what is told.
#[derive(Clone, Copy)]
pub enum Call {
    Subscribe(&'static str),
    Take(u64),
    Track(&'static str),
    Update(&'static str),
    Untrack(&'static str),
    Heard(u64),
    Tick(u64),
    PermDown,
    Merge(ToldOf),
    Cut,
    Checkpoint,
}

/// The subscriber that the entry of this number makes.
pub fn subscriber(number: u64) -> Sub {
    Sub { slot: 0, number }
}

fn subscribe(shard: &mut Shard, alloc: Global, room: &str) -> Result<(), ShardFault> {
    let topic = topic(alloc, room)?;
    shard.subscribe(alloc, None, &topic)?;
    Ok(())
}

fn take(shard: &mut Shard, alloc: Global, number: u64) -> Result<(), ShardFault> {
    shard.take(alloc, None, &subscriber(number), 256)?;
    Ok(())
}

fn track(shard: &mut Shard, alloc: Global, name: &str) -> Result<(), ShardFault> {
    let topic = topic(alloc, ROOM)?;
    let key = key(alloc, name)?;
    let meta = meta(alloc)?;
    shard.track(alloc, None, 1, &topic, &key, &meta)?;
    Ok(())
}

fn update(shard: &mut Shard, alloc: Global, name: &str) -> Result<(), ShardFault> {
    let topic = topic(alloc, ROOM)?;
    let key = key(alloc, name)?;
    let meta = meta(alloc)?;
    shard.update(alloc, None, 1, &topic, &key, &meta)?;
    Ok(())
}

fn untrack(shard: &mut Shard, alloc: Global, name: &str) -> Result<(), ShardFault> {
    let topic = topic(alloc, ROOM)?;
    let key = key(alloc, name)?;
    shard.untrack(alloc, None, 1, &topic, &key)?;
    Ok(())
}

fn merge(shard: &mut Shard, alloc: Global, tells: &ToldOf) -> Result<(), ShardFault> {
    let told = told(alloc, tells)?;
    shard.merge(alloc, &told)
}

fn cut(shard: &mut Shard, alloc: Global) -> Result<(), ShardFault> {
    shard.cut(alloc)?;
    Ok(())
}

/// Makes the call.
pub fn make(shard: &mut Shard, alloc: Global, call: &Call) -> Result<(), ShardFault> {
    match call {
        Call::Subscribe(room) => subscribe(shard, alloc, room),
        Call::Take(number) => take(shard, alloc, *number),
        Call::Track(name) => track(shard, alloc, name),
        Call::Update(name) => update(shard, alloc, name),
        Call::Untrack(name) => untrack(shard, alloc, name),
        Call::Heard(now) => shard.heard(alloc, other_replica(alloc)?, *now),
        Call::Tick(now) => shard.tick(alloc, *now),
        Call::PermDown => shard.permdown(alloc, other_replica(alloc)?),
        Call::Merge(tells) => merge(shard, alloc, tells),
        Call::Cut => cut(shard, alloc),
        Call::Checkpoint => shard.checkpoint(alloc),
    }
}
