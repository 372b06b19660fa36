// The room whose calls are timed.
use crate::making::{ROOM, meta, numbered, replica, topic};
use presence_base::{Meta, Replica, Topic};
use std::alloc::Global;
use tracker_shard::{Shard, ShardFault, Sub};

/// The session that tracks.
pub const PID: u64 = 2;

/// How many rows and subscribers the room has, and how many entries more the journal.
#[derive(Clone, Copy)]
pub struct Size {
    pub rows: u32,
    pub subscribers: u32,
    pub entries: u32,
}

/// A shard with a room, one of its subscribers, and another node.
pub struct Room {
    pub shard: Shard,
    pub topic: Topic,
    pub meta: Meta,
    pub other: Replica,
    pub sub: Sub,
}

// Written, since each function that drops a value whose type derives it proves anew how its parts are dropped.
impl Drop for Room {
    fn drop(self) {
        let Room {
            shard,
            topic,
            meta,
            other: _,
            sub: _,
        } = self;
        drop(shard);
        drop(topic);
        drop(meta);
    }
}

// A shard whose room has one subscriber.
fn new_room(alloc: Global) -> Result<Room, ShardFault> {
    let own = replica(alloc, "a")?;
    let other = replica(alloc, "b")?;
    let topic = topic(alloc, ROOM)?;
    let meta = meta(alloc)?;
    let mut shard = Shard::new(alloc, own);
    let sub = shard.subscribe(alloc, None, &topic)?;
    Ok(Room {
        shard,
        topic,
        meta,
        other,
        sub,
    })
}

/// Tracks a key of this word and number.
pub fn track(alloc: Global, room: &mut Room, word: &str, n: u64) -> Result<(), ShardFault> {
    let key = numbered(alloc, word, n)?;
    room.shard
        .track(alloc, None, PID, &room.topic, &key, &room.meta)?;
    Ok(())
}

/// Updates a row with which the room was filled, whose count an earlier cut has told.
pub fn update_told(alloc: Global, room: &mut Room, n: u64) -> Result<(), ShardFault> {
    let key = numbered(alloc, "u", n)?;
    room.shard
        .update(alloc, None, PID, &room.topic, &key, &room.meta)?;
    Ok(())
}

/// Takes what waits for the room's own subscriber.
pub fn take(alloc: Global, room: &mut Room) -> Result<(), ShardFault> {
    room.shard.take(alloc, None, &room.sub, 256)?;
    Ok(())
}

fn fill_rows(alloc: Global, room: &mut Room, rows: u32) -> Result<(), ShardFault> {
    for n in 0..rows {
        track(alloc, room, "u", u64::from(n))?;
    }
    Ok(())
}

fn fill_subscribers(alloc: Global, room: &mut Room, subscribers: u32) -> Result<(), ShardFault> {
    for _ in 1..subscribers {
        room.shard.subscribe(alloc, None, &room.topic)?;
    }
    Ok(())
}

// Lists an empty topic, which makes the journal longer.
fn fill_entries(alloc: Global, room: &mut Room, entries: u32) -> Result<(), ShardFault> {
    let empty = topic(alloc, "room:b")?;
    for _ in 0..entries {
        room.shard.list(alloc, None, &empty)?;
    }
    Ok(())
}

// Fills the room to this size; the own subscriber takes all, and a cut tells all.
fn fill(alloc: Global, room: &mut Room, size: &Size) -> Result<(), ShardFault> {
    fill_rows(alloc, room, size.rows)?;
    fill_subscribers(alloc, room, size.subscribers)?;
    fill_entries(alloc, room, size.entries)?;
    take(alloc, room)?;
    room.shard.heard(alloc, room.other, 0)?;
    room.shard.cut(alloc)?;
    Ok(())
}

/// A room of this size, of which the own subscriber has taken all, and the last cut told all.
pub fn filled(alloc: Global, size: &Size) -> Result<Room, ShardFault> {
    let mut room = new_room(alloc)?;
    fill(alloc, &mut room, size)?;
    Ok(room)
}
