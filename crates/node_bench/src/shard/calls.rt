// The calls that are timed.
use super::making::told;
use super::room::{PID, Room, take, track, update_told};
use crate::making::numbered;
use orswot_core::{Form, Told};
use presence_base::Key;
use std::alloc::Global;
use tracker_shard::{Shard, ShardFault, Sub};

#[derive(Clone, Copy)]
pub enum Call {
    Track,
    TrackAgain,
    Update,
    Untrack,
    Get,
    List,
    Take,
    State,
    Waits,
    Top,
    Status,
    Merge,
    Tick,
    Cut,
    CutOlder,
    Full,
    Checkpoint,
    Rebirth,
}

/// Each call once.
pub fn calls() -> [Call; 18] {
    [
        Call::Track,
        Call::TrackAgain,
        Call::Update,
        Call::Untrack,
        Call::Get,
        Call::List,
        Call::Take,
        Call::State,
        Call::Waits,
        Call::Top,
        Call::Status,
        Call::Merge,
        Call::Tick,
        Call::Cut,
        Call::CutOlder,
        Call::Full,
        Call::Checkpoint,
        Call::Rebirth,
    ]
}

/// The word for a call, which its keys begin with too.
pub fn name_of(call: Call) -> &'static str {
    match call {
        Call::Track => "track",
        Call::TrackAgain => "track_refused",
        Call::Update => "update",
        Call::Untrack => "untrack",
        Call::Get => "get",
        Call::List => "list",
        Call::Take => "take_diff",
        Call::State => "take_state",
        Call::Waits => "waits",
        Call::Top => "top",
        Call::Status => "status",
        Call::Merge => "merge_one_row",
        Call::Tick => "tick",
        Call::Cut => "cut_one_row",
        Call::CutOlder => "cut_one_updated_row",
        Call::Full => "full",
        Call::Checkpoint => "checkpoint",
        Call::Rebirth => "rebirth",
    }
}

/// What a call is given.
pub struct Arguments {
    key: Key,
    told: Told,
    sub: Sub,
    now: u64,
}

impl Drop for Arguments {
    fn drop(self) {
        let Arguments {
            key,
            told,
            sub: _,
            now: _,
        } = self;
        drop(key);
        drop(told);
    }
}

// What has to be there before the call, whose subscriber is the answer.
fn lead_up(alloc: Global, room: &mut Room, call: Call, n: u64) -> Result<Sub, ShardFault> {
    match call {
        Call::TrackAgain | Call::Update | Call::Untrack | Call::Get | Call::Cut => {
            track(alloc, room, name_of(call), n)?;
            Ok(room.sub)
        }
        Call::Take => {
            take(alloc, room)?;
            track(alloc, room, name_of(call), n)?;
            Ok(room.sub)
        }
        Call::CutOlder => {
            update_told(alloc, room, n)?;
            Ok(room.sub)
        }
        Call::State => room.shard.subscribe(alloc, None, &room.topic),
        Call::Rebirth => {
            room.shard.checkpoint(alloc)?;
            Ok(room.sub)
        }
        _ => Ok(room.sub),
    }
}

/// Makes what the call is given.
pub fn ready(alloc: Global, room: &mut Room, call: Call, n: u64) -> Result<Arguments, ShardFault> {
    let sub = lead_up(alloc, room, call, n)?;
    Ok(Arguments {
        key: numbered(alloc, name_of(call), n)?,
        told: told(alloc, &room.other, n)?,
        sub,
        now: n,
    })
}

// Makes a call that changes or reads rows of the session.
fn make_own(alloc: Global, room: &mut Room, call: Call, key: &Key) -> Result<(), ShardFault> {
    let shard = &mut room.shard;
    match call {
        Call::Track => {
            shard.track(alloc, None, PID, &room.topic, key, &room.meta)?;
        }
        Call::Update => {
            shard.update(alloc, None, PID, &room.topic, key, &room.meta)?;
        }
        Call::Untrack => {
            shard.untrack(alloc, None, PID, &room.topic, key)?;
        }
        Call::Get => {
            shard.get(alloc, None, &room.topic, key)?;
        }
        _ => {
            shard.list(alloc, None, &room.topic)?;
        }
    }
    Ok(())
}

// Makes a track that is refused.
fn make_refused(alloc: Global, room: &mut Room, key: &Key) -> Result<(), ShardFault> {
    match room
        .shard
        .track(alloc, None, PID, &room.topic, key, &room.meta)
    {
        Err(ShardFault::AlreadyTracked) => Ok(()),
        Err(fault) => Err(fault),
        Ok(_) => Err(ShardFault::NoPresence),
    }
}

// Makes a call that is no step of the room's journal.
fn ask(alloc: Global, room: &Room, call: Call) -> Result<(), ShardFault> {
    match call {
        Call::Waits => {
            room.shard.waits(&room.sub)?;
        }
        Call::Top => {
            room.shard.top(&room.other);
        }
        Call::Status => {
            room.shard.status(&room.other);
        }
        _ => {
            room.shard.full(alloc, Form::One)?;
        }
    }
    Ok(())
}

fn cut(alloc: Global, shard: &mut Shard) -> Result<(), ShardFault> {
    shard.cut(alloc)?;
    Ok(())
}

fn take_of(alloc: Global, shard: &mut Shard, sub: &Sub) -> Result<(), ShardFault> {
    shard.take(alloc, None, sub, 256)?;
    Ok(())
}

// The node goes on under its next incarnation.
fn go_on(alloc: Global, shard: &mut Shard) -> Result<(), ShardFault> {
    let next = shard.incarnation().saturating_add(1);
    shard.rebirth(alloc, next)?;
    Ok(())
}

/// Makes the call.
pub fn make(
    alloc: Global,
    room: &mut Room,
    call: Call,
    given: &Arguments,
) -> Result<(), ShardFault> {
    match call {
        Call::Track | Call::Update | Call::Untrack | Call::Get | Call::List => {
            make_own(alloc, room, call, &given.key)
        }
        Call::TrackAgain => make_refused(alloc, room, &given.key),
        Call::Take | Call::State => take_of(alloc, &mut room.shard, &given.sub),
        Call::Merge => room.shard.merge(alloc, &given.told),
        Call::Tick => room.shard.tick(alloc, given.now),
        Call::Cut | Call::CutOlder => cut(alloc, &mut room.shard),
        Call::Checkpoint => room.shard.checkpoint(alloc),
        Call::Rebirth => go_on(alloc, &mut room.shard),
        Call::Waits | Call::Top | Call::Status | Call::Full => ask(alloc, room, call),
    }
}
