//! Worked rows of a shard that hears another node.
//!
//! Each call has a line, which tells what it leaves. A call that is refused memory leaves the shard as it was, which a
//! line tells, and is made once more: so a run in which one allocation is refused ends as any other.

mod calls;
mod making;
mod playing;
mod texts;

use crate::making::{ROOM, replica};
use calls::Call;
use making::ToldOf;
use playing::{play, play_told_from};
use std::io;
use tracker_shard::Shard;

// The rows 1 and 2 of `b`.
fn first_two() -> ToldOf {
    ToldOf {
        from: 0,
        to: 2,
        extras: &[],
        live: &[(1, ROOM, "u2"), (2, ROOM, "u3")],
    }
}

// The removal of the row 1, by the count 3.
fn removal() -> ToldOf {
    ToldOf {
        from: 2,
        to: 3,
        extras: &[1],
        live: &[],
    }
}

// The row 2 goes, and rows of two topics come above a gap.
fn of_two_topics() -> ToldOf {
    ToldOf {
        from: 4,
        to: 6,
        extras: &[2],
        live: &[(5, ROOM, "u4"), (6, "room:b", "u5")],
    }
}

// Three subscribers of one topic and one of another take their states. Then a track fills the queues of the three.
fn follow<R: Print + AllocGlobal>(rt: &R, shard: &mut Shard) -> io::Result<()> {
    for room in [ROOM, ROOM, ROOM, "room:b"] {
        play(rt, shard, "subscribe", &Call::Subscribe(room))?;
    }
    for number in 1..5 {
        play(rt, shard, "take", &Call::Take(number))?;
    }
    play(rt, shard, "track u1", &Call::Track("u1"))
}

// Others' rows are told.
fn hear<R: Print + AllocGlobal>(rt: &R, shard: &mut Shard) -> io::Result<()> {
    play(rt, shard, "heard 0", &Call::Heard(0))?;
    play(rt, shard, "merge two rows", &Call::Merge(first_two()))?;
    play(rt, shard, "take", &Call::Take(1))
}

// The other node is silent, and then heard again.
fn go_down<R: Print + AllocGlobal>(rt: &R, shard: &mut Shard) -> io::Result<()> {
    play(rt, shard, "tick 30001", &Call::Tick(30_001))?;
    play(rt, shard, "cut", &Call::Cut)?;
    play(rt, shard, "merge the removal", &Call::Merge(removal()))?;
    play(rt, shard, "heard 30002", &Call::Heard(30_002))?;
    play(
        rt,
        shard,
        "merge of two topics",
        &Call::Merge(of_two_topics()),
    )?;
    play(rt, shard, "take", &Call::Take(4))
}

// Own rows go, and the other node for good.
fn go_out<R: Print + AllocGlobal>(rt: &R, shard: &mut Shard) -> io::Result<()> {
    play(rt, shard, "update u1", &Call::Update("u1"))?;
    play(rt, shard, "untrack u1", &Call::Untrack("u1"))?;
    play(rt, shard, "cut", &Call::Cut)?;
    play(rt, shard, "permdown", &Call::PermDown)?;
    play(rt, shard, "merge two rows", &Call::Merge(first_two()))
}

// The journal begins again, and the kept deltas stay: two cuts, joined, and then a third.
fn begin_again<R: Print + AllocGlobal>(rt: &R, shard: &mut Shard) -> io::Result<()> {
    play(rt, shard, "track u6", &Call::Track("u6"))?;
    play_told_from(rt, shard, 1)?;
    play(rt, shard, "checkpoint", &Call::Checkpoint)?;
    play_told_from(rt, shard, 1)?;
    play(rt, shard, "take", &Call::Take(1))?;
    play(rt, shard, "cut", &Call::Cut)?;
    play_told_from(rt, shard, 3)?;
    play(rt, shard, "cut", &Call::Cut)?;
    play(rt, shard, "untrack u6", &Call::Untrack("u6"))
}

fn play_in_turn<R: Print + AllocGlobal>(rt: &R, shard: &mut Shard) -> io::Result<()> {
    follow(rt, shard)?;
    hear(rt, shard)?;
    go_down(rt, shard)?;
    go_out(rt, shard)?;
    begin_again(rt, shard)
}

/// Plays all rows.
pub fn play_rows<R: Print + AllocGlobal>(rt: &R) -> io::Result<()> {
    let own = replica(rt.alloc(), "a")?;
    play_in_turn(rt, &mut Shard::new(rt.alloc(), own))
}
