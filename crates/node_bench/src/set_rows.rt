//! Worked rows, played through the public calls of the sets.
//!
//! Each call has a line, which tells what it leaves. A call that is refused memory leaves the value as it was, which
//! a line tells, and is made once more: so a run in which one allocation is refused ends as any other.

mod contexts;
mod deltas;
mod generations;
mod making;
mod playing;
mod sets;

use contexts::ContextCall;
use deltas::{DeltaCall, Joined};
use dot_context::Context;
use generations::Pushed;
use making::{DeltaOf, ToldOf};
use orswot_core::Orswot;
use playing::play_all;
use sets::SetCall;
use std::io;

/// Plays all rows.
pub fn play_rows<R: Print + AllocGlobal>(rt: &R) -> io::Result<()> {
    play_contexts(rt)?;
    play_sets(rt)?;
    play_deltas(rt)
}

fn play_contexts<R: Print + AllocGlobal>(rt: &R) -> io::Result<()> {
    fill_a_gap(rt)?;
    join_contexts(rt)
}

fn play_sets<R: Print + AllocGlobal>(rt: &R) -> io::Result<()> {
    fill_a_late_gap(rt)?;
    join_in_order(rt)?;
    join_all_of_one(rt)?;
    join_all_of_another(rt)?;
    repeat_a_delta(rt)?;
    add_and_remove(rt)?;
    refuse_told_values(rt)
}

fn play_deltas<R: Print + AllocGlobal>(rt: &R) -> io::Result<()> {
    join_deltas(rt)?;
    refuse_deltas(rt)?;
    pass_a_cap(rt)?;
    begin_anew(rt)
}

fn fill_a_gap<R: Print + AllocGlobal>(rt: &R) -> io::Result<()> {
    rt.println("a gap is filled")?;
    let calls = [
        ("add 3", ContextCall::Add(3)),
        ("add_range (0,2]", ContextCall::AddRange(0, 2)),
        ("forget", ContextCall::Forget),
    ];
    play_all(rt, &mut Context::new(rt.alloc()), &calls)
}

fn join_contexts<R: Print + AllocGlobal>(rt: &R) -> io::Result<()> {
    rt.println("contexts are joined")?;
    let calls = [
        ("add 1", ContextCall::Add(1)),
        ("join {2, 4}", ContextCall::Join(&[2, 4])),
    ];
    play_all(rt, &mut Context::new(rt.alloc()), &calls)
}

// What a node tells of its rows 1 and 2.
fn first_two() -> ToldOf {
    ToldOf {
        ranges: &[(0, 2)],
        extras: &[],
        live: &[(0, 2)],
    }
}

// What it tells of the removal of row 1, by its count 3.
fn removal() -> ToldOf {
    ToldOf {
        ranges: &[(2, 3)],
        extras: &[1],
        live: &[],
    }
}

// All that is told of a set which heard both.
fn after_both() -> ToldOf {
    ToldOf {
        ranges: &[(0, 3)],
        extras: &[],
        live: &[(1, 2)],
    }
}

// Plays the calls on an empty set.
fn play_set<R: Print + AllocGlobal>(rt: &R, calls: &[(&str, SetCall)]) -> io::Result<()> {
    play_all(rt, &mut Orswot::new(rt.alloc()), calls)
}

fn fill_a_late_gap<R: Print + AllocGlobal>(rt: &R) -> io::Result<()> {
    rt.println("a gap is filled late")?;
    let calls = [
        ("join the removal", SetCall::Join(removal())),
        ("join the rows", SetCall::Join(first_two())),
        ("forget", SetCall::Forget),
    ];
    play_set(rt, &calls)
}

fn join_in_order<R: Print + AllocGlobal>(rt: &R) -> io::Result<()> {
    rt.println("deltas come in order")?;
    let calls = [
        ("join the rows", SetCall::Join(first_two())),
        ("join the removal", SetCall::Join(removal())),
    ];
    play_set(rt, &calls)
}

fn join_all_of_one<R: Print + AllocGlobal>(rt: &R) -> io::Result<()> {
    rt.println("sets are joined, either way")?;
    let calls = [
        ("join all", SetCall::Join(after_both())),
        ("join_all with the removal", SetCall::JoinAll(removal())),
    ];
    play_set(rt, &calls)
}

fn join_all_of_another<R: Print + AllocGlobal>(rt: &R) -> io::Result<()> {
    let calls = [
        ("join the removal", SetCall::Join(removal())),
        ("join_all with all", SetCall::JoinAll(after_both())),
    ];
    play_set(rt, &calls)
}

fn repeat_a_delta<R: Print + AllocGlobal>(rt: &R) -> io::Result<()> {
    rt.println("a delta is repeated")?;
    let row = told(&[(0, 1)], &[], &[(0, 1)]);
    let calls = [
        ("join the removal", told(&[(1, 2)], &[1], &[])),
        ("join the row", row),
        ("join the row", row),
    ];
    play_set(rt, &calls)
}

fn add_and_remove<R: Print + AllocGlobal>(rt: &R) -> io::Result<()> {
    rt.println("a row is added and removed")?;
    let calls = [
        ("add 1", SetCall::Add(1)),
        ("remove 1 by 2", SetCall::Remove(1, 2)),
        ("add 3", SetCall::Add(3)),
    ];
    play_set(rt, &calls)
}

fn told(
    ranges: &'static [(u64, u64)],
    extras: &'static [u64],
    live: &'static [(u64, u64)],
) -> SetCall {
    SetCall::Join(ToldOf {
        ranges,
        extras,
        live,
    })
}

fn refuse_told_values<R: Print + AllocGlobal>(rt: &R) -> io::Result<()> {
    rt.println("told values are refused")?;
    let calls = [
        ("join", told(&[(0, 1), (1, 2)], &[], &[])),
        ("join", told(&[(2, 1)], &[], &[])),
        ("join", told(&[(0, 1)], &[0], &[])),
        ("join", told(&[(0, 1)], &[], &[(0, 2)])),
        ("join", told(&[(0, 1)], &[], &[(0, 1), (0, 1)])),
    ];
    play_set(rt, &calls)
}

// A delta of a node without extras.
fn plain(node: &'static str, from: u64, to: u64, live: &'static [(u64, u64)]) -> DeltaOf {
    DeltaOf {
        node,
        from,
        to,
        extras: &[],
        live,
    }
}

// The untrack of row 1 of `b`, by the count 2.
fn untrack() -> DeltaOf {
    DeltaOf {
        node: "b",
        from: 1,
        to: 2,
        extras: &[1],
        live: &[],
    }
}

fn join_deltas<R: Print + AllocGlobal>(rt: &R) -> io::Result<()> {
    rt.println("deltas are joined")?;
    let calls = [
        ("new", DeltaCall::New(plain("b", 0, 1, &[(0, 1)]))),
        ("join_next", DeltaCall::JoinNext(untrack())),
    ];
    play_all(rt, &mut Joined::new(), &calls)
}

fn refuse_deltas<R: Print + AllocGlobal>(rt: &R) -> io::Result<()> {
    rt.println("deltas are refused")?;
    let calls = [
        ("new", DeltaCall::New(plain("b", 0, 5, &[]))),
        ("join_next", DeltaCall::JoinNext(plain("b", 6, 8, &[]))),
        ("join_next", DeltaCall::JoinNext(plain("a", 6, 8, &[]))),
        ("join_next", DeltaCall::JoinNext(plain("b", 5, 8, &[]))),
    ];
    play_all(rt, &mut Joined::new(), &calls)
}

fn pass_a_cap<R: Print + AllocGlobal>(rt: &R) -> io::Result<()> {
    rt.println("a delta passes a cap")?;
    let calls = [
        ("push (0,101]", plain("b", 0, 101, &[(0, 101)])),
        ("push (101,102]", plain("b", 101, 102, &[(101, 102)])),
    ];
    play_all(rt, &mut Pushed::new(), &calls)
}

fn begin_anew<R: Print + AllocGlobal>(rt: &R) -> io::Result<()> {
    rt.println("a generation begins anew")?;
    let calls = [
        ("push (0,60]", plain("b", 0, 60, &[(0, 60)])),
        ("push (60,120]", plain("b", 60, 120, &[(60, 120)])),
    ];
    play_all(rt, &mut Pushed::new(), &calls)
}
