//! Each call of a shard, and what it answers.

use crate::desk::{Ask, ROOM, answers, said, shard_after};
use std::alloc::{AllocError, Global};
use std::test::Fail;

const GET_AND_UPDATE_OF_NOBODY: &[Ask] = &[
    Ask::Subscribe(ROOM),
    Ask::Track(1, "u1"),
    Ask::Take(1),
    Ask::Get("u9"),
    Ask::Get("u1"),
    Ask::Update(1, "u9"),
    Ask::Waits(0, 1),
    Ask::Take(1),
    Ask::Subscribe(ROOM),
];

const TWO_PIDS_ON_ONE_KEY: &[Ask] = &[
    Ask::Track(1, "u1"),
    Ask::Track(2, "u1"),
    Ask::List,
    Ask::Untrack(1, "u1"),
    Ask::List,
];

// A refused track uses no count, and an untrack uses one where it removes a row.
const REFUSED_TRACK: &[Ask] = &[
    Ask::Track(1, "u1"),
    Ask::Track(1, "u1"),
    Ask::Track(1, "u2"),
];

const UNTRACK: &[Ask] = &[
    Ask::Track(1, "u1"),
    Ask::Untrack(1, "u1"),
    Ask::Track(1, "u1"),
];

const UNTRACK_TWICE: &[Ask] = &[
    Ask::Track(1, "u1"),
    Ask::Untrack(1, "u1"),
    Ask::Untrack(1, "u1"),
    Ask::Track(1, "u1"),
];

const UPDATE_AND_UNTRACK_OF_ALL: &[Ask] = &[
    Ask::Track(1, "u2"),
    Ask::Track(1, "u1"),
    Ask::Track(2, "u1"),
    Ask::Update(1, "u2"),
    Ask::UntrackAll(1),
    Ask::List,
];

// A shout reaches its topic alone.
const SHOUT: &[Ask] = &[
    Ask::Subscribe(ROOM),
    Ask::Subscribe("room:attic"),
    Ask::Take(1),
    Ask::Take(2),
    Ask::Shout(ROOM),
    Ask::Take(1),
    Ask::Take(2),
];

const UNKNOWN_SUBSCRIBER: &[Ask] = &[
    Ask::Waits(0, 1),
    Ask::Subscribe(ROOM),
    Ask::Waits(0, 1),
    Ask::Waits(1, 1),
    Ask::Unsubscribe(1),
    Ask::Waits(0, 1),
    Ask::Take(1),
    Ask::Unsubscribe(1),
];

// The second take of rows that stay writes their text, which later ones share.
const STATES: &[Ask] = &[
    Ask::Track(1, "u1"),
    Ask::Track(1, "u2"),
    Ask::Subscribe(ROOM),
    Ask::Subscribe(ROOM),
    Ask::Subscribe(ROOM),
    Ask::Take(3),
    Ask::Take(4),
    Ask::Take(5),
    Ask::Track(1, "u3"),
    Ask::Subscribe(ROOM),
    Ask::Take(10),
];

#[test]
fn worked_calls(rt: HostRuntime) -> Result<(), Fail> {
    for (asks, want) in [
        (
            GET_AND_UPDATE_OF_NOBODY,
            "Ok(Sub { slot: 0, number: 1 });a.1.1;S;;a.1.1 ;NoPresence;Ok(false);;Ok(Sub { slot: 0, number: 8 });",
        ),
        (
            TWO_PIDS_ON_ONE_KEY,
            "a.1.1;a.1.2;a.1.1 a.1.2 ;a.1.1 ;a.1.2 ;",
        ),
        (REFUSED_TRACK, "a.1.1;AlreadyTracked;a.1.2;"),
        (UNTRACK, "a.1.1;a.1.1 ;a.1.3;"),
        (UNTRACK_TWICE, "a.1.1;a.1.1 ;;a.1.3;"),
        (
            UPDATE_AND_UNTRACK_OF_ALL,
            "a.1.1;a.1.2;a.1.3;a.1.4;a.1.2 a.1.4 ;a.1.3 ;",
        ),
        (
            SHOUT,
            "Ok(Sub { slot: 0, number: 1 });Ok(Sub { slot: 0, number: 2 });S;S;Ok(());H;;",
        ),
        (
            STATES,
            "a.1.1;a.1.2;Ok(Sub { slot: 0, number: 3 });Ok(Sub { slot: 0, number: 4 });Ok(Sub { slot: 0, number: 5 });S;T;T;a.1.3;Ok(Sub { slot: 0, number: 10 });S;",
        ),
        (
            UNKNOWN_SUBSCRIBER,
            "Err(NoSub);Ok(Sub { slot: 0, number: 1 });Ok(true);Err(NoSub);Ok(());Err(NoSub);NoSub;Err(NoSub);",
        ),
    ] {
        assert!(rt; answers(rt.alloc(), asks, want)?, "{want}");
    }
    Ok(())
}

// What two takes give a subscriber that took its state before a track and so many updates.
fn taken_after(alloc: Global, updates: u32) -> Result<String, AllocError> {
    let asks = [
        Ask::Subscribe(ROOM),
        Ask::Take(1),
        Ask::Track(1, "u1"),
        Ask::Updates(1, "u1", updates),
    ];
    let mut shard = shard_after(alloc, &asks)?;
    said(alloc, &mut shard, &[Ask::Take(1), Ask::Take(1)])
}

#[test]
fn the_full_queue(rt: HostRuntime) -> Result<(), Fail> {
    let most = taken_after(rt.alloc(), 255)?;
    assert_eq!(rt; most.as_str().trim_start_matches('D'), ";;");
    assert_eq!(rt; most.len(), 258);
    let more = taken_after(rt.alloc(), 256)?;
    assert_eq!(rt; more.as_str(), "S;;");
    Ok(())
}
