//! What a shard holds of other replicas, and of its own.

use crate::desk::{Ask, ROOM, answers};
use std::test::Fail;

// A silent replica is down, and then gone.
const SILENCE: &[Ask] = &[
    Ask::Status("b"),
    Ask::Heard("b", 0),
    Ask::Tick(30_000),
    Ask::Status("b"),
    Ask::Tick(30_001),
    Ask::Status("b"),
    Ask::Heard("b", 30_002),
    Ask::Status("b"),
    Ask::Tick(1_230_003),
    Ask::Status("b"),
    Ask::Heard("b", 1_230_004),
    Ask::Status("b"),
];

// A clock that goes back counts as no time.
const BACK_IN_TIME: &[Ask] = &[
    Ask::Heard("b", 100_000),
    Ask::Tick(50),
    Ask::Status("b"),
    Ask::Heard("c", 10),
    Ask::Tick(130_000),
    Ask::Status("c"),
    Ask::Tick(130_001),
    Ask::Status("c"),
    Ask::Status("b"),
];

// A replica that is put down is gone.
const PUT_DOWN: &[Ask] = &[
    Ask::Heard("b", 5),
    Ask::PermDown("b"),
    Ask::PermDown("c"),
    Ask::Heard("c", 6),
    Ask::Status("b"),
    Ask::Status("c"),
    Ask::WalkedStatus("c"),
];

// The own replica stays up, and keeps its rows.
const OWN: &[Ask] = &[
    Ask::Subscribe(ROOM),
    Ask::Track(1, "u1"),
    Ask::Take(1),
    Ask::Heard("a", 1),
    Ask::PermDown("a"),
    Ask::Tick(2_000_000),
    Ask::Status("a"),
    Ask::List,
    Ask::Take(1),
];

#[test]
fn worked_statuses(rt: HostRuntime) -> Result<(), Fail> {
    for (asks, want) in [
        (
            SILENCE,
            "Unheard;Ok(());Ok(());Up;Ok(());Down;Ok(());Up;Ok(());Gone;Ok(());Gone;",
        ),
        (
            BACK_IN_TIME,
            "Ok(());Ok(());Up;Ok(());Ok(());Up;Ok(());Down;Down;",
        ),
        (PUT_DOWN, "Ok(());Ok(());Ok(());Ok(());Gone;Gone;Gone;"),
        (
            OWN,
            "Ok(Sub { slot: 0, number: 1 });a.1.1;S;Ok(());Ok(());Ok(());Up;a.1.1 ;;",
        ),
    ] {
        assert!(rt; answers(rt.alloc(), asks, want)?, "{want}");
    }
    Ok(())
}
