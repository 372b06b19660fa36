//! Up to which count a shard covers all of a replica, kept and walked.

use crate::desk::{Ask, ROOM, answers};
use crate::merge_desk::Telling;
use std::test::Fail;

// All counts that there are, and all but the first.
const ALL_COUNTS: Telling = Telling {
    node: "b",
    from: 0,
    to: 4_611_686_018_427_387_904,
    extras: &[],
    live: &[],
};

const ALL_BUT_ONE: Telling = Telling {
    node: "b",
    from: 1,
    to: 4_611_686_018_427_387_904,
    extras: &[],
    live: &[],
};

const FIRST: Telling = Telling {
    node: "b",
    from: 0,
    to: 1,
    extras: &[],
    live: &[],
};

// Ranges and counts that meet in no order, and one behind a gap, which then closes.
const HIGH: Telling = Telling {
    node: "b",
    from: 7,
    to: 1_000_000_000_000,
    extras: &[1, 2],
    live: &[],
};

const MIDDLE: Telling = Telling {
    node: "b",
    from: 3,
    to: 5,
    extras: &[2],
    live: &[],
};

const LOW: Telling = Telling {
    node: "b",
    from: 5,
    to: 5,
    extras: &[3, 7, 6, 1_000_000_000_002],
    live: &[],
};

const GAP: Telling = Telling {
    node: "b",
    from: 0,
    to: 0,
    extras: &[1_000_000_000_001],
    live: &[],
};

const NINE: Telling = Telling {
    node: "b",
    from: 0,
    to: 9,
    extras: &[],
    live: &[],
};

const ALL: &[Ask] = &[Ask::Merge(ALL_COUNTS), Ask::Top("b"), Ask::WalkedTop("b")];

// All but the first, and then the first one.
const FIRST_LAST: &[Ask] = &[
    Ask::Merge(ALL_BUT_ONE),
    Ask::WalkedTop("b"),
    Ask::Merge(FIRST),
    Ask::Top("b"),
    Ask::WalkedTop("b"),
];

const SCATTERED: &[Ask] = &[
    Ask::Merge(HIGH),
    Ask::Merge(MIDDLE),
    Ask::Merge(LOW),
    Ask::Top("b"),
    Ask::WalkedTop("b"),
    Ask::Merge(GAP),
    Ask::Top("b"),
    Ask::WalkedTop("b"),
];

// The own counts, and none of a replica that is gone.
const OWN_AND_GONE: &[Ask] = &[
    Ask::Track(1, "u1"),
    Ask::Update(1, "u1"),
    Ask::Untrack(1, "u1"),
    Ask::WalkedTop("a"),
    Ask::Merge(NINE),
    Ask::WalkedTop("b"),
    Ask::PermDown("b"),
    Ask::WalkedTop("b"),
    Ask::Track(1, "u2"),
    Ask::Checkpoint,
    Ask::WalkedTop("a"),
    Ask::Subscribe(ROOM),
    Ask::Track(1, "u3"),
    Ask::WalkedTop("a"),
];

#[test]
fn worked_tops(rt: HostRuntime) -> Result<(), Fail> {
    for (asks, want) in [
        (ALL, "Ok(());4611686018427387904;4611686018427387904;"),
        (
            FIRST_LAST,
            "Ok(());0;Ok(());4611686018427387904;4611686018427387904;",
        ),
        (
            SCATTERED,
            "Ok(());Ok(());Ok(());1000000000000;1000000000000;Ok(());1000000000002;1000000000002;",
        ),
        (
            OWN_AND_GONE,
            "a.1.1;a.1.2;a.1.2 ;3;Ok(());9;Ok(());0;a.1.4;Ok(());4;Ok(Sub { slot: 0, number: 8 });a.1.5;5;",
        ),
    ] {
        assert!(rt; answers(rt.alloc(), asks, want)?, "{want}");
    }
    Ok(())
}
