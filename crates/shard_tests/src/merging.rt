//! What a shard shows of another node that tells it of rows, late, twice and in part.

use crate::desk::{Ask, ROOM, answers};
use crate::merge_desk::Telling;
use std::test::Fail;

// Two rows, and then the first one's removal.
const TWO_ROWS: Telling = Telling {
    node: "b",
    from: 0,
    to: 2,
    extras: &[],
    live: &[(1, ROOM, "u2"), (2, ROOM, "u3")],
};

const FIRST_REMOVED: Telling = Telling {
    node: "b",
    from: 2,
    to: 3,
    extras: &[1],
    live: &[],
};

// The first row, which a later delta removes.
const ONE_ROW: Telling = Telling {
    node: "b",
    from: 0,
    to: 1,
    extras: &[],
    live: &[(1, ROOM, "u2")],
};

const ROW_REMOVED: Telling = Telling {
    node: "b",
    from: 1,
    to: 2,
    extras: &[1],
    live: &[],
};

// The row and its removal, of which the removal is told in full alone, as a link that was asked for it does.
const ALL_REMOVED: Telling = Telling {
    node: "b",
    from: 0,
    to: 2,
    extras: &[],
    live: &[],
};

// The last of three deltas of a row that came, was updated and went.
const CHAIN_REMOVED: Telling = Telling {
    node: "b",
    from: 2,
    to: 3,
    extras: &[1, 2],
    live: &[],
};

// Counts and a row of the own replica that it never counted.
const OWN_ROW: Telling = Telling {
    node: "a",
    from: 0,
    to: 9,
    extras: &[],
    live: &[(9, ROOM, "u9")],
};

// A row in each of two rooms.
const TWO_ROOMS: Telling = Telling {
    node: "b",
    from: 0,
    to: 2,
    extras: &[],
    live: &[(1, "room:a", "u1"), (2, "room:b", "u1")],
};

// The first room's row goes, and one comes in the second and in a third one.
const THREE_CHANGES: Telling = Telling {
    node: "b",
    from: 2,
    to: 5,
    extras: &[1],
    live: &[(4, "room:b", "u2"), (5, "room:c", "u3")],
};

const UP: Ask = Ask::Heard("b", 0);

const B: Ask = Ask::Top("b");

// What is told by one delta, by two and by three. The text has the counts of `b` that are covered, and the
// lobby's rows.
#[test]
fn deltas_that_come_late_twice_or_not_at_all(rt: HostRuntime) -> Result<(), Fail> {
    for (first, want) in [
        (FIRST_REMOVED, "Ok(());Ok(());1;;"),
        (ROW_REMOVED, "Ok(());Ok(());2;;"),
        (ONE_ROW, "Ok(());Ok(());1;b.1.1 ;"),
    ] {
        let asks = [Ask::Merge(first), UP, B, Ask::List];
        assert!(rt; answers(rt.alloc(), &asks, want)?, "{want}");
    }
    for (first, second, want) in [
        (FIRST_REMOVED, TWO_ROWS, "Ok(());Ok(());Ok(());3;b.1.2 ;"),
        (TWO_ROWS, FIRST_REMOVED, "Ok(());Ok(());Ok(());3;b.1.2 ;"),
        (ONE_ROW, ALL_REMOVED, "Ok(());Ok(());Ok(());2;;"),
        (ONE_ROW, CHAIN_REMOVED, "Ok(());Ok(());Ok(());3;;"),
    ] {
        let asks = [Ask::Merge(first), Ask::Merge(second), UP, B, Ask::List];
        assert!(rt; answers(rt.alloc(), &asks, want)?, "{want}");
    }
    Ok(())
}

const REPEATED_DELTA: &[Ask] = &[
    Ask::Merge(ROW_REMOVED),
    Ask::Merge(ONE_ROW),
    Ask::Merge(ONE_ROW),
    UP,
    B,
    Ask::List,
];

const OWN_DOTS_TOLD_BACK: &[Ask] = &[
    Ask::Track(1, "u1"),
    Ask::Track(1, "u2"),
    Ask::Track(1, "u3"),
    Ask::Merge(OWN_ROW),
    Ask::LastNumber,
    Ask::Top("a"),
    Ask::List,
    Ask::Track(1, "u4"),
];

const DOWN_UP_AND_GONE: &[Ask] = &[
    Ask::Merge(ONE_ROW),
    UP,
    Ask::Subscribe(ROOM),
    Ask::TakeRows(3),
    Ask::Tick(30_000),
    Ask::TakeRows(3),
    Ask::Tick(30_001),
    Ask::TakeRows(3),
    Ask::Heard("b", 30_002),
    Ask::Waits(0, 3),
    Ask::TakeRows(3),
    Ask::Waits(0, 3),
    Ask::Tick(1_230_003),
    Ask::TakeRows(3),
    Ask::Status("b"),
];

// Nothing is taken in of one that is gone.
const GONE: &[Ask] = &[
    Ask::Merge(ONE_ROW),
    Ask::PermDown("b"),
    Ask::Merge(TWO_ROWS),
    Ask::Heard("b", 1),
    B,
    Ask::List,
    Ask::LiveCount,
];

// Rows of a node that is not heard are not shown.
const NOT_HEARD: &[Ask] = &[Ask::Merge(TWO_ROWS), B, Ask::List];

// Each subscriber has one diff for a merge that changes its topic, none for another, and one for a tick.
const FOUR_SUBSCRIBERS: &[Ask] = &[
    Ask::Merge(TWO_ROOMS),
    UP,
    Ask::Subscribe("room:a"),
    Ask::Subscribe("room:b"),
    Ask::Subscribe("room:c"),
    Ask::Subscribe("room:d"),
    Ask::TakeRows(3),
    Ask::TakeRows(4),
    Ask::TakeRows(5),
    Ask::TakeRows(6),
    Ask::Merge(THREE_CHANGES),
    Ask::TakeRows(3),
    Ask::TakeRows(4),
    Ask::TakeRows(5),
    Ask::TakeRows(6),
    Ask::Tick(30_001),
    Ask::TakeRows(3),
    Ask::TakeRows(4),
    Ask::TakeRows(5),
    Ask::TakeRows(6),
];

#[test]
fn worked_merges(rt: HostRuntime) -> Result<(), Fail> {
    for (asks, want) in [
        (REPEATED_DELTA, "Ok(());Ok(());Ok(());Ok(());2;;"),
        (
            OWN_DOTS_TOLD_BACK,
            "a.1.1;a.1.2;a.1.3;Ok(());4;3;a.1.1 a.1.2 a.1.3 ;a.1.4;",
        ),
        (
            DOWN_UP_AND_GONE,
            "Ok(());Ok(());Ok(Sub { slot: 0, number: 3 });state b.1.1 ;Ok(());;Ok(());+ - b.1.1 ;Ok(());Ok(true);+ b.1.1 - ;Ok(false);Ok(());+ - b.1.1 ;Gone;",
        ),
        (GONE, "Ok(());Ok(());Ok(());Ok(());0;;0;"),
        (NOT_HEARD, "Ok(());2;;"),
        (
            FOUR_SUBSCRIBERS,
            "Ok(());Ok(());Ok(Sub { slot: 0, number: 3 });Ok(Sub { slot: 0, number: 4 });Ok(Sub { slot: 0, number: 5 });Ok(Sub { slot: 0, number: 6 });state b.1.1 ;state b.1.2 ;state ;state ;Ok(());+ - b.1.1 ;+ b.1.4 - ;+ b.1.5 - ;;Ok(());;+ - b.1.2 b.1.4 ;+ - b.1.5 ;;",
        ),
    ] {
        assert!(rt; answers(rt.alloc(), asks, want)?, "{want}");
    }
    Ok(())
}
