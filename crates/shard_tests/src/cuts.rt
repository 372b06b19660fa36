//! Cuts: the range, the runs of older counts and the rows of each.

use crate::desk::{Ask, answers};
use std::test::Fail;

const TRACK_AND_UNTRACK: &[Ask] = &[
    Ask::Track(5, "u2"),
    Ask::Cut,
    Ask::Untrack(5, "u2"),
    Ask::Cut,
    Ask::Cut,
];

// A cut tells whole chains: a node that gets the first and the third alone knows all three counts, and
// shows nothing.
const WHOLE_CHAINS: &[Ask] = &[
    Ask::Track(5, "u2"),
    Ask::Cut,
    Ask::Update(5, "u2"),
    Ask::Cut,
    Ask::Untrack(5, "u2"),
    Ask::Cut,
];

// Rows that come and go between two cuts are told by the range.
const BETWEEN_TWO_CUTS: &[Ask] = &[
    Ask::Track(5, "u1"),
    Ask::Update(5, "u1"),
    Ask::Track(5, "u2"),
    Ask::Untrack(5, "u1"),
    Ask::Cut,
];

// A cut tells of a chain what went since the last one: the second update's old row came since then, and
// what it had replaced is older.
const SINCE_THE_LAST_CUT: &[Ask] = &[
    Ask::Track(5, "u2"),
    Ask::Cut,
    Ask::Update(5, "u2"),
    Ask::Update(5, "u2"),
    Ask::Cut,
    Ask::Untrack(5, "u2"),
    Ask::Cut,
];

// Rows that go at once are told with their chains. An untrack of all names them in order of their keys.
const AT_ONCE: &[Ask] = &[
    Ask::Track(5, "u1"),
    Ask::Track(5, "u2"),
    Ask::Cut,
    Ask::Update(5, "u1"),
    Ask::Cut,
    Ask::UntrackAll(5),
    Ask::Cut,
    Ask::Cut,
];

#[test]
fn worked_cuts(rt: HostRuntime) -> Result<(), Fail> {
    for (asks, want) in [
        (
            TRACK_AND_UNTRACK,
            "a.1.1;0-1:: a.1.1 ;a.1.1 ;1-2: 0-1: ;2-2:: ;",
        ),
        (
            WHOLE_CHAINS,
            "a.1.1;0-1:: a.1.1 ;a.1.2;1-2: 0-1: a.1.2 ;a.1.2 ;2-3: 0-2: ;",
        ),
        (BETWEEN_TWO_CUTS, "a.1.1;a.1.2;a.1.3;a.1.2 ;0-4:: a.1.3 ;"),
        (
            SINCE_THE_LAST_CUT,
            "a.1.1;0-1:: a.1.1 ;a.1.2;a.1.3;1-3: 0-1: a.1.3 ;a.1.3 ;3-4: 0-3: ;",
        ),
        (
            AT_ONCE,
            "a.1.1;a.1.2;0-2:: a.1.1 a.1.2 ;a.1.3;2-3: 0-1: a.1.3 ;a.1.3 a.1.2 ;3-4: 0-3: ;4-4:: ;",
        ),
    ] {
        assert!(rt; answers(rt.alloc(), asks, want)?, "{want}");
    }
    Ok(())
}
