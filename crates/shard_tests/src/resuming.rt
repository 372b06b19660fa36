//! A shard that goes on behind a count, also at the last one, and how many rows it counts.

ghost use Rattle.std.specs.Prelude.{◌≤◌, ◌^◌};

use crate::desk::{Ask, ROOM, said, shard_of};
use crate::merge_desk::{Telling, replica};
use orswot_core::Form;
use std::alloc::{AllocError, Global};
use std::test::Fail;
use tracker_index::RowCounts;
use tracker_shard::Shard;

// The last count goes to u1. What needs one more is refused, and what removes nothing needs none.
const AT_THE_LAST_COUNT: &[Ask] = &[
    Ask::Track(1, "u1"),
    Ask::Track(1, "u1"),
    Ask::Track(1, "u2"),
    Ask::Update(1, "u1"),
    Ask::Untrack(1, "u1"),
    Ask::Untrack(1, "u9"),
    Ask::List,
    Ask::Cut,
];

// Three rows of another node, of which two are on one topic.
const THREE_ROWS: Telling = Telling {
    node: "b",
    from: 0,
    to: 3,
    extras: &[],
    live: &[(1, ROOM, "u1"), (2, ROOM, "u2"), (3, "room:b", "u1")],
};

// The first one's removal.
const ONE_LESS: Telling = Telling {
    node: "b",
    from: 3,
    to: 4,
    extras: &[1],
    live: &[],
};

// Calls, and the own rows, those of others and the topics that somebody looks at behind them.
type Counted = (&'static [Ask], (u64, u64, u64));

const COUNTED: &[Counted] = &[
    (&[], (0, 0, 0)),
    (&[Ask::Track(1, "u1"), Ask::Track(1, "u2")], (2, 0, 0)),
    (&[Ask::Track(2, "u1"), Ask::Update(1, "u2")], (3, 0, 0)),
    (&[Ask::Heard("b", 0), Ask::Merge(THREE_ROWS)], (3, 3, 0)),
    (&[Ask::Untrack(2, "u1"), Ask::Untrack(2, "u1")], (2, 3, 0)),
    (&[Ask::Merge(THREE_ROWS), Ask::Merge(ONE_LESS)], (2, 2, 0)),
    (&[Ask::Subscribe(ROOM), Ask::Subscribe(ROOM)], (2, 2, 1)),
    (&[Ask::Subscribe("room:c"), Ask::Track(3, "u1")], (3, 2, 2)),
    (&[Ask::Tick(30_001)], (3, 0, 2)),
    (&[Ask::Heard("b", 30_001)], (3, 2, 2)),
    (&[Ask::Checkpoint], (3, 2, 2)),
    (&[Ask::UntrackAll(1), Ask::List], (1, 2, 2)),
    (&[Ask::PermDown("b")], (1, 0, 2)),
];

fn resumed(alloc: Global, count: u64) -> Result<Shard, AllocError>
    requires { count ≤ 2 ^ 62 }
{
    let own = replica(alloc, "a")?;
    Shard::resume(alloc, own, count)
}

#[test]
fn the_last_count_is_used_once(rt: HostRuntime) -> Result<(), Fail> {
    let mut shard = resumed(rt.alloc(), 4_611_686_018_427_387_903)?;
    let said = said(rt.alloc(), &mut shard, AT_THE_LAST_COUNT)?;
    assert_eq!(rt;
        said.as_str(),
        "a.1.4611686018427387904;AlreadyTracked;ClockFull;ClockFull;ClockFull;;a.1.4611686018427387904 ;\
         4611686018427387903-4611686018427387904:: a.1.4611686018427387904 ;"
    );
    Ok(())
}

#[test]
fn counts_before_are_covered(rt: HostRuntime) -> Result<(), Fail> {
    let own = replica(rt.alloc(), "a")?;
    for count in [0, 1, 4_611_686_018_427_387_904] {
        let shard = resumed(rt.alloc(), count)?;
        assert_eq!(rt; shard.top(&own), count);
        assert_eq!(rt; shard.full(rt.alloc(), Form::One)?.live().len(), 0);
    }
    Ok(())
}

#[test]
fn rows_are_counted(rt: HostRuntime) -> Result<(), Fail> {
    let mut shard = shard_of(rt.alloc(), "a")?;
    for (asks, (own, others, topics)) in COUNTED {
        said(rt.alloc(), &mut shard, asks)?;
        let want = RowCounts {
            own: *own,
            others: *others,
            topics: *topics,
        };
        assert_eq!(rt; shard.row_counts(), want);
    }
    Ok(())
}
