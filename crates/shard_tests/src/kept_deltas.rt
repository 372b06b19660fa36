//! Kept deltas: what a shard tells from a count on.

use crate::desk::{Ask, answers, said, shard_after};
use std::test::Fail;

// What two cuts told is told as one, from each count that the first one begins at or below, and so it stays behind a
// checkpoint. What came since the last cut is not told.
const KEPT: &[Ask] = &[
    Ask::ToldFrom(0),
    Ask::Track(5, "u2"),
    Ask::ToldFrom(0),
    Ask::Cut,
    Ask::Untrack(5, "u2"),
    Ask::Cut,
    Ask::ToldFrom(1),
    Ask::ToldFrom(0),
    Ask::Track(5, "u3"),
    Ask::ToldFrom(7),
    Ask::Checkpoint,
    Ask::ToldFrom(1),
    Ask::Cut,
    Ask::ToldFrom(2),
];

// A cut of nothing leaves them, and one behind a checkpoint is joined to what was kept before it.
const JOINED_BEHIND_A_CHECKPOINT: &[Ask] = &[
    Ask::Track(5, "u1"),
    Ask::Track(5, "u2"),
    Ask::Cut,
    Ask::Checkpoint,
    Ask::Cut,
    Ask::Update(5, "u1"),
    Ask::Cut,
    Ask::ToldFrom(2),
    Ask::Checkpoint,
    Ask::Untrack(5, "u2"),
    Ask::Cut,
    Ask::ToldFrom(3),
];

#[test]
fn kept_deltas(rt: HostRuntime) -> Result<(), Fail> {
    for (asks, want) in [
        (
            KEPT,
            " : ;a.1.1;0-1: : a.1.1 ;0-1:: a.1.1 ;a.1.1 ;1-2: 0-1: ;0-2: : ;0-2: : ;a.1.3;0-2: : ;Ok(());0-2: : ;2-3:: a.1.3 ;0-3: : a.1.3 ;",
        ),
        (
            JOINED_BEHIND_A_CHECKPOINT,
            "a.1.1;a.1.2;0-2:: a.1.1 a.1.2 ;Ok(());2-2:: ;a.1.3;2-3: 0-1: a.1.3 ;0-3: : a.1.2 a.1.3 ;Ok(());a.1.2 ;3-4: 1-2: ;0-4: : a.1.3 ;",
        ),
    ] {
        assert!(rt; answers(rt.alloc(), asks, want)?, "{want}");
    }
    Ok(())
}

// Sixty rows and sixty more: the shortest generation has the last ones alone, the next one all.
const TWO_GENERATIONS: &[Ask] = &[Ask::Tracks(60), Ask::Cut, Ask::Tracks(60), Ask::Cut];

const SIZES: &[Ask] = &[
    Ask::ToldSize(60),
    Ask::ToldSize(59),
    Ask::Checkpoint,
    Ask::ToldSize(60),
    Ask::ToldSize(59),
];

#[test]
fn generations_of_a_shard(rt: HostRuntime) -> Result<(), Fail> {
    let mut shard = shard_after(rt.alloc(), TWO_GENERATIONS)?;
    let sizes = said(rt.alloc(), &mut shard, SIZES)?;
    assert_eq!(rt;
        sizes.as_str(),
        "60-120: 60;0-120: 120;Ok(());60-120: 60;0-120: 120;"
    );
    Ok(())
}
