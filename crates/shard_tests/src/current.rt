//! A checkpoint behind which those for whom nothing waits are current.

use crate::desk::{Ask, ROOM, said, shard_after};
use std::test::Fail;

// A subscriber that has taken all, one for which a diff waits, and one that is behind.
const THREE: &[Ask] = &[
    Ask::Track(1, "u1"),
    Ask::Subscribe(ROOM),
    Ask::Take(2),
    Ask::Subscribe(ROOM),
    Ask::Take(4),
    Ask::Track(1, "u2"),
    Ask::Take(2),
    Ask::Subscribe(ROOM),
];

// The first is owed nothing by it, and each other the state, the second of which has its text. What comes then waits for all.
const BEHIND: &[Ask] = &[
    Ask::CheckpointKeepingCurrent,
    Ask::Waits(0, 2),
    Ask::Waits(0, 4),
    Ask::Waits(0, 8),
    Ask::Take(2),
    Ask::Take(4),
    Ask::Take(8),
    Ask::Track(1, "u3"),
    Ask::Take(2),
    Ask::Take(4),
    Ask::Take(8),
    Ask::List,
];

const ANSWERS: &str = "Ok(());Ok(false);Ok(true);Ok(true);;S;T;a.1.3;D;D;D;a.1.1 a.1.2 a.1.3 ;";

#[test]
fn whoever_has_taken_all_is_owed_nothing(rt: HostRuntime) -> Result<(), Fail> {
    let alloc = rt.alloc();
    let mut shard = shard_after(alloc, THREE)?;
    let text = said(alloc, &mut shard, BEHIND)?;
    assert!(rt; text.as_str() == ANSWERS, "{text}");
    Ok(())
}
