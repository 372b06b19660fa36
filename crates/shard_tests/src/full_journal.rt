//! A journal that is full of lists, and a subscriber for whom too much waits.

use crate::desk::{Ask, ROOM, said, shard_after};
use std::test::Fail;

// A row, and another node that tells one.
const FIRST: &[Ask] = &[Ask::Track(1, "u1"), Ask::Heard("b", 0)];

// As many lists as find room behind the Start and those two.
const LISTS: u32 = 262_141;

// What makes no entry is answered as ever, and a subscriber that isn't there comes before the full journal. The checkpoint
// has the next number, and the numbers go on behind it.
const AT_A_FULL_JOURNAL: &[Ask] = &[
    Ask::List,
    Ask::Take(9),
    Ask::Rebirth(1),
    Ask::Rebirth(2),
    Ask::ToldFrom(0),
    Ask::LiveCount,
    Ask::Top("a"),
    Ask::Status("b"),
    Ask::LastNumber,
    Ask::Checkpoint,
    Ask::LastNumber,
    Ask::List,
    Ask::LastNumber,
    Ask::Rebirth(2),
];

const ANSWERS: &str =
    "JournalFull;NoSub;JournalFull;JournalFull;0-1: : a.1.1 ;1;1;Up;262143;Ok(());262144;a.1.1 ;262145;a.2.1 from a.1.1 ;";

#[test]
fn a_full_journal_begins_again(rt: HostRuntime) -> Result<(), Fail> {
    let alloc = rt.alloc();
    let mut shard = shard_after(alloc, FIRST)?;
    for _ in 0..LISTS {
        assert!(rt; said(alloc, &mut shard, &[Ask::List])?.as_str() == "a.1.1 ;");
    }
    let text = said(alloc, &mut shard, AT_A_FULL_JOURNAL)?;
    assert!(rt; text.as_str() == ANSWERS, "{text}");
    Ok(())
}

// One item more than waits at most, and then a shout.
const MISSED: &[Ask] = &[
    Ask::Subscribe(ROOM),
    Ask::Take(1),
    Ask::Tracks(257),
    Ask::Shout(ROOM),
];

#[test]
fn what_was_missed_is_one_state(rt: HostRuntime) -> Result<(), Fail> {
    let alloc = rt.alloc();
    let mut shard = shard_after(alloc, MISSED)?;
    let text = said(alloc, &mut shard, &[Ask::Take(1), Ask::Take(1)])?;
    assert!(rt; text.as_str() == "S;;", "{text}");
    Ok(())
}
