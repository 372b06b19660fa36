//! Rebirths: which dots the own rows go on under, what subscribers and other nodes are told of it, and when one is refused.

use crate::desk::{
    Ask, ROOM, answers, life, references, row_references, said, shard_after, shard_of,
};
use orswot_core::Form;
use presence_base::{Dot, Row, ref_text};
use presence_journal::Item;
use std::alloc::{AllocError, Global};
use std::test::Fail;
use tracker_shard::{Shard, Sub};

// A row goes on, and who looks at its topic gets one diff of it.
const ONE_ROW: &[Ask] = &[
    Ask::Subscribe(ROOM),
    Ask::Take(1),
    Ask::Track(5, "u1"),
    Ask::Take(1),
    Ask::Rebirth(2),
    Ask::TakeRows(1),
    Ask::List,
    Ask::Incarnation,
    Ask::StatusAs(1),
    Ask::StatusAs(2),
    Ask::Track(5, "u2"),
    Ask::TakeRows(1),
];

// Rows go on in order of their dots, whatever their keys, and counts without a row leave no gap. All of them are told by the
// next cut.
const TWO_ROWS: &[Ask] = &[
    Ask::Track(5, "z"),
    Ask::Track(5, "y"),
    Ask::Update(5, "y"),
    Ask::Rebirth(2),
    Ask::Track(5, "u3"),
    Ask::Cut,
];

// No own incarnation, none that is lower, none above 2^62, and none that was heard; and a refusal makes no entry.
const REFUSED: &[Ask] = &[
    Ask::Rebirth(1),
    Ask::Rebirth(0),
    Ask::Rebirth(4_611_686_018_427_387_905),
    Ask::HeardAs(2),
    Ask::Rebirth(2),
    Ask::LastNumber,
    Ask::Rebirth(3),
    Ask::Rebirth(2),
    Ask::Rebirth(4_611_686_018_427_387_904),
    Ask::Rebirth(4_611_686_018_427_387_904),
    Ask::Incarnation,
];

const TWICE: &[Ask] = &[
    Ask::Track(5, "u1"),
    Ask::Rebirth(2),
    Ask::Rebirth(5),
    Ask::Update(5, "u1"),
    Ask::Rebirth(6),
    Ask::List,
    Ask::LastNumber,
];

const BEHIND_A_CHECKPOINT: &[Ask] = &[
    Ask::Track(5, "u1"),
    Ask::Rebirth(2),
    Ask::Checkpoint,
    Ask::Incarnation,
    Ask::StatusAs(1),
    Ask::List,
    Ask::Rebirth(2),
    Ask::Track(5, "u2"),
    Ask::Cut,
    Ask::Checkpoint,
    Ask::Rebirth(3),
    Ask::List,
];

// What went of the old replica, and was not told yet, is not told of the new one; nor are its kept deltas.
const NOTHING_LEFT_TO_TELL: &[Ask] = &[
    Ask::Track(5, "u1"),
    Ask::Track(5, "u2"),
    Ask::Cut,
    Ask::Untrack(5, "u1"),
    Ask::Rebirth(2),
    Ask::ToldFrom(0),
    Ask::ToldFrom(2),
    Ask::Cut,
    Ask::ToldFrom(0),
    Ask::Cut,
];

// The chain of a row goes with its old dot. That of the count 2 would tell that the new count 1 went with it, where the row of
// that one stays.
const WITHOUT_CHAINS: &[Ask] = &[
    Ask::Track(5, "u1"),
    Ask::Update(5, "u1"),
    Ask::Track(5, "u2"),
    Ask::Rebirth(2),
    Ask::Cut,
    Ask::Untrack(5, "u2"),
    Ask::Cut,
];

// A chain of the new replica is as ever, and goes in turn.
const CHAINS_OF_ITS_OWN: &[Ask] = &[
    Ask::Track(5, "u1"),
    Ask::Rebirth(2),
    Ask::Cut,
    Ask::Update(5, "u1"),
    Ask::Cut,
    Ask::Untrack(5, "u1"),
    Ask::Cut,
    Ask::Rebirth(3),
    Ask::Cut,
];

// Who looks at the topic has one diff, who looks at another has none, and who took no state has one state. What waited before
// comes first.
const WAITING: &[Ask] = &[
    Ask::Track(5, "z"),
    Ask::Subscribe(ROOM),
    Ask::Subscribe("room:attic"),
    Ask::Subscribe(ROOM),
    Ask::Take(2),
    Ask::Take(3),
    Ask::Track(5, "y"),
    Ask::Rebirth(2),
    Ask::Waits(0, 3),
    Ask::TakeRows(2),
    Ask::TakeRows(2),
    Ask::TakeRows(4),
    Ask::TakeRows(4),
];

// Nothing is shown of a shard without rows, and its counts begin anew.
const WITHOUT_ROWS: &[Ask] = &[
    Ask::Track(5, "u1"),
    Ask::Untrack(5, "u1"),
    Ask::Subscribe(ROOM),
    Ask::Take(3),
    Ask::Rebirth(2),
    Ask::Waits(0, 3),
    Ask::Cut,
    Ask::Track(5, "u1"),
    Ask::Cut,
];

#[test]
fn worked_rebirths(rt: HostRuntime) -> Result<(), Fail> {
    for (asks, want) in [
        (
            ONE_ROW,
            "Ok(Sub { slot: 0, number: 1 });S;a.1.1;D;a.2.1 from a.1.1 ;+ a.2.1 - a.1.1 ;a.2.1 ;2;Gone;Up;a.2.2;+ a.2.2 - ;",
        ),
        (
            TWO_ROWS,
            "a.1.1;a.1.2;a.1.3;a.2.1 from a.1.1 a.2.2 from a.1.3 ;a.2.3;0-3:: a.2.1 a.2.2 a.2.3 ;",
        ),
        (
            REFUSED,
            "BadIncarnation;BadIncarnation;BadIncarnation;Ok(());BadIncarnation;1;;BadIncarnation;;BadIncarnation;4611686018427387904;",
        ),
        (
            TWICE,
            "a.1.1;a.2.1 from a.1.1 ;a.5.1 from a.2.1 ;a.5.2;a.6.1 from a.5.2 ;a.6.1 ;6;",
        ),
        (
            BEHIND_A_CHECKPOINT,
            "a.1.1;a.2.1 from a.1.1 ;Ok(());2;Gone;a.2.1 ;BadIncarnation;a.2.2;0-2:: a.2.1 a.2.2 ;Ok(());a.3.1 from a.2.1 a.3.2 from a.2.2 ;a.3.1 a.3.2 ;",
        ),
        (
            NOTHING_LEFT_TO_TELL,
            "a.1.1;a.1.2;0-2:: a.1.1 a.1.2 ;a.1.1 ;a.2.1 from a.1.2 ;0-1: : a.2.1 ;0-1: : a.2.1 ;0-1:: a.2.1 ;0-1: : a.2.1 ;1-1:: ;",
        ),
        (
            WITHOUT_CHAINS,
            "a.1.1;a.1.2;a.1.3;a.2.1 from a.1.2 a.2.2 from a.1.3 ;0-2:: a.2.1 a.2.2 ;a.2.2 ;2-3: 1-2: ;",
        ),
        (
            CHAINS_OF_ITS_OWN,
            "a.1.1;a.2.1 from a.1.1 ;0-1:: a.2.1 ;a.2.2;1-2: 0-1: a.2.2 ;a.2.2 ;2-3: 0-2: ;;0-0:: ;",
        ),
        (
            WAITING,
            "a.1.1;Ok(Sub { slot: 0, number: 2 });Ok(Sub { slot: 0, number: 3 });Ok(Sub { slot: 0, number: 4 });S;S;a.1.2;a.2.1 from a.1.1 a.2.2 from a.1.2 ;Ok(false);+ a.1.2 - + a.2.2 a.2.1 - a.1.2 a.1.1 ;;state a.2.2 a.2.1 ;;",
        ),
        (
            WITHOUT_ROWS,
            "a.1.1;a.1.1 ;Ok(Sub { slot: 0, number: 3 });S;;Ok(false);0-0:: ;a.2.1;0-1:: a.2.1 ;",
        ),
    ] {
        assert!(rt; answers(rt.alloc(), asks, want)?, "{want}");
    }
    Ok(())
}

// A row with all that it has: its reference, its topic, key and session, its meta, and the reference of the one before.
fn row_text(alloc: Global, dot: &Dot, row: &Row) -> Result<String, AllocError> {
    let dot = ref_text(alloc, dot)?;
    let text = format!(in alloc;
        "{dot} {} {} {} {}",
        row.topic.as_str(),
        row.key.as_str(),
        row.pid,
        row.meta.text()
    )?;
    let Some(old) = row.prev else {
        return Ok(text);
    };
    let old = ref_text(alloc, &old)?;
    format!(in alloc; "{text} from {old}")
}

fn rows_text(alloc: Global, rows: &[(Dot, Row)]) -> Result<String, AllocError> {
    let mut text = String::new(alloc);
    for (dot, row) in rows {
        let row = row_text(alloc, dot, row)?;
        text.push_str(row.as_str())?;
        text.push(';')?;
    }
    Ok(text)
}

// The diff that waits for the first subscriber, with all that its rows have.
fn whole_diff(alloc: Global, shard: &mut Shard) -> Result<String, AllocError> {
    let sub = Sub { slot: 0, number: 1 };
    let Ok(items) = shard.take(alloc, None, &sub, 1) else {
        return Err(AllocError);
    };
    let Some(Item::Diff(shared)) = items.first() else {
        return String::from_str(alloc, "no diff");
    };
    let joins = rows_text(alloc, shared.diff().joins.as_slice())?;
    let leaves = rows_text(alloc, shared.diff().leaves.as_slice())?;
    format!(in alloc; "+ {joins} - {leaves}")
}

// The topic, the key, the session and the meta stay, also of a row that replaced one: what stands before it is its old dot then.
#[test]
fn a_row_goes_on_with_all_that_it_has(rt: HostRuntime) -> Result<(), Fail> {
    let alloc = rt.alloc();
    let mut shard = shard_of(alloc, "a")?;
    let before = [
        Ask::Subscribe(ROOM),
        Ask::Take(1),
        Ask::Track(5, "u1"),
        Ask::Take(1),
        Ask::Rebirth(2),
    ];
    said(alloc, &mut shard, &before)?;
    assert_eq!(rt;
        whole_diff(alloc, &mut shard)?.as_str(),
        "+ a.2.1 room:lobby u1 5 {\"x\":1} from a.1.1; - a.1.1 room:lobby u1 5 {\"x\":1};"
    );
    let before = [Ask::Update(5, "u1"), Ask::Take(1), Ask::Rebirth(3)];
    said(alloc, &mut shard, &before)?;
    assert_eq!(rt;
        whole_diff(alloc, &mut shard)?.as_str(),
        "+ a.3.1 room:lobby u1 5 {\"x\":1} from a.2.2; - a.2.2 room:lobby u1 5 {\"x\":1} from a.2.1;"
    );
    Ok(())
}

// All that the shard knows: a dot at the end of each range, which begins behind no count, and the rows.
fn full_text(alloc: Global, shard: &Shard) -> Result<String, AllocError> {
    let full = shard.full(alloc, Form::Two)?;
    let mut ends = Vec::new(alloc);
    for range in full.ranges() {
        ends.push(Dot {
            replica: range.0,
            count: range.2,
        })?;
    }
    let ends = references(alloc, &ends)?;
    let rows = row_references(alloc, full.live())?;
    format!(in alloc; "{ends}: {rows}")
}

// Own rows, and one that `b` told.
fn with_a_row_of_b(alloc: Global) -> Result<Shard, AllocError> {
    let mut other = shard_of(alloc, "b")?;
    said(alloc, &mut other, &[Ask::Track(7, "u7")])?;
    let told = other.full(alloc, Form::Two)?;
    let mut shard = shard_after(alloc, &[Ask::Track(5, "u1"), Ask::Heard("b", 0)])?;
    match shard.merge(alloc, &told) {
        Ok(()) => Ok(shard),
        Err(_) => Err(AllocError),
    }
}

// Rows of other nodes stay as they are. Of the old replica nothing is heard any more, and nothing is told.
#[test]
fn rows_of_others_stay(rt: HostRuntime) -> Result<(), Fail> {
    let alloc = rt.alloc();
    let mut shard = with_a_row_of_b(alloc)?;
    let old = shard.full(alloc, Form::Two)?;
    assert_eq!(rt;
        full_text(alloc, &shard)?.as_str(),
        "a.1.1 b.1.1 : a.1.1 b.1.1 "
    );
    let text = said(alloc, &mut shard, &[Ask::Rebirth(2), Ask::List])?;
    assert_eq!(rt; text.as_str(), "a.2.1 from a.1.1 ;a.2.1 b.1.1 ;");
    assert_eq!(rt;
        full_text(alloc, &shard)?.as_str(),
        "a.2.1 b.1.1 : a.2.1 b.1.1 "
    );
    assert!(rt; shard.merge(alloc, &old).is_ok());
    let asks = [
        Ask::HeardAs(1),
        Ask::List,
        Ask::StatusAs(1),
        Ask::Top("a"),
        Ask::Top("b"),
    ];
    let text = said(alloc, &mut shard, &asks)?;
    assert_eq!(rt; text.as_str(), "Ok(());a.2.1 b.1.1 ;Gone;0;1;");
    assert_eq!(rt;
        full_text(alloc, &shard)?.as_str(),
        "a.2.1 b.1.1 : a.2.1 b.1.1 "
    );
    Ok(())
}

// What others tell of the new replica is its own, and is not heard.
#[test]
fn own_rows_told_back_are_not_heard(rt: HostRuntime) -> Result<(), Fail> {
    let alloc = rt.alloc();
    let mut shard = shard_after(alloc, &[Ask::Track(5, "u1"), Ask::Rebirth(2)])?;
    let told = shard.full(alloc, Form::Two)?;
    said(alloc, &mut shard, &[Ask::Untrack(5, "u1")])?;
    assert!(rt; shard.merge(alloc, &told).is_ok());
    let text = said(alloc, &mut shard, &[Ask::List, Ask::Cut])?;
    assert_eq!(rt; text.as_str(), ";0-2:: ;");
    Ok(())
}

const ONE_TRACK: &[Ask] = &[Ask::Track(7, "u7")];

const TRACK_AND_UNTRACK: &[Ask] = &[Ask::Track(7, "u7"), Ask::Untrack(7, "u7")];

// An incarnation of which anything was told is not taken, though the node was not heard under it: its rows, or counts alone.
#[test]
fn an_incarnation_that_was_told_is_not_taken(rt: HostRuntime) -> Result<(), Fail> {
    let alloc = rt.alloc();
    for before in [ONE_TRACK, TRACK_AND_UNTRACK] {
        let mut other = Shard::new(alloc, life(alloc, 2)?);
        said(alloc, &mut other, before)?;
        let told = other.full(alloc, Form::Two)?;
        let mut shard = shard_of(alloc, "a")?;
        assert!(rt; shard.merge(alloc, &told).is_ok());
        let asks = [Ask::StatusAs(2), Ask::Rebirth(2), Ask::Rebirth(3)];
        let text = said(alloc, &mut shard, &asks)?;
        assert_eq!(rt; text.as_str(), "Unheard;BadIncarnation;;");
    }
    Ok(())
}
