//! Merges, a checkpoint and rebirths that are refused memory.
//!
//! A test here plays one run, and makes what was refused memory once more. By itself it has ample memory; `tests/refusals`
//! runs it with each growth refused in turn.

use crate::desk::{
    Ask, ROOM, items_text, life, references, row_references, said, shard_after, shard_of,
};
use crate::merge_desk::{Telling, replica, told};
use delta_range::Delta;
use orswot_core::{Form, Told};
use presence_base::Dot;
use presence_journal::{Item, Pairs};
use std::alloc::{AllocError, Global};
use std::test::Fail;
use tracker_shard::{Shard, ShardFault, Sub};

// Two rows, and then the first one's removal.
const TWO_ROWS: Telling = Telling {
    node: "b",
    from: 0,
    to: 2,
    extras: &[],
    live: &[(1, ROOM, "u2"), (2, ROOM, "u3")],
};

const REMOVAL: Telling = Telling {
    node: "b",
    from: 2,
    to: 3,
    extras: &[1],
    live: &[],
};

// All counts that there are, and no row.
const ALL_COUNTS: Telling = Telling {
    node: "b",
    from: 0,
    to: 4_611_686_018_427_387_904,
    extras: &[],
    live: &[],
};

// The other node is heard, and a subscriber has taken its state.
const HEARD: &[Ask] = &[Ask::Heard("b", 0), Ask::Subscribe(ROOM), Ask::Take(2)];

// Own rows and another's, two cuts, and a subscriber that has taken its state, and for which a shout waits.
const FILLED: &[Ask] = &[
    Ask::Track(5, "u1"),
    Ask::Cut,
    Ask::Heard("b", 0),
    Ask::Merge(TWO_ROWS),
    Ask::Subscribe(ROOM),
    Ask::Take(5),
    Ask::Update(5, "u1"),
    Ask::Cut,
    Ask::Shout(ROOM),
];

// An own row that replaced one and one that went since a cut, another's rows, and a subscriber that has taken its state.
const LIVED: &[Ask] = &[
    Ask::Track(5, "u1"),
    Ask::Track(5, "u2"),
    Ask::Cut,
    Ask::Heard("b", 0),
    Ask::Merge(TWO_ROWS),
    Ask::Update(5, "u1"),
    Ask::Untrack(5, "u2"),
    Ask::Subscribe(ROOM),
    Ask::Take(8),
];

// The shard after these calls, unless one of them is refused memory.
fn begun_once(alloc: Global, asks: &[Ask]) -> Result<Option<Shard>, AllocError> {
    let mut shard = shard_of(alloc, "a")?;
    let text = said(alloc, &mut shard, asks)?;
    if text.as_str().contains("OutOfMemory") {
        return Ok(None);
    }
    Ok(Some(shard))
}

// The shard after these calls, which begin anew where memory was refused.
fn begun(alloc: Global, asks: &[Ask]) -> Result<Shard, AllocError> {
    match begun_once(alloc, asks) {
        Ok(Some(shard)) => Ok(shard),
        _ => shard_after(alloc, asks),
    }
}

fn made(alloc: Global, telling: &Telling) -> Result<Told, AllocError> {
    match told(alloc, telling) {
        Ok(told) => Ok(told),
        Err(_) => told(alloc, telling),
    }
}

// What a shard is: its entries, how it sees `b`, whether something waits for the subscriber of this number, and all that it
// would tell.
fn seen(alloc: Global, shard: &Shard, number: u64) -> Result<String, AllocError> {
    let b = replica(alloc, "b")?;
    let status = shard.status(&b);
    let waits = shard.waits(&Sub { slot: 0, number });
    let last = shard.journal().last_number();
    let kept = shard.journal().entries().len();
    let full = shard.full(alloc, Form::One)?;
    let covered = full.ranges().len();
    let top = shard.top(&b);
    let extras = references(alloc, full.extras())?;
    let rows = row_references(alloc, full.live())?;
    format!(in alloc; "{last} {kept} {status:?} {top} {waits:?} {covered}: {extras}: {rows}")
}

fn seen_again(alloc: Global, shard: &Shard, number: u64) -> Result<String, AllocError> {
    match seen(alloc, shard, number) {
        Ok(text) => Ok(text),
        Err(_) => seen(alloc, shard, number),
    }
}

// Whether what is told is merged: a call that is refused memory leaves the shard as it was, and is made once more.
fn is_merged(alloc: Global, shard: &mut Shard, telling: &Telling) -> Result<bool, AllocError> {
    let told = made(alloc, telling)?;
    let before = seen_again(alloc, shard, 2)?;
    match shard.merge(alloc, &told) {
        Err(ShardFault::OutOfMemory) => {
            let after = seen_again(alloc, shard, 2)?;
            Ok(before.as_str() == after.as_str() && shard.merge(alloc, &told) == Ok(()))
        }
        answer => Ok(answer == Ok(())),
    }
}

// Whether the journal begins anew: a call that is refused memory leaves the shard as it was, and is made once more.
fn is_begun_anew(alloc: Global, shard: &mut Shard) -> Result<bool, AllocError> {
    let before = seen_again(alloc, shard, 5)?;
    match shard.checkpoint(alloc) {
        Err(ShardFault::OutOfMemory) => {
            let after = seen_again(alloc, shard, 5)?;
            Ok(before.as_str() == after.as_str() && shard.checkpoint(alloc) == Ok(()))
        }
        answer => Ok(answer == Ok(())),
    }
}

// Whether the one own row goes on under a new dot of this incarnation: a call that is refused memory leaves the shard as it
// was, and is made once more.
fn is_reborn(
    alloc: Global,
    shard: &mut Shard,
    incarnation: u64,
    old: &Dot,
) -> Result<bool, AllocError> {
    let before = seen_again(alloc, shard, 8)?;
    match shard.rebirth(alloc, incarnation) {
        Err(ShardFault::OutOfMemory) => {
            let after = seen_again(alloc, shard, 8)?;
            let answer = shard.rebirth(alloc, incarnation);
            Ok(before.as_str() == after.as_str() && is_pair(&answer, incarnation, old))
        }
        answer => Ok(is_pair(&answer, incarnation, old)),
    }
}

fn is_pair(answer: &Result<Pairs, ShardFault>, incarnation: u64, old: &Dot) -> bool {
    let Ok(pairs) = answer else {
        return false;
    };
    let pairs = pairs.as_slice();
    match pairs.first() {
        Some((new, was)) => {
            let is_next = new.count == 1 && new.replica.incarnation == incarnation;
            is_next && pairs.len() == 1 && *was == *old
        }
        None => false,
    }
}

// What a cut tells, which is made once more where it was refused memory.
fn cut_of(alloc: Global, shard: &mut Shard) -> Result<Delta, ShardFault> {
    match shard.cut(alloc) {
        Err(ShardFault::OutOfMemory) => shard.cut(alloc),
        answer => answer,
    }
}

// Whether a cut tells one count and its row, and nothing that is older.
fn is_first_cut(alloc: Global, shard: &mut Shard) -> bool {
    let Ok(delta) = cut_of(alloc, shard) else {
        return false;
    };
    let counts = delta.from() == 0 && delta.to() == 1;
    counts && delta.older().is_empty() && delta.live().len() == 1
}

// Whether the shard answers so, asked once more where memory was refused.
fn is_answered(alloc: Global, shard: &mut Shard, ask: Ask, want: &str) -> Result<bool, AllocError> {
    let asks = [ask];
    let text = match said(alloc, shard, &asks) {
        Ok(text) if text.as_str() != "OutOfMemory;" => text,
        _ => said(alloc, shard, &asks)?,
    };
    Ok(text.as_str() == want)
}

// What waits for the subscriber of this number.
fn taken(alloc: Global, shard: &mut Shard, number: u64) -> Result<Vec<Item>, ShardFault> {
    let sub = Sub { slot: 0, number };
    match shard.take(alloc, None, &sub, 256) {
        Err(ShardFault::OutOfMemory) => shard.take(alloc, None, &sub, 256),
        answer => answer,
    }
}

// Whether this waits for the subscriber of this number.
fn is_told(alloc: Global, shard: &mut Shard, number: u64, want: &str) -> Result<bool, AllocError> {
    let Ok(items) = taken(alloc, shard, number) else {
        return Ok(false);
    };
    let text = match items_text(alloc, items.as_slice()) {
        Ok(text) => text,
        Err(_) => items_text(alloc, items.as_slice())?,
    };
    Ok(text.as_str() == want)
}

// The removal comes first, and shows nothing; then both rows, of which the first one stays hidden. Behind all counts, which
// hide the other one, how far the node is known and all that is told cost a look, also where memory was refused behind the
// merge.
#[test]
fn merge_refusals(rt: HostRuntime) -> Result<(), Fail> {
    let alloc = rt.alloc();
    let mut shard = begun(alloc, HEARD)?;
    assert!(rt; is_merged(alloc, &mut shard, &REMOVAL)?);
    assert!(rt; is_answered(alloc, &mut shard, Ask::Top("b"), "1;")?);
    assert!(rt; is_answered(alloc, &mut shard, Ask::List, ";")?);
    assert!(rt; is_merged(alloc, &mut shard, &TWO_ROWS)?);
    assert!(rt; is_answered(alloc, &mut shard, Ask::Top("b"), "3;")?);
    assert!(rt; is_answered(alloc, &mut shard, Ask::List, "b.1.2 ;")?);
    assert!(rt; is_told(alloc, &mut shard, 2, "+ b.1.2 - ")?);
    assert!(rt; is_merged(alloc, &mut shard, &ALL_COUNTS)?);
    assert!(rt; is_answered(alloc, &mut shard, Ask::Top("b"), "4611686018427387904;")?);
    assert!(rt;
        is_answered(
            alloc,
            &mut shard,
            Ask::ToldFrom(0),
            "0-4611686018427387904: : ;"
        )?
    );
    assert!(rt; is_told(alloc, &mut shard, 2, "+ - b.1.2 ")?);
    Ok(())
}

// The checkpoint has the number 10, and the journal is empty then; the rows and the kept deltas are as before. The
// subscriber is behind, and takes a state.
#[test]
fn checkpoint_refusals(rt: HostRuntime) -> Result<(), Fail> {
    let alloc = rt.alloc();
    let mut shard = begun(alloc, FILLED)?;
    assert!(rt; is_begun_anew(alloc, &mut shard)?);
    assert!(rt; shard.journal().entries().is_empty());
    assert!(rt; shard.journal().last_number() == 10);
    assert!(rt; is_answered(alloc, &mut shard, Ask::ToldFrom(1), "0-2: : a.1.2 ;")?);
    assert!(rt; is_answered(alloc, &mut shard, Ask::Top("b"), "2;")?);
    assert!(rt; is_answered(alloc, &mut shard, Ask::List, "a.1.2 b.1.1 b.1.2 ;")?);
    assert!(rt; is_told(alloc, &mut shard, 5, "state a.1.2 b.1.1 b.1.2 ")?);
    Ok(())
}

fn own_dot(alloc: Global, incarnation: u64, count: u64) -> Result<Dot, AllocError> {
    let replica = match life(alloc, incarnation) {
        Ok(replica) => replica,
        Err(_) => life(alloc, incarnation)?,
    };
    Ok(Dot { replica, count })
}

// What was told, what went since and what is kept are of the old replica. Where memory was refused behind the entry, the next
// call goes on from there.
#[test]
fn rebirth_refusals(rt: HostRuntime) -> Result<(), Fail> {
    let alloc = rt.alloc();
    let mut shard = begun(alloc, LIVED)?;
    let old = own_dot(alloc, 1, 3)?;
    assert!(rt; is_reborn(alloc, &mut shard, 2, &old)?);
    assert!(rt;
        is_answered(
            alloc,
            &mut shard,
            Ask::ToldFrom(0),
            "0-1:0-2: : a.2.1 b.1.1 b.1.2 ;"
        )?
    );
    assert!(rt; is_answered(alloc, &mut shard, Ask::List, "a.2.1 b.1.1 b.1.2 ;")?);
    assert!(rt; is_told(alloc, &mut shard, 8, "+ a.2.1 - a.1.3 ")?);
    assert!(rt; is_first_cut(alloc, &mut shard));
    let old = own_dot(alloc, 2, 1)?;
    assert!(rt; is_reborn(alloc, &mut shard, 4, &old)?);
    assert!(rt; is_first_cut(alloc, &mut shard));
    assert!(rt; is_told(alloc, &mut shard, 8, "+ a.4.1 - a.2.1 ")?);
    assert!(rt; is_answered(alloc, &mut shard, Ask::Top("b"), "2;")?);
    Ok(())
}
