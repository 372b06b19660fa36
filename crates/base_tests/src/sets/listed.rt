// The dots of lists: what changes between two lists of a topic costs some pieces, and no more; the same dots are the same,
// however they lie.
use super::rows::{replica, row};
use presence_base::{Dot, Row};
use presence_journal::{ListedDots, dots_of_rows};
use std::alloc::{AllocError, Global};
use std::test::Fail;

// A new piece takes at most 128 dots of 56 bytes and 128 more, each other one 8 of its place, of which a list of a thousand dots
// has sixteen and some.
const ONE_CHANGE: u64 = 2 * (128 * 56 + 128) + 40 * 8;

// The first of these dots and those behind it have these counts.
fn rows_of(alloc: Global, counts: &[u64]) -> Result<Vec<(Dot, Row)>, AllocError> {
    let replica = replica(alloc)?;
    let row = row(alloc, "ann")?;
    let mut rows = Vec::new(alloc);
    for count in counts {
        let dot = Dot {
            replica,
            count: *count,
        };
        rows.push((dot, row.clone()?))?;
    }
    Ok(rows)
}

// The list of these counts behind the one before, and whether it has the dots of a list that shares nothing.
fn listed(
    alloc: Global,
    counts: &[u64],
    before: Option<&ListedDots>,
) -> Result<(ListedDots, bool), AllocError> {
    let rows = rows_of(alloc, counts)?;
    let list = ListedDots::of_rows(alloc, &rows, before)?;
    let alone = ListedDots::new(alloc, dots_of_rows(alloc, &rows)?)?;
    let is_same = list.is_same(&alone) && alone.is_same(&list);
    Ok((list, is_same))
}

fn thousand(alloc: Global) -> Result<Vec<u64>, AllocError> {
    let mut counts = Vec::new(alloc);
    for count in 1..1_001 {
        counts.push(count)?;
    }
    Ok(counts)
}

// A count comes at the front, one goes, or one comes in the place of another, by turns.
fn change(counts: &mut Vec<u64>, turn: u64) -> Result<(), AllocError> {
    let place = (turn % 27) as usize * 37;
    if turn % 3 == 0 || place >= counts.len() {
        counts.insert(0, 2_000 + turn % 1_000)?;
    } else if turn % 3 == 1 {
        let _gone = counts.remove(place);
    } else {
        counts[place] = 3_000 + turn % 1_000;
    }
    Ok(())
}

#[test]
fn one_change_takes_little(rt: HostRuntime) -> Result<(), Fail> {
    let alloc = rt.alloc();
    let mut counts = thousand(alloc)?;
    let (mut last, is_same) = listed(alloc, counts.as_slice(), None)?;
    assert!(rt; is_same && last.new_bytes() > 1_000 * 56);
    for turn in 0..300u64 {
        change(&mut counts, turn)?;
        let (list, is_same) = listed(alloc, counts.as_slice(), Some(&last))?;
        assert!(rt; is_same && !list.is_same(&last));
        assert!(rt; list.new_bytes() <= ONE_CHANGE);
        last = list;
    }
    Ok(())
}

#[test]
fn nothing_new_takes_places_alone(rt: HostRuntime) -> Result<(), Fail> {
    let alloc = rt.alloc();
    let counts = thousand(alloc)?;
    let (first, _) = listed(alloc, counts.as_slice(), None)?;
    let (second, is_same) = listed(alloc, counts.as_slice(), Some(&first))?;
    assert!(rt; is_same && second.is_same(&first));
    assert!(rt; second.new_bytes() <= 16 * 8);
    Ok(())
}

#[test]
fn few_and_none(rt: HostRuntime) -> Result<(), Fail> {
    let alloc = rt.alloc();
    let (none, is_same) = listed(alloc, &[], None)?;
    assert!(rt; is_same && none.new_bytes() == 0);
    let (few, is_same) = listed(alloc, &[4, 2, 9], Some(&none))?;
    assert!(rt; is_same && few.new_bytes() == 3 * 56 && !few.is_same(&none) && !none.is_same(&few));
    let (more, is_same) = listed(alloc, &[4, 2, 9, 10], Some(&few))?;
    assert!(rt; is_same && !more.is_same(&few) && !few.is_same(&more));
    assert_eq!(rt; more.to_vec(alloc)?.len(), 4);
    Ok(())
}
