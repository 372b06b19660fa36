//! Rows that are updated by turns: their chains get a run an update, and become one run of all counts beyond 64. A cut tells
//! of it what has no row.

use crate::desk::{Ask, said, shard_of};
use std::alloc::{AllocError, Global};
use std::test::Fail;
use tracker_shard::Shard;

const BY_TURNS: &[Ask] = &[Ask::Update(5, "u1"), Ask::Update(5, "u2")];

// Three rows under the counts 1, 2 and 3, and then so many updates of the second and the third one by turns.
fn after_turns(alloc: Global, turns: u32) -> Result<Shard, AllocError> {
    let mut shard = shard_of(alloc, "a")?;
    let tracks = [
        Ask::Track(5, "quiet"),
        Ask::Track(5, "u1"),
        Ask::Track(5, "u2"),
        Ask::Cut,
    ];
    said(alloc, &mut shard, &tracks)?;
    for _ in 0..turns {
        said(alloc, &mut shard, BY_TURNS)?;
    }
    Ok(shard)
}

// The 64th update leaves 64 runs of one count each.
#[test]
fn chains_of_64_runs_are_told_run_by_run(rt: HostRuntime) -> Result<(), Fail> {
    let alloc = rt.alloc();
    let mut shard = after_turns(alloc, 64)?;
    let mut want = String::from_str(alloc, "3-131: 1-3: a.1.130 a.1.131 ;a.1.130 ;131-132:")?;
    for turn in 1..64_u64 {
        let run = format!(in alloc; " {}-{}", 2 * turn - 1, 2 * turn)?;
        want.push_str(run.as_str())?;
    }
    want.push_str(" 127-128 129-130: ;")?;
    let asks = [Ask::Cut, Ask::Untrack(5, "u1"), Ask::Cut];
    let told = said(alloc, &mut shard, &asks)?;
    assert_eq!(rt; told.as_str(), want.as_str());
    Ok(())
}

const BEYOND: &str =
    "3-133: 1-3: a.1.132 a.1.133 ;a.1.132 ;133-134: 1-130 131-132: ;a.1.135;134-135: 1-131 132-133: a.1.135 ;a.1.1 ;135-136: 0-1: ;";

const CUTS: &[Ask] = &[
    Ask::Cut,
    Ask::Untrack(5, "u1"),
    Ask::Cut,
    Ask::Update(5, "u2"),
    Ask::Cut,
    Ask::Untrack(5, "quiet"),
    Ask::Cut,
];

// With the 65th both chains are one run from the first count on, in which the first row is live until it goes.
#[test]
fn longer_chains_are_one_run(rt: HostRuntime) -> Result<(), Fail> {
    let alloc = rt.alloc();
    let mut shard = after_turns(alloc, 65)?;
    let told = said(alloc, &mut shard, CUTS)?;
    assert_eq!(rt; told.as_str(), BEYOND);
    Ok(())
}

#[test]
fn long_chains_stay_behind_checkpoints(rt: HostRuntime) -> Result<(), Fail> {
    let alloc = rt.alloc();
    let mut shard = after_turns(alloc, 65)?;
    let mut told = String::new(alloc);
    for ask in CUTS {
        said(alloc, &mut shard, &[Ask::Checkpoint])?;
        let answer = said(alloc, &mut shard, &[*ask])?;
        told.push_str(answer.as_str())?;
    }
    assert_eq!(rt; told.as_str(), BEYOND);
    Ok(())
}
