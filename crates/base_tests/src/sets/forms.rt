// Told values in the second form: ranges in order, what counts towards the limit, and what a set and a cut tell.
use super::rows::{named, raw_row};
use delta_range::Delta;
use orswot_core::{Form, Orswot, RawRow, RawTold, Told, ToldFault};
use presence_base::{Dot, Replica};
use std::alloc::{AllocError, Global};
use std::test::Fail;

// A node, one of its lives, and the two ends of a range.
type End = (&'static str, u64, u64, u64);

fn ranges_of(alloc: Global, ends: &[End]) -> Result<Vec<(Replica, u64, u64)>, AllocError> {
    let mut ranges = Vec::new(alloc);
    for (name, incarnation, from, to) in ends {
        ranges.push((named(alloc, name, *incarnation)?, *from, *to))?;
    }
    Ok(ranges)
}

fn raw(ranges: Vec<(Replica, u64, u64)>, live: Vec<(Dot, RawRow)>, alloc: Global) -> RawTold {
    RawTold {
        form: Form::Two,
        ranges,
        extras: Vec::new(alloc),
        live,
    }
}

// What is wrong with these ranges in the second form, on the first of two shards.
fn fault_of(alloc: Global, ends: &[End]) -> Result<Option<ToldFault>, AllocError> {
    let ranges = ranges_of(alloc, ends)?;
    match Told::check(alloc, raw(ranges, Vec::new(alloc), alloc), 0, 2) {
        Ok(_) => Ok(None),
        Err(fault) => Ok(Some(fault)),
    }
}

const IN_ORDER: [&[End]; 7] = [
    &[],
    &[("b", 1, 0, 2), ("b", 1, 2, 4)],
    &[("b", 1, 0, 2), ("b", 1, 3, 4), ("b", 1, 9, 9)],
    &[("b", 1, 2, 2), ("b", 1, 2, 2), ("b", 1, 2, 3)],
    &[("b", 1, 5, 9), ("b", 2, 0, 1), ("c", 1, 0, 1)],
    &[("ab", 7, 5, 9), ("b", 1, 0, 1)],
    &[("b", 1, 0, 4_611_686_018_427_387_904)],
];

#[test]
fn ranges_in_order_are_sound(rt: HostRuntime) -> Result<(), Fail> {
    for ends in IN_ORDER {
        assert_eq!(rt; fault_of(rt.alloc(), ends)?, None);
    }
    Ok(())
}

const ASTRAY: [&[End]; 6] = [
    &[("b", 1, 0, 3), ("b", 1, 2, 4)],
    &[("b", 1, 2, 4), ("b", 1, 0, 1)],
    &[("b", 2, 0, 1), ("b", 1, 0, 1)],
    &[("c", 1, 0, 1), ("b", 1, 0, 1)],
    &[("b", 1, 3, 2), ("b", 1, 2, 4)],
    &[("b", 1, 0, 2), ("b", 1, 3, 4), ("b", 1, 2, 3)],
];

#[test]
fn ranges_out_of_order_are_refused(rt: HostRuntime) -> Result<(), Fail> {
    for ends in ASTRAY {
        assert_eq!(rt; fault_of(rt.alloc(), ends)?, Some(ToldFault::TwoRanges));
    }
    Ok(())
}

#[test]
fn ranges_that_run_down_are_refused(rt: HostRuntime) -> Result<(), Fail> {
    let down = Some(ToldFault::BadRange);
    assert_eq!(rt; fault_of(rt.alloc(), &[("b", 1, 3, 2)])?, down);
    assert_eq!(rt;
        fault_of(rt.alloc(), &[("b", 1, 0, 5), ("b", 1, 5, 3)])?,
        down
    );
    Ok(())
}

#[test]
fn ranges_above_their_limits_are_refused(rt: HostRuntime) -> Result<(), Fail> {
    let limits = Some(ToldFault::RowLimits);
    assert_eq!(rt; fault_of(rt.alloc(), &[("b", 0, 0, 1)])?, limits);
    let above = [("b", 1, 0, 4_611_686_018_427_387_905)];
    assert_eq!(rt; fault_of(rt.alloc(), &above)?, limits);
    Ok(())
}

// So many ranges `(2 n, 2 n + 1]` of `b.1`, and a row at count 1, where there is to be one.
fn many_fault(alloc: Global, ranges: u64, has_row: bool) -> Result<Option<ToldFault>, AllocError> {
    let replica = named(alloc, "b", 1)?;
    let mut all = Vec::new(alloc);
    for at in 0..ranges {
        let from = at.saturating_mul(2);
        all.push((replica, from, from.saturating_add(1)))?;
    }
    let mut live = Vec::new(alloc);
    if has_row {
        live.push(raw_row(alloc, 1, "u1")?)?;
    }
    match Told::check(alloc, raw(all, live, alloc), 0, 2) {
        Ok(_) => Ok(None),
        Err(fault) => Ok(Some(fault)),
    }
}

#[test]
fn ranges_and_rows_are_counted(rt: HostRuntime) -> Result<(), Fail> {
    let alloc = rt.alloc();
    let many = Some(ToldFault::TooMany);
    assert_eq!(rt; many_fault(alloc, 65_536, false)?, None);
    assert_eq!(rt; many_fault(alloc, 65_537, false)?, many);
    assert_eq!(rt; many_fault(alloc, 65_535, true)?, None);
    assert_eq!(rt; many_fault(alloc, 65_536, true)?, many);
    Ok(())
}

fn has_ranges(told: &Told, wanted: &[(u64, u64)]) -> bool {
    told.ranges().len() == wanted.len()
        && told
            .ranges()
            .iter()
            .zip(wanted)
            .all(|(range, ends)| (range.1, range.2) == *ends)
}

fn has_extras(told: &Told, wanted: &[u64]) -> bool {
    told.extras().len() == wanted.len()
        && told
            .extras()
            .iter()
            .zip(wanted)
            .all(|(dot, count)| dot.count == *count)
}

// What a set tells in the form that has heard these ranges of `b.1`.
fn full(alloc: Global, ends: &[End], form: Form) -> Option<Told> {
    let ranges = ranges_of(alloc, ends).ok()?;
    let told = Told::check(alloc, raw(ranges, Vec::new(alloc), alloc), 0, 2).ok()?;
    let mut set = Orswot::new(alloc);
    set.join(alloc, &told).ok()?;
    set.told(alloc, form).ok()
}

#[test]
fn a_late_gap_is_told_in_either_form(rt: HostRuntime) {
    let ends = [("b", 1, 0, 1), ("b", 1, 2, 3)];
    let two = full(rt.alloc(), &ends, Form::Two);
    assert!(rt;
        two.is_some_and(|told| has_ranges(&told, &[(0, 1), (2, 3)]) && has_extras(&told, &[]))
    );
    let one = full(rt.alloc(), &ends, Form::One);
    assert!(rt; one.is_some_and(|told| has_ranges(&told, &[(0, 1)]) && has_extras(&told, &[3])));
}

// Ranges that meet are told as one, and a replica without its first count has no empty range in the second form.
#[test]
fn a_full_value_has_longest_ranges(rt: HostRuntime) {
    let ends = [
        ("b", 1, 2, 4),
        ("b", 1, 4, 6),
        ("b", 1, 6, 6),
        ("b", 1, 9, 10),
    ];
    let two = full(rt.alloc(), &ends, Form::Two);
    assert!(rt;
        two.is_some_and(|told| has_ranges(&told, &[(2, 6), (9, 10)]) && has_extras(&told, &[]))
    );
    let one = full(rt.alloc(), &ends, Form::One);
    assert!(rt;
        one.is_some_and(|told| has_ranges(&told, &[(0, 0)]) && has_extras(&told, &[3, 4, 5, 6, 10]))
    );
}

// A run of 2^62 - 2 counts above a gap is one range.
#[test]
fn a_huge_run_is_told(rt: HostRuntime) {
    let ends = [("b", 1, 2, 4_611_686_018_427_387_904)];
    let two = full(rt.alloc(), &ends, Form::Two);
    assert!(rt; two.is_some_and(|told| has_ranges(&told, &[(2, 4_611_686_018_427_387_904)])));
}

fn push_dots(dots: &mut Vec<Dot>, replica: &Replica, from: u64, to: u64) -> Result<(), AllocError> {
    for count in from..to {
        dots.push(Dot {
            replica: *replica,
            count: count.saturating_add(1),
        })?;
    }
    Ok(())
}

// The dots of these runs of `b.1`.
fn dots_in(alloc: Global, runs: &[(u64, u64)]) -> Result<Vec<Dot>, AllocError> {
    let owner = named(alloc, "b", 1)?;
    let mut dots = Vec::new(alloc);
    for run in runs {
        push_dots(&mut dots, &owner, run.0, run.1)?;
    }
    Ok(dots)
}

// What a cut of `b.1` tells, with these older runs and this range.
fn cut(alloc: Global, older: &[(u64, u64)], from: u64, to: u64, form: Form) -> Option<Told> {
    let ranges = ranges_of(alloc, &[("b", 1, from, to)]).ok()?;
    let extras = dots_in(alloc, older).ok()?;
    let raw = RawTold {
        form: Form::One,
        ranges,
        extras,
        live: Vec::new(alloc),
    };
    let told = Told::check(alloc, raw, 0, 2).ok()?;
    let Ok(Some(delta)) = Delta::of_told(alloc, &told) else {
        return None;
    };
    delta.told(alloc, form).ok()
}

#[test]
fn a_cut_is_told_behind_its_older_runs(rt: HostRuntime) {
    let alloc = rt.alloc();
    let two = cut(alloc, &[(0, 1)], 1, 2, Form::Two);
    assert!(rt;
        two.is_some_and(|told| has_ranges(&told, &[(0, 1), (1, 2)]) && has_extras(&told, &[]))
    );
    let empty = cut(alloc, &[(0, 1), (3, 6)], 8, 8, Form::Two);
    assert!(rt; empty.is_some_and(|told| has_ranges(&told, &[(0, 1), (3, 6), (8, 8)])));
    let one = cut(alloc, &[(0, 1), (3, 5)], 8, 9, Form::One);
    assert!(rt;
        one.is_some_and(|told| has_ranges(&told, &[(8, 9)]) && has_extras(&told, &[1, 4, 5]))
    );
}
