//! Rows in a range, and sets that are told.
ghost use Rattle.std.specs.Prelude.{◌≡◌, ◌≤◌, ◌^◌, true, IfOk};
ghost use Rattle.orswot_core.specs.Limits.{is_dot, is_row};

use orswot_core::{Form, Orswot, RawRow, RawTold, ReplicaTest, Told};
use presence_base::{Dot, Key, Meta, NodeName, Replica, Row, Topic};
use serde_json::{Map, Value};
use std::alloc::{AllocError, Global};
use std::collections::btree_map::Range;
use std::test::Fail;

// This incarnation of a node.
pub(super) fn named(alloc: Global, name: &str, incarnation: u64) -> Result<Replica, AllocError>
    ensures { IfOk result (λ r. r ≡ record { name = name.now; incarnation = incarnation }) }
{
    match NodeName::new(alloc, name)? {
        Some(name) => Ok(Replica { name, incarnation }),
        None => Err(AllocError),
    }
}

// The replica `b`, incarnation 1.
pub(super) fn replica(alloc: Global) -> Result<Replica, AllocError>
    ensures { IfOk result (λ r. r.incarnation ≡ 1) }
{
    named(alloc, "b", 1)
}

fn dot(alloc: Global, count: u64) -> Result<Dot, AllocError>
    requires { (1 ≤ count) × (count ≤ 2 ^ 62) }
    ensures { IfOk result (λ d. is_dot d ≡ true) }
{
    Ok(Dot {
        replica: replica(alloc)?,
        count,
    })
}

pub(super) fn raw_row(alloc: Global, count: u64, key: &str) -> Result<(Dot, RawRow), AllocError> {
    let replica = replica(alloc)?;
    let raw = RawRow {
        topic: String::from_str(alloc, "room:a")?,
        key: String::from_str(alloc, key)?,
        pid: 5,
        meta: Meta::new(alloc, Value::Object(Map::new(alloc)))?,
        prev: None,
    };
    Ok((Dot { replica, count }, raw))
}

pub(super) fn row(alloc: Global, key: &str) -> Result<Row, AllocError>
    ensures { IfOk result (λ r. is_row r ≡ true) }
{
    let Some(topic) = Topic::new(alloc, "room:a")? else {
        return Err(AllocError);
    };
    let Some(key) = Key::new(alloc, key)? else {
        return Err(AllocError);
    };
    let Some(meta) = Meta::new(alloc, Value::Object(Map::new(alloc)))? else {
        return Err(AllocError);
    };
    Ok(Row {
        topic,
        key,
        pid: 5,
        meta,
        prev: None,
    })
}

fn told(alloc: Global, raw: RawTold) -> Result<Told, AllocError> {
    match Told::check(alloc, raw, 0, 2) {
        Ok(told) => Ok(told),
        Err(_) => Err(AllocError),
    }
}

fn ranges_of(
    alloc: Global,
    replica: &Replica,
    ends: &[(u64, u64)],
) -> Result<Vec<(Replica, u64, u64)>, AllocError> {
    let mut ranges = Vec::new(alloc);
    for (from, to) in ends {
        ranges.push((*replica, *from, *to))?;
    }
    Ok(ranges)
}

fn extras_of(alloc: Global, replica: &Replica, counts: &[u64]) -> Result<Vec<Dot>, AllocError> {
    let mut extras = Vec::new(alloc);
    for count in counts {
        extras.push(Dot {
            replica: *replica,
            count: *count,
        })?;
    }
    Ok(extras)
}

fn rows_of(alloc: Global, live: &[(u64, &str)]) -> Result<Vec<(Dot, RawRow)>, AllocError> {
    let mut rows = Vec::new(alloc);
    for (count, key) in live {
        rows.push(raw_row(alloc, *count, key)?)?;
    }
    Ok(rows)
}

// What `b.1` tells: ranges, the counts of extras, and the counts and keys of live rows.
fn told_of(
    alloc: Global,
    ranges: &[(u64, u64)],
    extras: &[u64],
    live: &[(u64, &str)],
) -> Result<Told, AllocError> {
    let b = replica(alloc)?;
    let ranges = ranges_of(alloc, &b, ranges)?;
    let extras = extras_of(alloc, &b, extras)?;
    let live = rows_of(alloc, live)?;
    told(
        alloc,
        RawTold {
            form: Form::One,
            ranges,
            extras,
            live,
        },
    )
}

// The range up to 2 with the rows `b.1.1` and `b.1.2`.
fn first_two(alloc: Global) -> Result<Told, AllocError> {
    told_of(alloc, &[(0, 2)], &[], &[(1, "u2"), (2, "u3")])
}

// The range up to one count, in which `b.1.1` is live.
fn first_one(alloc: Global) -> Result<Told, AllocError> {
    told_of(alloc, &[(0, 1)], &[], &[(1, "u2")])
}

// A range of one count that removed `b.1.1`.
fn removing(alloc: Global, count: u64) -> Result<Told, AllocError>
    requires { (1 ≤ count) × (count ≤ 2 ^ 62) }
{
    told_of(alloc, &[(count - 1, count)], &[1], &[])
}

// Whether these ranges, extras and live rows of `b.1` are told, in this order, and nothing else.
fn lists(told: &Told, ranges: &[(u64, u64)], extras: &[u64], live: &[u64]) -> bool {
    told.ranges().len() == ranges.len()
        && told.extras().len() == extras.len()
        && told.live().len() == live.len()
        && has_ranges(told, ranges)
        && has_extras(told, extras)
        && has_live(told, live)
}

fn has_ranges(told: &Told, ranges: &[(u64, u64)]) -> bool {
    told.ranges()
        .iter()
        .zip(ranges)
        .all(|(range, ends)| range.1 == ends.0 && range.2 == ends.1)
}

fn has_extras(told: &Told, extras: &[u64]) -> bool {
    told.extras()
        .iter()
        .zip(extras)
        .all(|(dot, count)| dot.count == *count)
}

fn has_live(told: &Told, live: &[u64]) -> bool {
    told.live()
        .iter()
        .zip(live)
        .all(|(row, count)| row.0.count == *count)
}

// Whether the set tells these.
fn tells(
    alloc: Global,
    set: &Orswot,
    ranges: &[(u64, u64)],
    extras: &[u64],
    live: &[u64],
) -> Result<bool, AllocError> {
    let told = set.told(alloc, Form::One)?;
    Ok(lists(&told, ranges, extras, live))
}

// The set that hears these in turn.
fn hears(alloc: Global, first: &Told, second: &Told) -> Result<Orswot, AllocError> {
    let mut set = Orswot::new(alloc);
    set.join(alloc, first)?;
    set.join(alloc, second)?;
    Ok(set)
}

// The set after the second of two deltas alone, which leaves a gap.
fn with_gap(alloc: Global) -> Result<Orswot, AllocError> {
    let last = removing(alloc, 3)?;
    let mut set = Orswot::new(alloc);
    set.join(alloc, &last)?;
    Ok(set)
}

// The set after both, the second one first.
fn after_gap(alloc: Global) -> Result<Orswot, AllocError> {
    let last = removing(alloc, 3)?;
    let first = first_two(alloc)?;
    hears(alloc, &last, &first)
}

// Whether the range up to 3 is told with the row `b.1.2` and nothing else.
fn is_filled(alloc: Global, set: &Orswot) -> Result<bool, AllocError> {
    tells(alloc, set, &[(0, 3)], &[], &[2])
}

// What the set answers of one dot: its replica's top, whether it is covered, and whether it has a row.
fn asked(alloc: Global, set: &Orswot, count: u64) -> Result<(u64, bool, bool), AllocError>
    requires { (1 ≤ count) × (count ≤ 2 ^ 62) }
{
    let at = dot(alloc, count)?;
    Ok((
        set.top(&at.replica),
        set.covers(&at),
        set.row(&at).is_some(),
    ))
}

#[test]
fn a_gap_is_not_known(rt: HostRuntime) -> Result<(), Fail> {
    let alloc = rt.alloc();
    let set = with_gap(alloc)?;
    assert!(rt; asked(alloc, &set, 2)? == (1, false, false));
    assert!(rt; asked(alloc, &set, 3)? == (1, true, false));
    assert!(rt; tells(alloc, &set, &[(0, 1)], &[3], &[])?);
    Ok(())
}

#[test]
fn a_late_gap_fills(rt: HostRuntime) -> Result<(), Fail> {
    let alloc = rt.alloc();
    let set = after_gap(alloc)?;
    assert!(rt; asked(alloc, &set, 1)? == (3, true, false));
    assert!(rt; asked(alloc, &set, 2)? == (3, true, true));
    assert!(rt; is_filled(alloc, &set)?);
    Ok(())
}

// Tells the set whole to an empty one, and clones what was told on the way.
fn retold(alloc: Global, set: &Orswot) -> Result<Orswot, AllocError> {
    let told = set.told(alloc, Form::One)?;
    let copy = told.clone()?;
    hears(alloc, &copy, &told)
}

#[test]
fn a_set_told_whole_is_the_set(rt: HostRuntime) -> Result<(), Fail> {
    let alloc = rt.alloc();
    let set = after_gap(alloc)?;
    let other = retold(alloc, &set)?;
    assert!(rt; is_filled(alloc, &other)?);
    Ok(())
}

// The extras `b.1.4` and `b.1.3`.
fn cloud_alone(alloc: Global) -> Result<Told, AllocError> {
    told_of(alloc, &[], &[4, 3], &[])
}

#[test]
fn a_cloud_alone_is_told_with_an_empty_range(rt: HostRuntime) -> Result<(), Fail> {
    let alloc = rt.alloc();
    let cloud = cloud_alone(alloc)?;
    let set = hears(alloc, &cloud, &cloud)?;
    assert!(rt; tells(alloc, &set, &[(0, 0)], &[3, 4], &[])?);
    Ok(())
}

#[test]
fn an_empty_set_tells_nothing(rt: HostRuntime) -> Result<(), Fail> {
    let alloc = rt.alloc();
    let set = Orswot::new(alloc);
    assert!(rt; tells(alloc, &set, &[], &[], &[])?);
    Ok(())
}

#[test]
fn deltas_in_order_end_the_same(rt: HostRuntime) -> Result<(), Fail> {
    let alloc = rt.alloc();
    let first = first_two(alloc)?;
    let last = removing(alloc, 3)?;
    let set = hears(alloc, &first, &last)?;
    assert!(rt; is_filled(alloc, &set)?);
    Ok(())
}

#[test]
fn a_repeated_delta_restores_nothing(rt: HostRuntime) -> Result<(), Fail> {
    let alloc = rt.alloc();
    let first = first_one(alloc)?;
    let second = removing(alloc, 2)?;
    let mut set = hears(alloc, &second, &first)?;
    assert!(rt; tells(alloc, &set, &[(0, 2)], &[], &[])?);
    set.join(alloc, &first)?;
    assert!(rt; tells(alloc, &set, &[(0, 2)], &[], &[])?);
    Ok(())
}

#[test]
fn sets_join_either_way(rt: HostRuntime) -> Result<(), Fail> {
    let alloc = rt.alloc();
    let mut one = with_gap(alloc)?;
    let mut both = after_gap(alloc)?;
    both.join_all(alloc, &one)?;
    assert!(rt; is_filled(alloc, &both)?);
    one.join_all(alloc, &both)?;
    assert!(rt; is_filled(alloc, &one)?);
    Ok(())
}

#[test]
fn a_forgotten_replica_is_not_told(rt: HostRuntime) -> Result<(), Fail> {
    let alloc = rt.alloc();
    let b = replica(alloc)?;
    let mut set = after_gap(alloc)?;
    set.forget(&b);
    assert!(rt; asked(alloc, &set, 2)? == (0, false, false));
    assert!(rt; tells(alloc, &set, &[], &[], &[])?);
    Ok(())
}

// The set with the row `b.1.1` alone.
fn with_one(alloc: Global) -> Result<Orswot, AllocError> {
    let one = dot(alloc, 1)?;
    let row = row(alloc, "u1")?;
    let mut set = Orswot::new(alloc);
    if !set.covers(&one) {
        set.add(alloc, one, row)?;
    }
    Ok(set)
}

#[test]
fn a_removal_covers_its_event(rt: HostRuntime) -> Result<(), Fail> {
    let alloc = rt.alloc();
    let event = dot(alloc, 2)?;
    let gone = [dot(alloc, 1)?];
    let mut set = with_one(alloc)?;
    assert!(rt; tells(alloc, &set, &[(0, 1)], &[], &[1])?);
    set.remove(alloc, &gone, event)?;
    assert!(rt; tells(alloc, &set, &[(0, 2)], &[], &[])?);
    Ok(())
}

fn add_row(alloc: Global, set: &mut Orswot, count: u64) -> Result<(), AllocError>
    requires { (1 ≤ count) × (count ≤ 2 ^ 62) }
{
    let at = dot(alloc, count)?;
    let row = row(alloc, "u1")?;
    if !set.covers(&at) {
        set.add(alloc, at, row)?;
    }
    Ok(())
}

// What a set tells of the rows `b.1.1` up to one count.
fn told_rows(alloc: Global, rows: u64) -> Result<Told, AllocError>
    requires { rows ≤ 2 ^ 32 }
{
    let mut set = Orswot::new(alloc);
    for row in 0..rows {
        add_row(alloc, &mut set, row + 1)?;
    }
    set.told(alloc, Form::One)
}

#[test]
fn more_rows_than_may_come_in_are_told(rt: HostRuntime) -> Result<(), Fail> {
    let alloc = rt.alloc();
    let told = told_rows(alloc, 65_537)?;
    assert_eq!(rt; told.live().len(), 65_537);
    assert!(rt; has_ranges(&told, &[(0, 65_537)]));
    assert!(rt; told.extras().is_empty());
    Ok(())
}

// All replicas but one.
#[derive(Clone, Copy)]
struct OtherThan {
    own: Replica,
}

impl ReplicaTest for OtherThan {
    ghost use Rattle.std.specs.Prelude.{not};
    ghost use Rattle.presence_base.specs.Order.{same_replica};

    ghost picks = { λ s r. not (same_replica r s.own) };

    fn takes(&self, replica: &Replica) -> bool {
        !replica.cmp(&self.own).is_eq()
    }
}

// The top of `b`, and whether it has a row, in a set that took in a told value, one replica's part left out.
fn without(alloc: Global, told: &Told, name: &str) -> Result<(u64, bool), AllocError> {
    let own = named(alloc, name, 1)?;
    let mut set = Orswot::new(alloc);
    set.join_some(alloc, told, &OtherThan { own })?;
    let b = replica(alloc)?;
    Ok((set.top(&b), set.rows_of(&b).next().is_some()))
}

#[test]
fn what_is_told_of_a_replica_is_left_out(rt: HostRuntime) -> Result<(), Fail> {
    let alloc = rt.alloc();
    let told = first_two(alloc)?;
    assert!(rt; without(alloc, &told, "b")? == (0, false));
    assert!(rt; without(alloc, &told, "c")? == (2, true));
    Ok(())
}

// The range up to 4 with a row at each count.
fn first_four(alloc: Global) -> Result<Told, AllocError> {
    let live = [(1, "u1"), (2, "u2"), (3, "u3"), (4, "u4")];
    told_of(alloc, &[(0, 4)], &[], &live)
}

fn next_count(rows: &mut Range<'_, Dot, Row>) -> Option<u64> {
    match rows.next() {
        Some((dot, _row)) => Some(dot.count),
        None => None,
    }
}

// The counts of the first three live rows above 1 and up to 3, where so many are there.
fn counts_in_range(
    alloc: Global,
    told: &Told,
) -> Result<(Option<u64>, Option<u64>, Option<u64>), AllocError> {
    let mut set = Orswot::new(alloc);
    set.join(alloc, told)?;
    let range = (replica(alloc)?, 1, 3);
    let mut rows = set.rows_in(&range);
    let first = next_count(&mut rows);
    let second = next_count(&mut rows);
    Ok((first, second, next_count(&mut rows)))
}

#[test]
fn the_rows_in_a_range_are_above_its_first_count(rt: HostRuntime) -> Result<(), Fail> {
    let alloc = rt.alloc();
    let told = first_four(alloc)?;
    assert!(rt; counts_in_range(alloc, &told)? == (Some(2), Some(3), None));
    Ok(())
}

// The set after a planned join, which is made or not.
fn planned(alloc: Global, told: &Told, made: bool) -> Result<Orswot, AllocError> {
    let Ok(plan) = Orswot::new(alloc).plan_join(alloc, told) else {
        return Err(AllocError);
    };
    if made {
        return Ok(plan.commit());
    }
    Ok(plan.undo())
}

#[test]
fn a_planned_join_is_made_or_undone(rt: HostRuntime) -> Result<(), Fail> {
    let alloc = rt.alloc();
    let told = first_two(alloc)?;
    let joined = planned(alloc, &told, true)?;
    assert!(rt; tells(alloc, &joined, &[(0, 2)], &[], &[1, 2])?);
    let undone = planned(alloc, &told, false)?;
    assert!(rt; tells(alloc, &undone, &[], &[], &[])?);
    Ok(())
}
