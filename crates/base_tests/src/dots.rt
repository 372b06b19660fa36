//! Dots in their order, and the texts of their references.

use presence_base::{Dot, MAX_COUNT, NodeName, Replica, read_ref, ref_text};
use std::alloc::{AllocError, Global};
use std::test::Fail;

pub fn dot(
    alloc: Global,
    name: &str,
    incarnation: u64,
    count: u64,
) -> Result<Option<Dot>, AllocError> {
    match NodeName::new(alloc, name)? {
        Some(name) => Ok(Some(Dot {
            replica: Replica { name, incarnation },
            count,
        })),
        None => Ok(None),
    }
}

fn ref_of(
    alloc: Global,
    name: &str,
    incarnation: u64,
    count: u64,
) -> Result<Option<String>, AllocError> {
    match dot(alloc, name, incarnation, count)? {
        Some(dot) => Ok(Some(ref_text(alloc, &dot)?)),
        None => Ok(None),
    }
}

#[test]
fn references(rt: HostRuntime) -> Result<(), Fail> {
    let alloc = rt.alloc();
    let first = ref_of(alloc, "a", 1, 1)?;
    assert!(rt; first.is_some_and(|text| text.as_str() == "a.1.1"));
    let last = ref_of(alloc, "b2", 7, MAX_COUNT)?;
    assert!(rt; last.is_some_and(|text| text.as_str() == "b2.7.4611686018427387904"));
    Ok(())
}

fn is_before(first: Option<Dot>, second: Option<Dot>) -> bool {
    first.is_some_and(|first| second.is_some_and(|second| first < second && first != second))
}

// Whether the first of two dots of a name each, and of these incarnations and counts, is the lower.
fn are_in_order(alloc: Global, names: [&str; 2], numbers: [u64; 4]) -> Result<bool, AllocError> {
    let first = dot(alloc, names[0], numbers[0], numbers[1])?;
    let second = dot(alloc, names[1], numbers[2], numbers[3])?;
    Ok(is_before(first, second) && !is_before(second, first))
}

// By name, then by incarnation, then by count.
#[test]
fn dots_in_order(rt: HostRuntime) -> Result<(), Fail> {
    let alloc = rt.alloc();
    assert!(rt; are_in_order(alloc, ["a", "b"], [9, 9, 1, 1])?);
    assert!(rt; are_in_order(alloc, ["a", "a0"], [9, 9, 1, 1])?);
    assert!(rt; are_in_order(alloc, ["a10", "a2"], [9, 9, 1, 1])?);
    assert!(rt; are_in_order(alloc, ["a", "a"], [2, 9, 10, 1])?);
    assert!(rt; are_in_order(alloc, ["a", "a"], [1, 2, 1, 10])?);
    Ok(())
}

#[test]
fn references_are_read(rt: HostRuntime) -> Result<(), Fail> {
    let parts = read_ref("b2.7.10");
    assert!(rt; parts.is_some_and(|it| it.name == "b2" && it.incarnation == 7 && it.count == 10));
    for bad in [
        "a.1",
        "a.1.1.1",
        "a.0.1",
        "a.1.0",
        "a.01.1",
        "a.1.+1",
        ".1.1",
        "A.1.1",
        "a.1.4611686018427387905",
    ] {
        assert!(rt; read_ref(bad).is_none());
    }
    Ok(())
}
