//! Runs of random events of two or three nodes, with restarts, checkpoints, replicas that go down and values that come late,
//! again or never. What is wanted was computed by a second implementation, from the definitions.

mod five;
mod four;
mod one;
mod six;
mod three;
mod two;

use crate::script::are_answered;

#[test]
fn random_events_one(rt: HostRuntime) {
    let alloc = rt.alloc();
    assert!(rt; are_answered(alloc, one::FIRST, one::FIRST_ANSWERS));
    assert!(rt; are_answered(alloc, one::SECOND, one::SECOND_ANSWERS));
}

#[test]
fn random_events_two(rt: HostRuntime) {
    let alloc = rt.alloc();
    assert!(rt; are_answered(alloc, two::FIRST, two::FIRST_ANSWERS));
    assert!(rt; are_answered(alloc, two::SECOND, two::SECOND_ANSWERS));
}

#[test]
fn random_events_three(rt: HostRuntime) {
    let alloc = rt.alloc();
    assert!(rt; are_answered(alloc, three::FIRST, three::FIRST_ANSWERS));
    assert!(rt; are_answered(alloc, three::SECOND, three::SECOND_ANSWERS));
}

#[test]
fn random_events_four(rt: HostRuntime) {
    let alloc = rt.alloc();
    assert!(rt; are_answered(alloc, four::FIRST, four::FIRST_ANSWERS));
    assert!(rt; are_answered(alloc, four::SECOND, four::SECOND_ANSWERS));
}

#[test]
fn random_events_five(rt: HostRuntime) {
    let alloc = rt.alloc();
    assert!(rt; are_answered(alloc, five::FIRST, five::FIRST_ANSWERS));
    assert!(rt; are_answered(alloc, five::SECOND, five::SECOND_ANSWERS));
}

#[test]
fn random_events_six(rt: HostRuntime) {
    let alloc = rt.alloc();
    assert!(rt; are_answered(alloc, six::FIRST, six::FIRST_ANSWERS));
    assert!(rt; are_answered(alloc, six::SECOND, six::SECOND_ANSWERS));
}
