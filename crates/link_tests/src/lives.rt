//! The lives of a node that others gave up, as its links see them.
use crate::desk::replica;
use link_lines::Line;
use link_rules::{Came, Coming, Course, Life, known_in, known_line};
use presence_base::{MAX_COUNT, Replica};

// Whether the first line behind a hello says that this replica is down for good.
fn says_first(life: &Life, replica: &Replica) -> bool {
    let line = life.first_line();
    match &line {
        Some(Line::PermDown { replica: told }) => *told == *replica,
        _ => false,
    }
}

#[test]
fn a_node_goes_on_once(rt: HostRuntime) {
    let alloc = rt.alloc();
    let (Some(a1), Some(a2)) = (replica(alloc, "a", 1), replica(alloc, "a", 2)) else {
        assert!(rt; false);
        return;
    };
    let first = Life::first(a1);
    assert!(rt; first.first_line().is_none());
    assert!(rt; first.course(&a1, 0) == Course::GoesOn(2));
    let next = first.behind(2, Coming::new().and(Came::Now).and(Came::Later), 0);
    assert!(rt; next.own == a2 && next.is_late && !next.is_of(first.turn));
    assert!(rt; says_first(&next, &a1));
    assert!(rt; next.course(&a1, 0) == Course::HasGoneOn);
    assert!(rt; next.course(&a2, 0) == Course::GoesOn(3));
    let last = next.retried(Coming::new().and(Came::Now));
    assert!(rt; last.own == a2 && !last.is_late && !last.is_of(next.turn));
    assert!(rt; last.retried(Coming::new()).is_of(last.turn));
}

// A node is told how far it is known by a beat of its own, which tells its next life nothing.
#[test]
fn what_is_known_of_a_node(rt: HostRuntime) {
    let alloc = rt.alloc();
    let (Some(a1), Some(a2)) = (replica(alloc, "a", 1), replica(alloc, "a", 2)) else {
        assert!(rt; false);
        return;
    };
    assert!(rt; known_line(1, a1, 0).is_none());
    let Some(line) = known_line(1, a1, 7) else {
        assert!(rt; false);
        return;
    };
    assert!(rt; known_in(&a1, &line) == Some((1, 7)));
    assert!(rt; known_in(&a2, &line).is_none());
    assert!(rt; known_in(&a1, &Line::Ok).is_none());
}

#[test]
fn a_node_that_cannot_go_on(rt: HostRuntime) {
    let alloc = rt.alloc();
    let (Some(a1), Some(highest)) = (replica(alloc, "a", 1), replica(alloc, "a", MAX_COUNT)) else {
        assert!(rt; false);
        return;
    };
    let first = Life::first(a1);
    let none = first.behind(2, Coming::new().and(Came::Never), 0);
    assert!(rt; none.own == a1 && none.is_of(first.turn) && none.first_line().is_none());
    assert!(rt; none.course(&a1, 0) == Course::GoesOn(3));
    let half = first.behind(2, Coming::new().and(Came::Now).and(Came::Never), 0);
    assert!(rt; half.own == a1 && half.first_line().is_none() && !half.is_of(first.turn));
    assert!(rt; Life::first(highest).course(&highest, 0) == Course::StaysGone);
}

// The next life goes above each that a link told of, but for one that is too far ahead.
#[test]
fn a_node_goes_above_what_it_was_told_of(rt: HostRuntime) {
    let alloc = rt.alloc();
    let Some(a1) = replica(alloc, "a", 1) else {
        assert!(rt; false);
        return;
    };
    let first = Life::first(a1);
    assert!(rt; first.hears_of(3).course(&a1, 0) == Course::GoesOn(4));
    assert!(rt; first.hears_of(5).hears_of(3).course(&a1, 0) == Course::GoesOn(6));
    assert!(rt; first.hears_of(4_294_967_297).course(&a1, 0) == Course::GoesOn(4_294_967_298));
    assert!(rt; first.hears_of(4_294_967_298).course(&a1, 0) == Course::GoesOn(2));
    assert!(rt; first.hears_of(MAX_COUNT).course(&a1, 0) == Course::GoesOn(2));
    assert!(rt; first.hears_of(1).course(&a1, 0) == Course::GoesOn(2));
}

// The life behind this one where all its shards go on at this time.
fn reborn(life: &Life, now: u64) -> Life {
    match life.course(&life.own, now) {
        Course::GoesOn(incarnation) => life.behind(incarnation, Coming::new().and(Came::Now), now),
        _ => *life,
    }
}

// Three rebirths within 30 seconds are as many as may be.
#[test]
fn a_fourth_rebirth_waits(rt: HostRuntime) {
    let Some(a1) = replica(rt.alloc(), "a", 1) else {
        assert!(rt; false);
        return;
    };
    let third = reborn(&reborn(&reborn(&Life::first(a1), 1_000), 2_000), 30_999);
    assert!(rt; third.own.incarnation == 4);
    assert!(rt; third.course(&third.own, 30_999) == Course::Waits);
    assert!(rt; third.course(&third.own, 31_000) == Course::GoesOn(5));
    let fourth = reborn(&third, 31_000);
    assert!(rt; fourth.course(&fourth.own, 31_999) == Course::Waits);
    assert!(rt; fourth.course(&fourth.own, 32_000) == Course::GoesOn(6));
    assert!(rt; fourth.course(&a1, 31_999) == Course::HasGoneOn);
}
