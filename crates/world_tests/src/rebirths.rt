//! Nodes that go on under a higher incarnation with all their rows.

use crate::script::{are_answered, push_line};
use std::alloc::Global;

const TOLD: &str = r#"["names",["a","b"]]
["client",0,"track",5,"room:a","u1",{}]
["cut",0]
["heard",1,["a",1],0]
["deliver",1,0]
["rebirth",0,2]
["list",0,"room:a"]
["list",1,"room:a"]
["cut",0]
["heard",1,["a",2],0]
["deliver",1,1]
["list",1,"room:a"]
["caught_up",1,["a",1]]
["caught_up",1,["a",2]]
["permdown",1,["a",1]]
["list",1,"room:a"]
["caught_up",1,["a",1]]
["caught_up",1,["a",2]]
"#;

const TOLD_ANSWERS: &str = r#"[["a.2.1","u1",5,{},"a.1.1"]]
[["a.1.1","u1",5,{},null]]
[["a.1.1","u1",5,{},null],["a.2.1","u1",5,{},"a.1.1"]]
true
true
[["a.2.1","u1",5,{},"a.1.1"]]
false
true
"#;

// The other node shows the old row until it takes the old replica as gone, and the new one once it is told of it.
#[test]
fn old_rows_stay_until_their_replica_is_gone(rt: HostRuntime) {
    assert!(rt; are_answered(rt.alloc(), TOLD, TOLD_ANSWERS));
}

const SILENCE: &str = r#"["names",["a","b"]]
["client",0,"track",5,"room:a","u1",{}]
["cut",0]
["heard",1,["a",1],0]
["deliver",1,0]
["rebirth",0,2]
["tick",1,30000]
["list",1,"room:a"]
["tick",1,30001]
["list",1,"room:a"]
"#;

#[test]
fn old_rows_stay_until_their_replica_is_down(rt: HostRuntime) {
    assert!(rt; are_answered(rt.alloc(), SILENCE, "[[\"a.1.1\",\"u1\",5,{},null]]\n[]\n"));
}

// What the old life told comes late, to a node that has it gone already, to one that doesn't, and to the node itself.
const LATE: &str = r#"["names",["a","b","c"]]
["client",0,"track",5,"room:a","u1",{}]
["cut",0]
["client",0,"track",6,"room:a","u2",{"x":1}]
["cut",0]
["rebirth",0,2]
["full",0,null]
["heard",1,["a",2],0]
["deliver",1,2]
["permdown",1,["a",1]]
["deliver",1,1]
["deliver",1,0]
["list",1,"room:a"]
["heard",2,["a",1],0]
["deliver",2,1]
["list",2,"room:a"]
["heard",2,["a",2],0]
["deliver",2,2]
["deliver",2,0]
["list",2,"room:a"]
["heard",0,["a",1],0]
["deliver",0,0]
["deliver",0,1]
["list",0,"room:a"]
["told"]
"#;

const LATE_ANSWERS: &str = r#"[["a.2.1","u1",5,{},"a.1.1"],["a.2.2","u2",6,{"x":1},"a.1.2"]]
[["a.1.2","u2",6,{"x":1},null]]
[["a.1.1","u1",5,{},null],["a.2.1","u1",5,{},"a.1.1"],["a.1.2","u2",6,{"x":1},null],["a.2.2","u2",6,{"x":1},"a.1.2"]]
[["a.2.1","u1",5,{},"a.1.1"],["a.2.2","u2",6,{"x":1},"a.1.2"]]
3
"#;

#[test]
fn what_the_old_life_told_may_come_late(rt: HostRuntime) {
    assert!(rt; are_answered(rt.alloc(), LATE, LATE_ANSWERS));
}

// Two rows, each told by a cut, and both told again behind a rebirth.
const THREE_TOLD: &str = r#"["names",["a","b"]]
["client",0,"track",5,"room:a","u1",{}]
["cut",0]
["client",0,"track",6,"room:a","u2",{"x":1}]
["cut",0]
["rebirth",0,2]
["full",0,null]
["heard",1,["a",1],0]
["heard",1,["a",2],0]
"#;

const FIRST: &str = r#"["deliver",1,0]"#;

const SECOND: &str = r#"["deliver",1,1]"#;

const THIRD: &str = r#"["deliver",1,2]"#;

const ORDERS: [[&str; 3]; 6] = [
    [FIRST, SECOND, THIRD],
    [FIRST, THIRD, SECOND],
    [SECOND, FIRST, THIRD],
    [SECOND, THIRD, FIRST],
    [THIRD, FIRST, SECOND],
    [THIRD, SECOND, FIRST],
];

const GONE: &str = r#"["permdown",1,["a",1]]"#;

const LIST: &str = r#"["list",1,"room:a"]"#;

const NEW_ROWS: &str = r#"[["a.2.1","u1",5,{},"a.1.1"],["a.2.2","u2",6,{"x":1},"a.1.2"]]
[["a.2.1","u1",5,{},"a.1.1"],["a.2.2","u2",6,{"x":1},"a.1.2"]]
"#;

const ALL_ROWS: &str =
    r#"[["a.1.1","u1",5,{},null],["a.2.1","u1",5,{},"a.1.1"],["a.1.2","u2",6,{"x":1},null],["a.2.2","u2",6,{"x":1},"a.1.2"]]
[["a.2.1","u1",5,{},"a.1.1"],["a.2.2","u2",6,{"x":1},"a.1.2"]]
"#;

// The values come in this order, and behind so many of them the old replica is gone. The rows are listed then, and once more
// when it is gone at last.
fn are_listed(alloc: Global, order: [&str; 3], place: usize, wanted: &str) -> bool {
    let mut text = String::new(alloc);
    let mut is_ok = text.push_str(THREE_TOLD).is_ok();
    for (number, line) in order.iter().enumerate() {
        if number == place {
            is_ok = push_line(&mut text, GONE) && is_ok;
        }
        is_ok = push_line(&mut text, line) && is_ok;
    }
    for line in [LIST, GONE, LIST] {
        is_ok = push_line(&mut text, line) && is_ok;
    }
    is_ok && are_answered(alloc, text.as_str(), wanted)
}

#[test]
fn what_both_lives_told_comes_in_each_order(rt: HostRuntime) {
    let alloc = rt.alloc();
    for order in ORDERS {
        for place in 0..3 {
            assert!(rt; are_listed(alloc, order, place, NEW_ROWS));
        }
        assert!(rt; are_listed(alloc, order, 3, ALL_ROWS));
    }
}

const REFUSED: &str = r#"["names",["a","b"]]
["client",0,"track",5,"room:a","u1",{}]
["rebirth",0,1]
["rebirth",0,0]
["rebirth",0,4611686018427387905]
["rebirth",2,2]
["heard",0,["a",2],0]
["rebirth",0,2]
["list",0,"room:a"]
["rebirth",0,3]
["list",0,"room:a"]
["caught_up",0,["a",3]]
["caught_up",0,["a",2]]
"#;

const REFUSED_ANSWERS: &str = r#"[["a.1.1","u1",5,{},null]]
[["a.3.1","u1",5,{},"a.1.1"]]
true
false
"#;

// An incarnation that isn't above the own one, is above 2^62, or was heard of, is none to go on under.
#[test]
fn some_incarnations_are_refused(rt: HostRuntime) {
    assert!(rt; are_answered(rt.alloc(), REFUSED, REFUSED_ANSWERS));
}

const TWICE: &str = r#"["names",["a"]]
["client",0,"track",5,"room:a","u1",{}]
["client",0,"track",6,"room:a","u2",{}]
["client",0,"untrack",5,"room:a","u1"]
["rebirth",0,2]
["list",0,"room:a"]
["checkpoint",0]
["rebirth",0,3]
["list",0,"room:a"]
["client",0,"track",7,"room:a","u3",{}]
["list",0,"room:a"]
"#;

const TWICE_ANSWERS: &str = r#"[["a.2.1","u2",6,{},"a.1.2"]]
[["a.3.1","u2",6,{},"a.2.1"]]
[["a.3.1","u2",6,{},"a.2.1"],["a.3.2","u3",7,{},null]]
"#;

#[test]
fn a_node_goes_on_twice(rt: HostRuntime) {
    assert!(rt; are_answered(rt.alloc(), TWICE, TWICE_ANSWERS));
}

// Three rows, of which one went; behind the rebirth one more goes between two parts, which come in each order.
const IN_PARTS: &str = r#"["names",["a","b","c"]]
["client",0,"track",5,"room:a","u1",{}]
["client",0,"track",5,"room:a","u2",{}]
["client",0,"track",5,"room:a","u3",{}]
["client",0,"untrack",5,"room:a","u2"]
["cut",0]
["rebirth",0,2]
["list",0,"room:a"]
["part",0,0,1]
["client",0,"untrack",5,"room:a","u1"]
["part",0,1]
["heard",1,["a",2],0]
["deliver",1,1]
["list",1,"room:a"]
["caught_up",1,["a",2]]
["deliver",1,2]
["list",1,"room:a"]
["caught_up",1,["a",2]]
["heard",2,["a",2],0]
["deliver",2,2]
["list",2,"room:a"]
["deliver",2,1]
["list",2,"room:a"]
["caught_up",2,["a",2]]
"#;

const IN_PARTS_ANSWERS: &str = r#"[["a.2.1","u1",5,{},"a.1.1"],["a.2.2","u3",5,{},"a.1.3"]]
[["a.2.1","u1",5,{},"a.1.1"]]
false
[["a.2.2","u3",5,{},"a.1.3"]]
true
[["a.2.2","u3",5,{},"a.1.3"]]
[["a.2.2","u3",5,{},"a.1.3"]]
true
"#;

#[test]
fn a_node_that_went_on_tells_in_parts(rt: HostRuntime) {
    assert!(rt; are_answered(rt.alloc(), IN_PARTS, IN_PARTS_ANSWERS));
}

// Its cuts begin anew: what was kept of the old life's is told no more.
const CUTS: &str = r#"["names",["a","b"]]
["client",0,"track",5,"room:a","u1",{}]
["cut",0]
["client",0,"track",6,"room:a","u2",{}]
["rebirth",0,2]
["client",0,"untrack",5,"room:a","u1"]
["cut",0]
["client",0,"track",7,"room:a","u3",{}]
["cut",0]
["full",0,0]
["heard",1,["a",2],0]
["deliver",1,1]
["list",1,"room:a"]
["deliver",1,2]
["list",1,"room:a"]
["caught_up",1,["a",2]]
["restart",1,2]
["heard",1,["a",2],0]
["deliver",1,3]
["list",1,"room:a"]
["caught_up",1,["a",2]]
"#;

const CUTS_ANSWERS: &str = r#"[["a.2.2","u2",6,{},"a.1.2"]]
[["a.2.2","u2",6,{},"a.1.2"],["a.2.4","u3",7,{},null]]
true
[["a.2.2","u2",6,{},"a.1.2"],["a.2.4","u3",7,{},null]]
true
"#;

#[test]
fn cuts_begin_anew(rt: HostRuntime) {
    assert!(rt; are_answered(rt.alloc(), CUTS, CUTS_ANSWERS));
}

// A life that begins anew has no rows to go on with; one that went on may begin anew.
const ANEW: &str = r#"["names",["a"]]
["client",0,"track",5,"room:a","u1",{}]
["rebirth",0,2]
["restart",0,2]
["list",0,"room:a"]
["restart",0,3]
["list",0,"room:a"]
["rebirth",0,3]
["rebirth",0,4]
["list",0,"room:a"]
["client",0,"track",5,"room:a","u1",{}]
["list",0,"room:a"]
["caught_up",0,["a",4]]
"#;

const ANEW_ANSWERS: &str = r#"[["a.2.1","u1",5,{},"a.1.1"]]
[]
[]
[["a.4.1","u1",5,{},null]]
true
"#;

#[test]
fn rebirths_and_restarts_follow_one_another(rt: HostRuntime) {
    assert!(rt; are_answered(rt.alloc(), ANEW, ANEW_ANSWERS));
}
