//! Worked runs of two nodes, `a` and `b`.

use crate::script::are_answered;

// The delta that tells the removal comes first, and the one before it twice.
const TOLD_AGAIN: &str = r#"["names",["a","b"]]
["client",1,"track",5,"room:a","u2",{}]
["cut",1]
["client",1,"untrack",5,"room:a","u2"]
["cut",1]
["heard",0,["b",1],0]
["deliver",0,1]
["deliver",0,0]
["deliver",0,0]
["list",0,"room:a"]
["caught_up",0,["b",1]]
["told"]
"#;

#[test]
fn a_repeated_delta_shows_nothing(rt: HostRuntime) {
    assert!(rt; are_answered(rt.alloc(), TOLD_AGAIN, "[]\ntrue\n2\n"));
}

const FIRST_ALONE: &str = r#"["names",["a","b"]]
["client",1,"track",5,"room:a","u2",{}]
["cut",1]
["client",1,"untrack",5,"room:a","u2"]
["cut",1]
["heard",0,["b",1],0]
["deliver",0,0]
["list",0,"room:a"]
["caught_up",0,["b",1]]
"#;

const FIRST_ALONE_ANSWERS: &str = r#"[["b.1.1","u2",5,{},null]]
false
"#;

#[test]
fn a_node_that_missed_a_delta_is_not_caught_up(rt: HostRuntime) {
    assert!(rt; are_answered(rt.alloc(), FIRST_ALONE, FIRST_ALONE_ANSWERS));
}

const RESTARTS: &str = r#"["names",["a","b"]]
["client",1,"track",5,"room:a","u1",{}]
["restart",1,1]
["list",1,"room:a"]
["restart",1,2]
["list",1,"room:a"]
["client",1,"track",5,"room:a","u2",{}]
["list",1,"room:a"]
["caught_up",1,["b",1]]
["caught_up",1,["b",2]]
["caught_up",1,["b",3]]
["restart",1,4611686018427387905]
["list",1,"room:a"]
"#;

const RESTARTS_ANSWERS: &str = r#"[["b.1.1","u1",5,{},null]]
[]
[["b.2.1","u2",5,{},null]]
false
true
false
[["b.2.1","u2",5,{},null]]
"#;

#[test]
fn a_restart_counts_under_a_higher_incarnation(rt: HostRuntime) {
    assert!(rt; are_answered(rt.alloc(), RESTARTS, RESTARTS_ANSWERS));
}

// The first run with a checkpoint of either node.
const CHECKPOINTS: &str = r#"["names",["a","b"]]
["client",1,"track",5,"room:a","u2",{}]
["cut",1]
["client",1,"untrack",5,"room:a","u2"]
["checkpoint",1]
["cut",1]
["heard",0,["b",1],0]
["deliver",0,1]
["checkpoint",0]
["deliver",0,0]
["deliver",0,0]
["list",0,"room:a"]
["caught_up",0,["b",1]]
["told"]
"#;

#[test]
fn checkpoints_change_nothing(rt: HostRuntime) {
    assert!(rt; are_answered(rt.alloc(), CHECKPOINTS, "[]\ntrue\n2\n"));
}

// The second delta alone, at a node that knows nothing and at one that has the row. Its cut was made with no checkpoint
// before it.
const SECOND_ALONE: &str = r#"["names",["a","b","c"]]
["client",1,"track",5,"room:a","u2",{}]
["cut",1]
["client",1,"untrack",5,"room:a","u2"]
["cut",1]
["heard",0,["b",1],0]
["deliver",0,1]
["caught_up",0,["b",1]]
["deliver",0,0]
["list",0,"room:a"]
["heard",2,["b",1],0]
["deliver",2,0]
["list",2,"room:a"]
["deliver",2,1]
["list",2,"room:a"]
["caught_up",2,["b",1]]
"#;

// The same with a checkpoint before the second cut.
const SECOND_ALONE_BEHIND_A_CHECKPOINT: &str = r#"["names",["a","b","c"]]
["client",1,"track",5,"room:a","u2",{}]
["cut",1]
["client",1,"untrack",5,"room:a","u2"]
["checkpoint",1]
["cut",1]
["heard",0,["b",1],0]
["deliver",0,1]
["caught_up",0,["b",1]]
["deliver",0,0]
["list",0,"room:a"]
["heard",2,["b",1],0]
["deliver",2,0]
["list",2,"room:a"]
["deliver",2,1]
["list",2,"room:a"]
["caught_up",2,["b",1]]
"#;

const SECOND_ALONE_ANSWERS: &str = r#"true
[]
[["b.1.1","u2",5,{},null]]
[]
true
"#;

#[test]
fn a_cut_tells_the_same_behind_a_checkpoint(rt: HostRuntime) {
    let alloc = rt.alloc();
    assert!(rt; are_answered(alloc, SECOND_ALONE, SECOND_ALONE_ANSWERS));
    assert!(rt;
        are_answered(
            alloc,
            SECOND_ALONE_BEHIND_A_CHECKPOINT,
            SECOND_ALONE_ANSWERS
        )
    );
}

// The second of three cuts is lost. The third tells that the first row went, which the second replaced.
const LOST_CUT: &str = r#"["names",["a","b"]]
["client",1,"track",5,"room:a","u2",{}]
["cut",1]
["client",1,"update",5,"room:a","u2",{"x":1}]
["cut",1]
["list",1,"room:a"]
["client",1,"untrack",5,"room:a","u2"]
["cut",1]
["heard",0,["b",1],0]
["deliver",0,0]
["list",0,"room:a"]
["deliver",0,2]
["list",0,"room:a"]
["caught_up",0,["b",1]]
["list",1,"room:a"]
"#;

const LOST_CUT_ANSWERS: &str = r#"[["b.1.2","u2",5,{"x":1},"b.1.1"]]
[["b.1.1","u2",5,{},null]]
[]
true
[]
"#;

#[test]
fn a_lost_cut_leaves_nothing_behind(rt: HostRuntime) {
    assert!(rt; are_answered(rt.alloc(), LOST_CUT, LOST_CUT_ANSWERS));
}

// A row goes with a replica that is gone, and comes back neither with what is told again nor with a replica that is heard
// again.
const GONE: &str = r#"["names",["a","b"]]
["client",1,"track",5,"room:a","u2",{}]
["cut",1]
["deliver",0,0]
["list",0,"room:a"]
["heard",0,["b",1],1]
["list",0,"room:a"]
["tick",0,30002]
["list",0,"room:a"]
["heard",0,["b",1],30003]
["list",0,"room:a"]
["permdown",0,["b",1]]
["heard",0,["b",1],30004]
["deliver",0,0]
["list",0,"room:a"]
["caught_up",0,["b",1]]
["list",1,"room:a"]
"#;

const GONE_ANSWERS: &str = r#"[]
[["b.1.1","u2",5,{},null]]
[]
[["b.1.1","u2",5,{},null]]
[]
false
[["b.1.1","u2",5,{},null]]
"#;

#[test]
fn rows_of_a_replica_that_is_gone_stay_away(rt: HostRuntime) {
    assert!(rt; are_answered(rt.alloc(), GONE, GONE_ANSWERS));
}

// Events that mean nothing: of no node, of no told value, and a track of a number that no row keeps.
const NOTHING: &str = r#"["names",["a"]]
["cut",1]
["full",1,null]
["full",1,0]
["deliver",0,0]
["tick",7,1]
["restart",2,2]
["checkpoint",1]
["client",1,"track",5,"room:a","u2",{}]
["client",0,"track",4611686018427387905,"room:a","u2",{}]
["client",0,"update",5,"room:a","u2",{}]
["client",0,"untrack_all",18446744073709551615,"room:a"]
["told"]
["list",0,"room:a"]
["list",1,"room:a"]
["caught_up",1,["a",1]]
["client",0,"track",4611686018427387904,"room:a","u2",{}]
["list",0,"room:a"]
"#;

const NOTHING_ANSWERS: &str = r#"0
[]
[]
false
[["a.1.1","u2",4611686018427387904,{},null]]
"#;

#[test]
fn events_that_mean_nothing_change_nothing(rt: HostRuntime) {
    assert!(rt; are_answered(rt.alloc(), NOTHING, NOTHING_ANSWERS));
}
