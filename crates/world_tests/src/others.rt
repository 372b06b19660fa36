//! What is told of other nodes comes to a node of whose own lives something is told beside it.

use crate::script::are_answered;

// A node tells all that it knows: its own row, one of `c`, and one of a life of `b` that has ended since. `b` takes in what is
// told of others, and a fourth node, of which nothing is told, takes in all of it so. Then all of it comes to `b`.
const OF_AN_ENDED_LIFE: &str = r#"["names",["a","b","c","d"]]
["client",0,"track",5,"room:a","u1",{}]
["client",1,"track",5,"room:a","u2",{}]
["client",2,"track",5,"room:a","u3",{}]
["cut",1]
["cut",2]
["heard",0,["b",1],0]
["heard",0,["c",1],0]
["deliver_others",0,0]
["deliver_others",0,1]
["list",0,"room:a"]
["full",0,null]
["restart",1,2]
["client",1,"track",6,"room:a","u4",{}]
["heard",1,["a",1],0]
["heard",1,["b",1],0]
["heard",1,["c",1],0]
["deliver_others",1,2]
["list",1,"room:a"]
["caught_up",1,["a",1]]
["caught_up",1,["b",1]]
["caught_up",1,["c",1]]
["heard",3,["a",1],0]
["heard",3,["b",1],0]
["heard",3,["c",1],0]
["deliver_others",3,2]
["list",3,"room:a"]
["caught_up",3,["b",1]]
["deliver",1,2]
["list",1,"room:a"]
["caught_up",1,["b",1]]
["told"]
"#;

const OF_AN_ENDED_LIFE_ANSWERS: &str =
    r#"[["a.1.1","u1",5,{},null],["b.1.1","u2",5,{},null],["c.1.1","u3",5,{},null]]
[["a.1.1","u1",5,{},null],["c.1.1","u3",5,{},null],["b.2.1","u4",6,{},null]]
true
false
true
[["a.1.1","u1",5,{},null],["b.1.1","u2",5,{},null],["c.1.1","u3",5,{},null]]
true
[["a.1.1","u1",5,{},null],["b.1.1","u2",5,{},null],["c.1.1","u3",5,{},null],["b.2.1","u4",6,{},null]]
true
3
"#;

#[test]
fn a_node_hears_nothing_of_its_own_lives(rt: HostRuntime) {
    assert!(rt; are_answered(rt.alloc(), OF_AN_ENDED_LIFE, OF_AN_ENDED_LIFE_ANSWERS));
}

// Where there is no such node, or no such told value, nothing comes to anybody.
const NOTHING: &str = r#"["names",["a","b"]]
["client",0,"track",5,"room:a","u1",{}]
["cut",0]
["heard",1,["a",1],0]
["deliver_others",2,0]
["deliver_others",1,1]
["list",1,"room:a"]
["deliver_others",0,0]
["list",0,"room:a"]
["deliver_others",1,0]
["deliver_others",1,0]
["list",1,"room:a"]
["told"]
"#;

const NOTHING_ANSWERS: &str = r#"[]
[["a.1.1","u1",5,{},null]]
[["a.1.1","u1",5,{},null]]
1
"#;

#[test]
fn what_is_not_there_comes_to_nobody(rt: HostRuntime) {
    assert!(rt; are_answered(rt.alloc(), NOTHING, NOTHING_ANSWERS));
}
