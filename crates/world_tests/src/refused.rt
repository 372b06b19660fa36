//! Lines that are none of the world.

use crate::script::{are_answered, is_refused_behind};

const NAMES: &str = r#"["names",["a","b"]]"#;

const NO_LINE: &str = r#"
[]
{}
1
null
"cut"
["cut"
["cut"]
["cut",-1]
["cut",1.0]
["cut","0"]
["cut",18446744073709551616]
["cut",0,0]
["Cut",0]
["names",["c"]]
["told",0]
["form"]
["form",0]
["form",3]
["form","1"]
["form",1,2]
["full",0]
["full",0,"1"]
["full",0,null,null]
["part",0]
["part",0,null]
["part",0,0,null]
["part",0,0,1,1]
["deliver",0]
["deliver",0,null]
["deliver_others",0]
["deliver_others",0,null]
["deliver_others",0,0,0]
["heard",0,["b"],0]
["heard",0,["b",0],0]
["heard",0,["B",1],0]
["heard",0,["b",4611686018427387905],0]
["heard",0,"b",0]
["heard",0,["b",1]]
["tick",0,-1]
["tick",0]
["permdown",0,["b",1],0]
["permdown",0,["",1]]
["checkpoint",0,1]
["restart",0]
["restart",0,"2"]
["rebirth",0]
["rebirth",0,"2"]
["rebirth",0,2,3]
["list",0,""]
["list",0,1]
["caught_up",0,["b"]]
["client",0]
["client",0,"list","room:a"]
["client",0,"track",1,"room:a","u1"]
["client",0,"track",1,"room:a","u1",[]]
["client",0,"track",1,"room:a","u1",{"x":1.5}]
["client",0,"track",1,"room:a","u1",{"phx_ref":"a.1.1"}]
["client",0,"track",1,"room:a","",{}]
["client",0,"track",1,"","u1",{}]
["client",0,"track",-1,"room:a","u1",{}]
["client",0,"update",1,"room:a","u1",{},{}]
["client",0,"untrack",1,"room:a"]
["client",0,"untrack_all",1,"room:a","u1"]"#;

#[test]
fn lines_that_are_none_are_refused(rt: HostRuntime) {
    for line in NO_LINE.lines() {
        assert!(rt; is_refused_behind(rt.alloc(), NAMES, line), "{line}");
    }
}

const NO_NAMES: &str = r#"
["told"]
["cut",0]
["names",["a","a"]]
["names",["a","B"]]
["names",["a",1]]
["names","a"]
["names"]
["names",["a"],["b"]]"#;

#[test]
fn the_nodes_are_named_first(rt: HostRuntime) {
    for line in NO_NAMES.lines() {
        assert!(rt; is_refused_behind(rt.alloc(), "", line), "{line}");
    }
    assert!(rt; are_answered(rt.alloc(), "[\"names\",[]]\n[\"told\"]\n", "0\n"));
}
