//! Junk that comes over a link behind the hello, each line with its refusal. It leaves peer and port as they were.
use crate::accepting::is_line_refused;
use link_lines::{LinkFault, MAX_LINE_BYTES};
use orswot_core::ToldFault;
use std::alloc::{AllocError, Global};

const NOT_JSON: [&str; 34] = [
    "",
    " ",
    "hello",
    "[",
    "]",
    "[]]",
    "[[]",
    "[,]",
    "[1,]",
    "{",
    "{]",
    "nul",
    "True",
    "'ok'",
    r#"["ok"],"#,
    r#"["ok"]["ok"]"#,
    r#"["ok"] x"#,
    r#"["ok]"#,
    r#"["ok",]"#,
    r#"[,"ok"]"#,
    r#"['ok']"#,
    "\u{feff}[\"ok\"]",
    "[\"o\tk\"]",
    r#"["\ud800"]"#,
    r#"["\udc00\ud800"]"#,
    r#"["\x"]"#,
    r#"["want",0,"b",01,1]"#,
    r#"["want",0,"b",+1,1]"#,
    r#"["want",0,"b",1.,1]"#,
    r#"["want",0,"b",.5,1]"#,
    r#"["want",0,"b",1e999,1]"#,
    r#"["want",0,"b",NaN,1]"#,
    r#"["want",0,"b",0x1,1]"#,
    r#"["want",0 "b",1,1]"#,
];

const NO_LINE: &str = r#"null
true
0
"ok"
{}
{"ok":1}
[]
[[]]
[null]
[1]
[["ok"]]
["OK"]
["ok "]
["ok",1]
["ok",null]
[null,"ok"]
["track","b",1]
["hello"]
["hello","b"]
["hello","b",1]
["hello","b",1,2,1]
["hello","B",1,2]
["hello","b.",1,2]
["hello","",1,2]
["hello","abcdefghijklmnopqrstuvwxyz0123456",1,2]
["hello",1,1,2]
["hello","b",0,2]
["hello","b",-1,2]
["hello","b",1.0,2]
["hello","b",1e0,2]
["hello","b",4611686018427387905,2]
["hello","b",18446744073709551616,2]
["hello","b","1",2]
["hello","b",1,0]
["hello","b",1,5]
["hello","b",1,4294967298]
["hello","b",1,null]
["want",2,"b",1,1]
["want",-0,"b",1,1]
["want",-1,"b",1,1]
["want",4294967296,"b",1,1]
["want",0,"b",1,4611686018427387905]
["want",0,"b",1]
["want",0,"b",1,1,1]
["want","b",1,1]
["want",0,"b",1,1.5]
["want",0,"b",1,null]
["permdown","b"]
["permdown","b",0]
["permdown","b",1,1]
["permdown",0,"b",1]
["permdown","é",1]
["gone","b"]
["gone","b",0]
["gone","b c",1]
["gone",null,1]"#;

const BAD_PARTS: &str = r#"["beat",0,"b",1,1]
["beat",0,"b",1,1,0]
["beat",0,"b",1,1,false]
["beat",0,"b",1,1,{}]
["beat",0,"b",1,1,""]
["beat",0,"b",1,1,[]]
["beat",0,"b",1,1,null,null]
["beat",2,"b",1,1,null]
["beat",0,"b",0,1,null]
["beat",0,"b",1,-1,null]
["beat",0,"b",1,4611686018427387905,null]
["beat",0,"b",1,1,[[],[],[]]]
["beat",0,"b",1,2,[[["c",1,0,2]],[],[]]]
["beat",0,"b",1,2,[[["b",2,0,2]],[],[]]]
["beat",0,"b",1,2,[[["b",1,0,1],["b",1,1,2]],[],[]]]
["beat",0,"b",1,2,[[["b",1,0,1],["c",1,0,2]],[],[]]]
["beat",0,"b",1,2,[[["b",1,1,2]],[["c",1,1]],[]]]
["beat",0,"b",1,2,[[["b",1,1,2]],[["b",2,1]],[]]]
["beat",0,"b",1,1,[[["b",1,0,1]],[],[["c",1,1,"room:a","u2",5,{},null]]]]
["told",0]
["told",0,null]
["told",0,[]]
["told",0,[[],[]]]
["told",0,[[],[],[],[]]]
["told",2,[[],[],[]]]
["told",[[],[],[]]]
["told",0,[null,[],[]]]
["told",0,[[],{},[]]]
["told",0,[[],[],0]]
["told",0,[["b"],[],[]]]
["told",0,[[["b",1,0]],[],[]]]
["told",0,[[["b",1,0,1,1]],[],[]]]
["told",0,[[["b",0,0,1]],[],[]]]
["told",0,[[["B",1,0,1]],[],[]]]
["told",0,[[["b",1,-1,1]],[],[]]]
["told",0,[[["b",1,0,4611686018427387905]],[],[]]]
["told",0,[[["b",1,0,0.5]],[],[]]]
["told",0,[[],[["b",1]],[]]]
["told",0,[[],[["b",1,0]],[]]]
["told",0,[[],[["b",1,1,1]],[]]]
["told",0,[[],[null],[]]]
["told",0,[[],[["b",1,4611686018427387905]],[]]]
["told",0,[[],[],[["b",1,1,"room:a","u2",5,{}]]]]
["told",0,[[],[],[["b",1,0,"room:a","u2",5,{},null]]]]
["told",0,[[],[],[["b",1,1,1,"u2",5,{},null]]]]
["told",0,[[],[],[["b",1,1,"room:a",null,5,{},null]]]]
["told",0,[[],[],[["b",1,1,"room:a","u2",-5,{},null]]]]
["told",0,[[],[],[["b",1,1,"room:a","u2",18446744073709551616,{},null]]]]
["told",0,[[],[],[["b",1,1,"room:a","u2",5,[],null]]]]
["told",0,[[],[],[["b",1,1,"room:a","u2",5,null,null]]]]
["told",0,[[],[],[["b",1,1,"room:a","u2",5,{},0]]]]
["told",0,[[],[],[["b",1,1,"room:a","u2",5,{},["b",1,0]]]]]"#;

const BAD_TOLD: [(&str, ToldFault); 16] = [
    (
        r#"["told",0,[[["b",1,0,2],["b",1,2,3]],[],[]]]"#,
        ToldFault::TwoRanges,
    ),
    (r#"["told",0,[[["b",1,3,2]],[],[]]]"#, ToldFault::BadRange),
    (
        r#"["told",0,[[["b",1,3,2],["b",1,3,2]],[],[]]]"#,
        ToldFault::TwoRanges,
    ),
    (
        r#"["beat",0,"b",1,2,[[["b",1,3,2]],[],[]]]"#,
        ToldFault::BadRange,
    ),
    (
        r#"["told",0,[[["b",1,0,1]],[],[["b",1,2,"room:a","u2",5,{},null]]]]"#,
        ToldFault::LiveNotCovered,
    ),
    (
        r#"["told",0,[[["b",1,0,1]],[],[["b",1,1,"room:a","u2",5,{},null],["b",1,1,"room:a","u2",5,{},null]]]]"#,
        ToldFault::LiveTwice,
    ),
    (
        r#"["told",0,[[["b",1,0,1]],[],[["b",1,1,"room:b","u2",5,{},null]]]]"#,
        ToldFault::RowLimits,
    ),
    (
        r#"["told",1,[[["b",1,0,1]],[],[["b",1,1,"room:a","u2",5,{},null]]]]"#,
        ToldFault::RowLimits,
    ),
    (
        r#"["told",0,[[["b",1,0,1]],[],[["b",1,1,"","u2",5,{},null]]]]"#,
        ToldFault::RowLimits,
    ),
    (
        r#"["told",0,[[["b",1,0,1]],[],[["b",1,1,"room:a","",5,{},null]]]]"#,
        ToldFault::RowLimits,
    ),
    (
        r#"["told",0,[[["b",1,0,1]],[],[["b",1,1,"room:a","u2",4611686018427387905,{},null]]]]"#,
        ToldFault::RowLimits,
    ),
    (
        r#"["told",0,[[["b",1,0,1]],[],[["b",1,1,"room:a","u2",18446744073709551615,{},null]]]]"#,
        ToldFault::RowLimits,
    ),
    (
        r#"["told",0,[[["b",1,0,1]],[],[["b",1,1,"room:a","u2",5,{"x":0.5},null]]]]"#,
        ToldFault::RowLimits,
    ),
    (
        r#"["told",0,[[["b",1,0,1]],[],[["b",1,1,"room:a","u2",5,{"phx_ref":"a"},null]]]]"#,
        ToldFault::RowLimits,
    ),
    (
        r#"["beat",0,"b",1,1,[[["b",1,0,1]],[],[["b",1,2,"room:a","u2",5,{},null]]]]"#,
        ToldFault::LiveNotCovered,
    ),
    (
        r#"["beat",0,"b",1,1,[[["b",1,0,1]],[],[["b",1,1,"room:b","u2",5,{},null]]]]"#,
        ToldFault::RowLimits,
    ),
];

const OTHER_NOT_JSON: [&str; 12] = [
    r#"["ok\ud800"]"#,
    r#"["\uDBFF","b"]"#,
    r#"["gone","\udfff",1]"#,
    r#"{"ok":"\ud800x"}"#,
    r#"["ok"]]"#,
    r#""ok"#,
    r#"["ok"}"#,
    r#"[1 2]"#,
    r#"["ok" "b"]"#,
    "nan",
    "-",
    "\\",
];

const OUTSIDE_LIMITS: &str = r#"["want",0,"b",4611686018427387905,1]
["want",0,"b",9223372036854775808,1]
["want",0,"b",1,18446744073709551615]
["want",0,"B",1,1]
["want",0,"aB",1,1]
["want",0,"b",1,-1]
["want",0,"b",1,1e2]
["want",0.0,"b",1,1]
["want",1e0,"b",1,1]
["want",9223372036854775807,"b",1,1]
["permdown","PERM",1]
["permdown","b",4611686018427387905]
["permdown","b",-1]
["permdown","b",1.5]
["gone","A",1]
["gone","b",4611686018427387905]
["gone","b",-4611686018427387904]
["gone","b",1,"c"]
["beat",0,"B",1,1,null]
["beat",0,"b",1,1.0,null]
["beat",0,"b",4611686018427387905,1,null]
["beat",-1,"b",1,1,null]
["beat","0","b",1,1,null]
["told",-1,[[],[],[]]]
["told",1.0,[[],[],[]]]
["told",0,[[["b",4611686018427387905,0,1]],[],[]]]
["told",0,[[],[["B",1,1]],[]]]
["told",0,[[],[["b",-1,1]],[]]]"#;

// Lines without their last byte.
const CUT: [&str; 6] = [
    r#"["hello","b",1,2"#,
    r#"["beat",0,"b",1,1,[[["b",1,0,1]],[],[["b",1,1,"room:a","u2",5,{"x":1},null]]]"#,
    r#"["beat",0,"b",1,2,[[["b",1,1,2]],[["b",1,1]],[]]"#,
    r#"["beat",0,"b",1,2,null"#,
    r#"["want",0,"b",1,1"#,
    r#"["told",0,[[["b",1,0,2]],[],[]]"#,
];

#[test]
fn texts_that_are_no_json(rt: HostRuntime) {
    for text in NOT_JSON {
        assert!(rt;
            is_line_refused(rt.alloc(), text, LinkFault::NotJson),
            "{text}"
        );
    }
}

#[test]
fn other_texts_that_are_no_json(rt: HostRuntime) {
    for text in OTHER_NOT_JSON {
        assert!(rt;
            is_line_refused(rt.alloc(), text, LinkFault::NotJson),
            "{text}"
        );
    }
}

#[test]
fn cut_texts_are_no_json(rt: HostRuntime) {
    for text in CUT {
        assert!(rt;
            is_line_refused(rt.alloc(), text, LinkFault::NotJson),
            "{text}"
        );
    }
}

#[test]
fn values_that_are_no_line(rt: HostRuntime) {
    for text in NO_LINE.lines() {
        assert!(rt;
            is_line_refused(rt.alloc(), text, LinkFault::BadLine),
            "{text}"
        );
    }
}

#[test]
fn beats_and_told_lines_with_bad_members(rt: HostRuntime) {
    for text in BAD_PARTS.lines() {
        assert!(rt;
            is_line_refused(rt.alloc(), text, LinkFault::BadLine),
            "{text}"
        );
    }
}

#[test]
fn members_outside_their_limits(rt: HostRuntime) {
    for text in OUTSIDE_LIMITS.lines() {
        assert!(rt;
            is_line_refused(rt.alloc(), text, LinkFault::BadLine),
            "{text}"
        );
    }
}

#[test]
fn told_values_that_are_refused(rt: HostRuntime) {
    for (text, fault) in BAD_TOLD {
        assert!(rt;
            is_line_refused(rt.alloc(), text, LinkFault::BadTold(fault)),
            "{text}"
        );
    }
}

// An ok with blanks behind it, one byte longer than a line may be.
fn long_ok(alloc: Global) -> Result<String, AllocError> {
    let mut text = String::from_str(alloc, "[\"ok\"]")?;
    for _ in text.len()..MAX_LINE_BYTES + 1 {
        text.push(' ')?;
    }
    Ok(text)
}

#[test]
fn a_line_of_one_byte_too_many(rt: HostRuntime) {
    let Ok(text) = long_ok(rt.alloc()) else {
        assert!(rt; false);
        return;
    };
    assert!(rt; is_line_refused(rt.alloc(), text.as_str(), LinkFault::LineTooLong));
}
