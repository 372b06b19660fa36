//! The run of a link at node `a`, with two shards, which was dialled by node `b`.
use crate::counted::TOO_MANY;
use crate::desk::{Desk, NEVER, NOW, at_a, replica};
use crate::port::{Call, Much};
use link_lines::LinkFault;
use node_links::{ActFault, DialFault};
use orswot_core::ToldFault;
use replica_status::Status;
use std::alloc::{AllocError, Global};

const RUN: &str = r#"["hello","b",1,2]
["beat",0,"b",1,1,[[["b",1,0,1]],[],[["b",1,1,"room:a","u2",5,{"x":1},null]]]]
["beat",0,"b",1,2,null]
["told",0,[[["b",1,0,2]],[],[]]]
["beat",0,"a",1,9,null]
"#;

const ANSWERS: &str = r#"["hello","a",1,2]
["ok"]
["want",0,"b",1,1]
["ok"]
["ok"]
"#;

// Whether the calls of the run were made, and no others.
fn asked_as_run(alloc: Global, desk: &Desk<'_>) -> bool {
    let Some(b) = replica(alloc, "b", 1) else {
        return false;
    };
    let b = &b;
    desk.asked(&[
        Call::Status(0, *b),
        Call::Heard(0, *b, NOW),
        Call::Merge(0, 1),
        Call::Top(0, *b),
        Call::Status(0, *b),
        Call::Heard(0, *b, NOW),
        Call::Top(0, *b),
        Call::Merge(0, 0),
    ])
}

#[test]
fn the_run_of_a_link(rt: HostRuntime) {
    let alloc = rt.alloc();
    let Some(mut desk) = at_a(alloc, RUN.as_bytes()) else {
        assert!(rt; false);
        return;
    };
    assert!(rt; desk.accepts_all(alloc, 5));
    assert!(rt; desk.accepts(alloc) == Ok(false));
    assert!(rt; desk.wrote(ANSWERS));
    assert!(rt; desk.knows(alloc, "b", 1));
    assert!(rt; asked_as_run(alloc, &desk));
}

// Whether the hello is answered and the line behind it is refused so, which is not answered and leaves
// peer and port as the hello left them.
fn refuses(alloc: Global, desk: &mut Desk<'_>, fault: LinkFault) -> bool {
    desk.accepts(alloc) == Ok(true)
        && desk.accepts(alloc) == Err(DialFault::Link(fault))
        && desk.wrote("[\"hello\",\"a\",1,2]\n")
        && desk.asked(&[])
        && desk.knows(alloc, "b", 1)
}

// Whether these lines behind a hello are refused so.
pub(super) fn is_refused(alloc: Global, lines: &str, fault: LinkFault) -> bool {
    let Ok(text) = format!(in alloc; "[\"hello\",\"b\",1,2]\n{lines}") else {
        return false;
    };
    match at_a(alloc, text.as_str().as_bytes()) {
        Some(mut desk) => refuses(alloc, &mut desk, fault),
        None => false,
    }
}

// Whether the line, with a line feed behind it, is refused so behind a hello.
pub(super) fn is_line_refused(alloc: Global, line: &str, fault: LinkFault) -> bool {
    match format!(in alloc; "{line}\n") {
        Ok(fed) => is_refused(alloc, fed.as_str(), fault),
        Err(_) => false,
    }
}

const REFUSED: [(&str, LinkFault); 11] = [
    (
        r#"["told",0,[[["b",1,0,2],["b",1,2,3]],[],[]]]"#,
        LinkFault::BadTold(ToldFault::TwoRanges),
    ),
    (
        r#"["told",0,[[["b",1,3,2]],[],[]]]"#,
        LinkFault::BadTold(ToldFault::BadRange),
    ),
    (
        r#"["told",0,[[["b",1,0,1]],[],[["b",1,2,"room:a","u2",5,{},null]]]]"#,
        LinkFault::BadTold(ToldFault::LiveNotCovered),
    ),
    (
        r#"["told",0,[[["b",1,0,1]],[],[["b",1,1,"room:a","u2",5,{},null],["b",1,1,"room:a","u2",5,{},null]]]]"#,
        LinkFault::BadTold(ToldFault::LiveTwice),
    ),
    (
        r#"["told",0,[[["b",1,0,1]],[],[["b",1,1,"room:b","u2",5,{},null]]]]"#,
        LinkFault::BadTold(ToldFault::RowLimits),
    ),
    (r#"["told",0,[[["b",0,0,1]],[],[]]]"#, LinkFault::BadLine),
    (
        r#"["beat",0,"b",1,2,[[["c",1,0,2]],[],[]]]"#,
        LinkFault::BadLine,
    ),
    (r#"["hello","b",1,2]"#, LinkFault::BadLine),
    (r#"["hello","b",1,3]"#, LinkFault::BadLine),
    (r#"["beat",0,"a",1,9,[]]"#, LinkFault::BadLine),
    ("", LinkFault::NotJson),
];

#[test]
fn lines_that_are_refused_behind_a_hello(rt: HostRuntime) {
    for (text, fault) in REFUSED {
        assert!(rt; is_line_refused(rt.alloc(), text, fault), "{text}");
    }
}

#[test]
fn the_end_within_a_line(rt: HostRuntime) {
    assert!(rt; is_refused(rt.alloc(), "[\"ok\"]", LinkFault::CutLine));
}

// More extras than are taken in, and two ranges of one replica, which would be refused too.
fn many_extras(alloc: Global) -> Result<String, AllocError> {
    let mut text = String::new(alloc);
    text.push_str(r#"["told",0,[[["b",1,0,1],["b",1,1,2]],["#)?;
    for _ in 0..65_536 {
        text.push_str(r#"["b",1,1],"#)?;
    }
    text.push_str("[\"b\",1,1]],[]]]")?;
    Ok(text)
}

#[test]
fn too_many_extras(rt: HostRuntime) {
    let Ok(text) = many_extras(rt.alloc()) else {
        assert!(rt; false);
        return;
    };
    let fault = LinkFault::BadTold(ToldFault::TooMany);
    assert!(rt; is_line_refused(rt.alloc(), text.as_str(), fault));
}

// Whether the first line is refused so, and leaves peer and port as they were.
fn is_refused_first(alloc: Global, text: &str, fault: LinkFault) -> bool {
    let Some(mut desk) = at_a(alloc, text.as_bytes()) else {
        return false;
    };
    desk.accepts(alloc) == Err(DialFault::Link(fault))
        && desk.link.peer.other().is_none()
        && desk.wrote("")
        && desk.asked(&[])
}

#[test]
fn lines_that_may_not_come_first(rt: HostRuntime) {
    for (text, fault) in [
        ("[\"hello\",\"b\",1,3]\n", LinkFault::OtherShards),
        ("[\"beat\",0,\"b\",1,1,null]\n", LinkFault::BadLine),
        ("[\"ok\"]\n", LinkFault::BadLine),
        ("[\"gone\",\"a\",1]\n", LinkFault::BadLine),
    ] {
        assert!(rt; is_refused_first(rt.alloc(), text, fault), "{text}");
    }
}

#[test]
fn a_beat_of_a_replica_that_is_gone(rt: HostRuntime) {
    let alloc = rt.alloc();
    let Some(b) = replica(alloc, "b", 1) else {
        assert!(rt; false);
        return;
    };
    let Some(mut desk) = at_a(alloc, RUN.as_bytes()) else {
        assert!(rt; false);
        return;
    };
    desk.port.set_status(Status::Gone);
    assert!(rt; desk.accepts_all(alloc, 2));
    assert!(rt; desk.wrote("[\"hello\",\"a\",1,2]\n[\"gone\",\"b\",1]\n"));
    assert!(rt; desk.asked(&[Call::Status(0, b)]));
}

#[test]
fn a_replica_is_put_down_on_every_shard(rt: HostRuntime) {
    let alloc = rt.alloc();
    let Some(b) = replica(alloc, "b", 7) else {
        assert!(rt; false);
        return;
    };
    let b = &b;
    let text = "[\"hello\",\"b\",1,2]\n[\"permdown\",\"b\",7]\n[\"permdown\",\"a\",1]\n";
    let Some(mut desk) = at_a(alloc, text.as_bytes()) else {
        assert!(rt; false);
        return;
    };
    assert!(rt; desk.accepts_all(alloc, 3));
    assert!(rt; desk.wrote("[\"hello\",\"a\",1,2]\n[\"ok\"]\n[\"ok\"]\n"));
    assert!(rt; desk.asked(&[Call::PermDown(0, *b), Call::PermDown(1, *b)]));
}

// Whether the first beat ends so where the call of the port of this number is refused, and so many calls are made.
fn is_refusing(
    alloc: Global,
    refused: usize,
    fault: ActFault,
    end: Result<bool, DialFault>,
    calls: usize,
) -> bool {
    let Some(mut desk) = at_a(alloc, RUN.as_bytes()) else {
        return false;
    };
    desk.port.refuse(refused, fault);
    desk.accepts(alloc) == Ok(true) && desk.accepts(alloc) == end && desk.calls() == calls
}

#[test]
fn a_port_that_refuses_each_call(rt: HostRuntime) {
    for fault in [ActFault::ShardFull, ActFault::OutOfMemory] {
        for refused in 0..4 {
            let end = Err(DialFault::Act(fault));
            assert!(rt; is_refusing(rt.alloc(), refused, fault, end, refused));
        }
        assert!(rt; is_refusing(rt.alloc(), 4, fault, Ok(true), 4));
    }
}

// Whether the hello and the first beat end so where the call of the stream of this number fails, and so many calls
// are made.
fn is_failing(alloc: Global, fails: usize, wanted: Result<bool, DialFault>, calls: usize) -> bool {
    let Some(mut desk) = at_a(alloc, RUN.as_bytes()) else {
        return false;
    };
    desk.link.stream.fails = fails;
    let end = match desk.accepts(alloc) {
        Ok(true) => desk.accepts(alloc),
        end => end,
    };
    end == wanted && desk.calls() == calls
}

// The hello comes in 18 bytes and is answered by three calls of at most eight; the beat comes in 79 bytes and is
// answered by one.
const HELLO_READ: usize = 18;

const HELLO_DONE: usize = 21;

const BEAT_READ: usize = 100;

#[test]
fn a_stream_that_fails_at_each_call(rt: HostRuntime) {
    for fails in 0..BEAT_READ + 1 {
        let is_writing = (fails >= HELLO_READ && fails < HELLO_DONE) || fails >= BEAT_READ;
        let fault = if is_writing {
            LinkFault::WriteFailed
        } else {
            LinkFault::ReadFailed
        };
        let calls = if fails < BEAT_READ { 0 } else { 4 };
        let end = Err(DialFault::Link(fault));
        assert!(rt; is_failing(rt.alloc(), fails, end, calls), "{fails}");
    }
    assert!(rt; is_failing(rt.alloc(), BEAT_READ + 1, Ok(true), 4));
    assert!(rt; is_failing(rt.alloc(), NEVER, Ok(true), 4));
}

// A want, and behind it a line that is answered whatever came of it.
const WANTING: &[u8] =
    b"[\"hello\",\"b\",1,2]\n[\"want\",0,\"a\",1,3]\n[\"beat\",0,\"a\",1,9,null]\n";

// Whether the three lines are taken where so much is told from a count and in all, with this between the other answers.
fn answers_want(alloc: Global, from: Much, all: Much, told: &str) -> bool {
    let Some(mut desk) = at_a(alloc, WANTING) else {
        return false;
    };
    desk.port.tells(from, all);
    let Ok(wanted) = format!(in alloc; "[\"hello\",\"a\",1,2]\n{told}[\"ok\"]\n") else {
        return false;
    };
    desk.accepts_all(alloc, 3)
        && desk.wrote(wanted.as_str())
        && desk.asked(&[Call::ToldFrom(0, 3), Call::Full(0)])
}

#[test]
fn a_want_whose_answer_is_too_long_ends_no_link(rt: HostRuntime) {
    assert!(rt; answers_want(rt.alloc(), Much::Long, Much::Long, ""));
}

#[test]
fn a_want_is_answered_by_all_where_that_is_shorter(rt: HostRuntime) {
    let all = "[\"told\",0,[[[\"b\",1,0,2]],[],[]]]\n";
    assert!(rt; answers_want(rt.alloc(), Much::Long, Much::Little, all));
}

#[test]
fn a_want_whose_answer_has_too_many_extras_ends_no_link(rt: HostRuntime) {
    assert!(rt; answers_want(rt.alloc(), Much::Counted(TOO_MANY), Much::Long, ""));
}
