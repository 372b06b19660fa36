//! The end that dialled: node `b`, with two shards, which dialled node `a`.
use crate::desk::{Desk, at_b, replica};
use crate::port::{Call, Much, long_told};
use link_lines::{Line, LinkFault, Telling};
use node_links::{ActFault, DialFault};
use orswot_core::Form;
use std::alloc::Global;

const HELLO: &str = r#"["hello","b",1,2]"#;

const BEAT: &str = r#"["beat",0,"b",1,2,null]"#;

// The beat as it goes out.
const SENT: &str = "[\"beat\",0,\"b\",1,2,null]\n";

// A want of what the beat tells, and an ok.
const WANT: &[u8] = b"[\"want\",0,\"b\",1,1]\n[\"ok\"]\n";

// Node `b` behind the hellos, with these lines to come.
fn greeted(alloc: Global, bytes: &[u8]) -> Option<Desk<'_>> {
    let mut desk = at_b(alloc, bytes)?;
    if desk.takes(alloc, r#"["hello","a",1,2]"#) {
        Some(desk)
    } else {
        None
    }
}

#[test]
fn hellos(rt: HostRuntime) {
    let alloc = rt.alloc();
    let Some(mut desk) = at_b(alloc, b"[\"hello\",\"a\",1,2]\n") else {
        assert!(rt; false);
        return;
    };
    assert!(rt; desk.dials_text(alloc, HELLO) == Some(Ok(false)));
    assert!(rt; desk.knows(alloc, "a", 1));
    assert!(rt; desk.wrote("[\"hello\",\"b\",1,2]\n"));
}

// Whether the beat of count 2 goes out with this behind it.
fn wrote_behind(alloc: Global, desk: &Desk<'_>, behind: &str) -> bool {
    match format!(in alloc; "[\"beat\",0,\"b\",1,2,null]{behind}") {
        Ok(out) => desk.wrote(out.as_str()),
        Err(_) => false,
    }
}

// Whether the beat of count 2 ends so with these lines to come, this goes out behind it, and so many calls are made.
fn beats(
    alloc: Global,
    lines: &str,
    end: Result<bool, DialFault>,
    behind: &str,
    calls: usize,
) -> bool {
    match greeted(alloc, lines.as_bytes()) {
        Some(mut desk) => {
            desk.dials_text(alloc, BEAT) == Some(end)
                && wrote_behind(alloc, &desk, behind)
                && desk.calls() == calls
        }
        None => false,
    }
}

// What goes out behind a beat where a told line is wanted.
const TOLD: &str = "\n[\"told\",0,[[[\"b\",1,0,2]],[],[]]]\n";

const ENDS: [(&str, Result<bool, DialFault>, &str, usize); 13] = [
    ("[\"ok\"]\n", Ok(false), "\n", 0),
    ("", Ok(false), "\n", 0),
    ("[\"gone\",\"b\",1]\n", Ok(true), "\n", 0),
    ("[\"gone\",\"b\",2]\n", Ok(false), "\n", 0),
    ("[\"permdown\",\"a\",1]\n", Ok(false), "\n", 2),
    ("[\"want\",0,\"b\",1,1]\n[\"ok\"]\n", Ok(false), TOLD, 1),
    ("[\"want\",0,\"c\",1,1]\n[\"ok\"]\n", Ok(false), TOLD, 1),
    ("[\"want\",0,\"b\",1,1]\n", Ok(false), TOLD, 1),
    (
        "[\"want\",0,\"b\",1,1]\n[\"gone\",\"b\",1]\n",
        Ok(true),
        TOLD,
        1,
    ),
    (
        "[\"want\",0,\"b\",1,1]\n[\"want\",0,\"b\",1,1]\n[\"ok\"]\n",
        Ok(false),
        TOLD,
        2,
    ),
    ("[\"ok\"", Err(DialFault::Link(LinkFault::CutLine)), "\n", 0),
    (
        "[\"hello\",\"a\",1,2]\n",
        Err(DialFault::Link(LinkFault::BadLine)),
        "\n",
        0,
    ),
    (
        "[\"want\",0,\"b\",1,1]\n[]\n",
        Err(DialFault::Link(LinkFault::BadLine)),
        TOLD,
        1,
    ),
];

#[test]
fn beats_and_their_answers(rt: HostRuntime) {
    for (lines, end, behind, calls) in ENDS {
        assert!(rt; beats(rt.alloc(), lines, end, behind, calls), "{lines}");
    }
}

// Whether the beat that is wanted by this line makes this one call.
fn asks_for(alloc: Global, want: &[u8], call: Call) -> bool {
    match greeted(alloc, want) {
        Some(mut desk) => { desk.dials_text(alloc, BEAT) == Some(Ok(false)) && desk.asked(&[call]) }
        None => false,
    }
}

#[test]
fn what_is_told(rt: HostRuntime) {
    let alloc = rt.alloc();
    assert!(rt; asks_for(alloc, b"[\"want\",1,\"b\",1,7]\n", Call::ToldFrom(1, 7)));
    assert!(rt; asks_for(alloc, b"[\"want\",1,\"c\",1,7]\n", Call::Full(1)));
}

#[test]
fn a_permdown_is_answered(rt: HostRuntime) {
    let alloc = rt.alloc();
    let Some(mut desk) = greeted(alloc, b"[\"ok\"]\n") else {
        assert!(rt; false);
        return;
    };
    assert!(rt; desk.dials_text(alloc, r#"["permdown","b",1]"#) == Some(Ok(false)));
    assert!(rt; desk.wrote("[\"permdown\",\"b\",1]\n"));
    assert!(rt; desk.rest() == 0);
}

// Whether a turn whose first call of the port is refused so ends with that refusal, behind the beat.
fn is_refused(alloc: Global, fault: ActFault) -> bool {
    let Some(mut desk) = greeted(alloc, WANT) else {
        return false;
    };
    desk.port.refuse(0, fault);
    desk.dials_text(alloc, BEAT) == Some(Err(DialFault::Act(fault))) && desk.wrote(SENT)
}

#[test]
fn a_port_that_refuses(rt: HostRuntime) {
    for fault in [ActFault::ShardFull, ActFault::OutOfMemory] {
        assert!(rt; is_refused(rt.alloc(), fault), "{fault}");
    }
}

// How the beat ends, with a want and an ok to come, where the call of the stream of this number fails.
fn failing(alloc: Global, fails: usize) -> Option<Result<bool, DialFault>> {
    let mut desk = greeted(alloc, WANT)?;
    desk.link.stream.fails = fails;
    desk.dials_text(alloc, BEAT)
}

// The beat goes out in 24 bytes by three calls, the want comes in 19 bytes, the told line goes out in 33 bytes by five
// calls, and the ok comes in seven bytes.
#[test]
fn a_stream_that_fails_at_each_call(rt: HostRuntime) {
    for fails in 0..34 {
        let fault = if fails < 3 || (fails >= 22 && fails < 27) {
            LinkFault::WriteFailed
        } else {
            LinkFault::ReadFailed
        };
        let end = Err(DialFault::Link(fault));
        assert!(rt; failing(rt.alloc(), fails) == Some(end), "{fails}");
    }
    assert!(rt; failing(rt.alloc(), 34) == Some(Ok(false)));
}

// The want is followed by an ok, which isn't read.
#[test]
fn a_told_line_that_is_too_long_is_not_written(rt: HostRuntime) {
    let alloc = rt.alloc();
    let Some(mut desk) = greeted(alloc, WANT) else {
        assert!(rt; false);
        return;
    };
    desk.port.tells(Much::Long, Much::Long);
    assert!(rt; desk.dials_text(alloc, BEAT) == Some(Ok(false)));
    assert!(rt; desk.wrote(SENT));
    assert!(rt; desk.asked(&[Call::ToldFrom(0, 1), Call::Full(0)]));
    assert!(rt; desk.rest() == 7);
}

// A beat of count 2 whose delta is too long for a line.
fn long_beat(alloc: Global) -> Option<Line> {
    let replica = replica(alloc, "b", 1)?;
    match long_told(alloc) {
        Ok(told) => Some(Line::Beat {
            shard: 0,
            replica,
            count: 2,
            delta: Some(Telling {
                form: Form::One,
                told,
            }),
        }),
        Err(_) => None,
    }
}

// A told line that is too long.
fn long_line(alloc: Global) -> Option<Line> {
    match long_told(alloc) {
        Ok(told) => Some(Line::Told {
            shard: 0,
            told: Telling {
                form: Form::One,
                told,
            },
        }),
        Err(_) => None,
    }
}

// How a turn with this line ends.
fn dials_made(
    alloc: Global,
    desk: &mut Desk<'_>,
    line: Option<Line>,
) -> Option<Result<bool, DialFault>> {
    match line {
        Some(line) => Some(desk.dials(alloc, &line)),
        None => None,
    }
}

#[test]
fn a_beat_that_is_too_long_goes_out_bare(rt: HostRuntime) {
    let alloc = rt.alloc();
    let Some(mut desk) = greeted(alloc, b"[\"ok\"]\n") else {
        assert!(rt; false);
        return;
    };
    assert!(rt; dials_made(alloc, &mut desk, long_beat(alloc)) == Some(Ok(false)));
    assert!(rt; desk.wrote(SENT));
    assert!(rt; desk.rest() == 0);
}

#[test]
fn another_line_that_is_too_long_is_refused(rt: HostRuntime) {
    let alloc = rt.alloc();
    let Some(mut desk) = greeted(alloc, b"[\"ok\"]\n") else {
        assert!(rt; false);
        return;
    };
    let end = Err(DialFault::Link(LinkFault::LineTooLong));
    assert!(rt; dials_made(alloc, &mut desk, long_line(alloc)) == Some(end));
    assert!(rt; desk.wrote(""));
}
