//! Told values of the second form at their limit of ranges and rows, and lines of either form at a peer whose link has the
//! other one.
ghost use Rattle.std.specs.Prelude.{◌≤◌};

use crate::counted::{MOST, TOO_MANY, counted_told, rows_told};
use crate::desk::{ONE, TWO, at_a};
use crate::faulty::Sink;
use link_lines::{Hearer, Line, LinkFault, Telling, decode_line, encode_line};
use node_links::{form_told, next_form, write_line};
use orswot_core::{Form, Orswot, Told};
use std::alloc::{AllocError, Global};

// The bytes of a told line with 65,536 ranges of b.1, each of every other count, and of one with 65,535 rows and their range.
const RANGES_BYTES: usize = 1_330_699;

const ROWS_BYTES: usize = 2_479_256;

// A told line of the second form with the ranges of b.1 of every other count, from one place up to another.
fn ranges_text(alloc: Global, first: u64, last: u64) -> Result<String, AllocError> {
    let mut text = String::from_str(alloc, "[\"told\",0,[[")?;
    for at in first..last {
        let from = at.saturating_mul(2);
        let to = from.saturating_add(1);
        let range = format!(in alloc; "[\"b\",1,{from},{to}],")?;
        text.push_str(range.as_str())?;
    }
    text.pop();
    text.push_str("],[]]]")?;
    Ok(text)
}

// Takes in these ranges.
fn join_ranges(alloc: Global, set: &mut Orswot, first: u64, last: u64) -> Result<(), AllocError> {
    let text = ranges_text(alloc, first, last)?;
    match decode_line(alloc, text.as_str(), TWO) {
        Ok(Line::Told { told, .. }) => set.join(alloc, &told.told),
        _ => Err(AllocError),
    }
}

// What is told in the second form by who heard of so many ranges, of which none meet.
fn ranges_told(alloc: Global, ranges: u64) -> Result<Told, AllocError> {
    let mut set = Orswot::new(alloc);
    join_ranges(alloc, &mut set, 0, 40_000)?;
    join_ranges(alloc, &mut set, 40_000, ranges)?;
    set.told(alloc, Form::Two)
}

// How writing a line of the second form ends, and how many bytes go out.
fn written(
    alloc: Global,
    told: Result<Told, AllocError>,
) -> Option<(Result<(), LinkFault>, usize)> {
    let line = Line::Told {
        shard: 0,
        told: Telling {
            form: Form::Two,
            told: told.ok()?,
        },
    };
    let mut sink = Sink {
        taken: Vec::new(alloc),
        step: 65_536,
        calls: 0,
        fails: usize::MAX,
        so: None,
    };
    let end = write_line(alloc, &mut sink, &line);
    Some((end, sink.taken.len()))
}

const REFUSED: Option<(Result<(), LinkFault>, usize)> = Some((Err(LinkFault::LineTooLong), 0));

#[test]
fn ranges_at_the_limit_are_written_and_above_it_are_not(rt: HostRuntime) {
    let alloc = rt.alloc();
    let most = written(alloc, ranges_told(alloc, MOST));
    assert!(rt; most == Some((Ok(()), RANGES_BYTES + 1)));
    assert!(rt; written(alloc, ranges_told(alloc, TOO_MANY)) == REFUSED);
}

// A range counts as much as a row.
#[test]
fn rows_beside_a_range_are_counted_with_it(rt: HostRuntime) {
    let alloc = rt.alloc();
    let most = written(alloc, rows_told(alloc, 65_535, Form::Two));
    assert!(rt; most == Some((Ok(()), ROWS_BYTES + 1)));
    assert!(rt; written(alloc, rows_told(alloc, 65_536, Form::Two)) == REFUSED);
}

// What the first form has no room for is one range.
#[test]
fn a_long_run_is_a_short_line(rt: HostRuntime) {
    let alloc = rt.alloc();
    let Ok(told) = counted_told(alloc, TOO_MANY, Form::Two) else {
        return assert!(rt; false);
    };
    let line = Line::Told {
        shard: 0,
        told: Telling {
            form: Form::Two,
            told,
        },
    };
    let text = encode_line(alloc, &line).ok();
    let wanted = r#"["told",0,[[["b",1,1,65537]],[["b",1,2,"room:a","u2",5,{},null]]]]"#;
    assert!(rt; text.as_ref().map(|text| text.as_str()) == Some(wanted));
}

const HELLO_OF_ONE: &str = r#"["hello","b",1,2]"#;

const HELLO_OF_TWO: &str = r#"["hello","b",1,2,2]"#;

// A told value, a beat, and a beat of node `a` itself, in either form.
const LINES_OF_ONE: [&str; 3] = [
    r#"["told",0,[[["b",1,0,2]],[],[]]]"#,
    r#"["beat",0,"b",1,2,[[["b",1,1,2]],[["b",1,1]],[]]]"#,
    r#"["beat",0,"a",1,2,[[["a",1,1,2]],[["a",1,1]],[]]]"#,
];

const LINES_OF_TWO: [&str; 3] = [
    r#"["told",0,[[["b",1,0,2]],[]]]"#,
    r#"["beat",0,"b",1,2,[[["b",1,0,1],["b",1,1,2]],[]]]"#,
    r#"["beat",0,"a",1,2,[[["a",1,0,1],["a",1,1,2]],[]]]"#,
];

// How many actions node `a` is asked for behind this hello by a line that was read for this hearer.
fn asked(alloc: Global, hello: &str, text: &str, hearer: Hearer) -> Option<Result<usize, LinkFault>>
    requires { 1 ≤ hearer.shards }
{
    let mut desk = at_a(alloc, b"")?;
    if !desk.takes(alloc, hello) {
        return None;
    }
    let line = decode_line(alloc, text, hearer).ok()?;
    Some(match desk.hears_line(alloc, line) {
        Ok(actions) => Ok(actions.len()),
        Err(fault) => Err(fault),
    })
}

#[test]
fn a_peer_refuses_what_is_told_in_the_other_form(rt: HostRuntime) {
    let alloc = rt.alloc();
    let bad = Some(Err(LinkFault::BadLine));
    for text in LINES_OF_ONE {
        assert!(rt; asked(alloc, HELLO_OF_TWO, text, ONE) == bad, "{text}");
    }
    for text in LINES_OF_TWO {
        assert!(rt; asked(alloc, HELLO_OF_ONE, text, TWO) == bad, "{text}");
    }
}

// A merge and ok; not gone, heard, a merge and the top; ok alone.
#[test]
fn a_peer_takes_what_is_told_in_its_form(rt: HostRuntime) {
    let alloc = rt.alloc();
    let counts = [2, 4, 1];
    for (text, count) in LINES_OF_ONE.into_iter().zip(counts) {
        assert!(rt;
            asked(alloc, HELLO_OF_ONE, text, ONE) == Some(Ok(count)),
            "{text}"
        );
    }
    for (text, count) in LINES_OF_TWO.into_iter().zip(counts) {
        assert!(rt;
            asked(alloc, HELLO_OF_TWO, text, TWO) == Some(Ok(count)),
            "{text}"
        );
    }
}

// A beat without a told value has no form.
#[test]
fn a_bare_beat_is_taken_in_either_version(rt: HostRuntime) {
    let alloc = rt.alloc();
    let beat = r#"["beat",0,"b",1,2,null]"#;
    assert!(rt; asked(alloc, HELLO_OF_ONE, beat, TWO) == Some(Ok(3)));
    assert!(rt; asked(alloc, HELLO_OF_TWO, beat, ONE) == Some(Ok(3)));
}

// The hello that each end tells, and those of a dialler that gets none back.
#[test]
fn hellos_of_a_dialling_end(rt: HostRuntime) {
    let alloc = rt.alloc();
    let Some(desk) = at_a(alloc, b"") else {
        return assert!(rt; false);
    };
    let hello = encode_line(alloc, &desk.link.peer.hello()).ok();
    let wanted = Some(r#"["hello","a",1,2,2]"#);
    assert!(rt; hello.as_ref().map(|text| text.as_str()) == wanted);
    assert!(rt; next_form(Form::Two, Form::Two) == Form::One);
    assert!(rt; next_form(Form::Two, Form::One) == Form::Two);
    assert!(rt; next_form(Form::One, Form::One) == Form::One);
    assert!(rt; form_told(None) == Form::One && form_told(Some(1)) == Form::One);
    assert!(rt; form_told(Some(2)) == Form::Two && form_told(Some(7)) == Form::Two);
}
