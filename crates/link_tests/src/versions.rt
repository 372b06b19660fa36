//! Links of both versions: hellos, told values of either form and of the other one, and what is written for a set and a cut.
ghost use Rattle.std.specs.Prelude.{◌≤◌};

use crate::counted::{MOST, TOO_MANY, counted_told};
use crate::desk::{Desk, ONE, TWO, at_a, at_old_a};
use link_lines::{Hearer, Line, LinkFault, Telling, decode_line, encode_line};
use node_links::DialFault;
use orswot_core::{Form, Orswot, ToldFault};
use std::alloc::{AllocError, Global};

// What node `a` writes for these lines, up to the first that it refuses, and whether it refuses one so.
fn is_run(alloc: Global, desk: Option<Desk<'_>>, fault: Option<LinkFault>, written: &str) -> bool {
    let Some(mut desk) = desk else {
        return false;
    };
    for _ in 0..8u32 {
        match desk.accepts(alloc) {
            Ok(true) => {}
            Ok(false) => return fault.is_none() && desk.wrote(written),
            Err(DialFault::Link(refused)) => {
                return fault == Some(refused) && desk.wrote(written);
            }
            Err(DialFault::Act(_)) => return false,
        }
    }
    false
}

fn is_answered(alloc: Global, lines: &str, written: &str) -> bool {
    is_run(alloc, at_a(alloc, lines.as_bytes()), None, written)
}

fn is_refused(alloc: Global, lines: &str, fault: LinkFault, written: &str) -> bool {
    is_run(alloc, at_a(alloc, lines.as_bytes()), Some(fault), written)
}

// Hellos and what node `a` answers: four members name no version, and five the highest.
const HELLOS: [(&str, &str); 5] = [
    ("[\"hello\",\"b\",1,2]\n", "[\"hello\",\"a\",1,2]\n"),
    ("[\"hello\",\"b\",1,2,1]\n", "[\"hello\",\"a\",1,2]\n"),
    ("[\"hello\",\"b\",1,2,2]\n", "[\"hello\",\"a\",1,2,2]\n"),
    ("[\"hello\",\"b\",1,2,7]\n", "[\"hello\",\"a\",1,2,2]\n"),
    (
        "[\"hello\",\"b\",1,2,4611686018427387904]\n",
        "[\"hello\",\"a\",1,2,2]\n",
    ),
];

#[test]
fn a_hello_is_answered_in_the_links_version(rt: HostRuntime) {
    for (hello, answer) in HELLOS {
        assert!(rt; is_answered(rt.alloc(), hello, answer), "{hello}");
    }
}

// Fifth members that are no version, and six members.
const NO_HELLOS: [&str; 6] = [
    "[\"hello\",\"b\",1,2,0]\n",
    "[\"hello\",\"b\",1,2,4611686018427387905]\n",
    "[\"hello\",\"b\",1,2,\"2\"]\n",
    "[\"hello\",\"b\",1,2,2.0]\n",
    "[\"hello\",\"b\",1,2,null]\n",
    "[\"hello\",\"b\",1,2,2,2]\n",
];

#[test]
fn a_hello_of_no_version_is_a_bad_line(rt: HostRuntime) {
    for hello in NO_HELLOS {
        assert!(rt;
            is_refused(rt.alloc(), hello, LinkFault::BadLine, ""),
            "{hello}"
        );
    }
}

#[test]
fn a_node_of_the_first_version_answers_in_it(rt: HostRuntime) {
    let alloc = rt.alloc();
    let hello = "[\"hello\",\"b\",1,2,2]\n";
    let desk = at_old_a(alloc, hello.as_bytes());
    assert!(rt; is_run(alloc, desk, None, "[\"hello\",\"a\",1,2]\n"));
}

// Lines behind a hello of the second version that are taken in, each of which is answered ok.
const TAKEN: [&str; 5] = [
    r#"["told",0,[[["b",1,0,2],["b",1,2,4]],[]]]"#,
    r#"["told",0,[[["b",1,0,2],["b",1,2,2],["b",1,2,2],["c",1,0,1]],[]]]"#,
    r#"["told",0,[[["b",1,0,4611686018427387904]],[]]]"#,
    r#"["told",0,[[],[]]]"#,
    r#"["told",0,[[["b",1,0,1],["b",1,4,6]],[["b",1,5,"room:a","u2",5,{},null]]]]"#,
];

#[test]
fn ranges_in_order_are_taken_in(rt: HostRuntime) {
    for line in TAKEN {
        let read = decode_line(rt.alloc(), line, TWO);
        assert!(rt; matches!(&read, Ok(Line::Told { .. })), "{line}");
    }
}

// Lines of the second form, and what is wrong with each.
const FAULTY: [(&str, LinkFault); 10] = [
    (
        r#"["told",0,[[["b",1,0,3],["b",1,2,4]],[]]]"#,
        LinkFault::BadTold(ToldFault::TwoRanges),
    ),
    (
        r#"["told",0,[[["c",1,0,1],["b",1,0,1]],[]]]"#,
        LinkFault::BadTold(ToldFault::TwoRanges),
    ),
    (
        r#"["told",0,[[["b",2,0,1],["b",1,0,1]],[]]]"#,
        LinkFault::BadTold(ToldFault::TwoRanges),
    ),
    (
        r#"["told",0,[[["b",1,4,6],["b",1,0,2]],[]]]"#,
        LinkFault::BadTold(ToldFault::TwoRanges),
    ),
    (
        r#"["told",0,[[["b",1,3,2],["b",1,2,4]],[]]]"#,
        LinkFault::BadTold(ToldFault::TwoRanges),
    ),
    (
        r#"["told",0,[[["b",1,3,2]],[]]]"#,
        LinkFault::BadTold(ToldFault::BadRange),
    ),
    (
        r#"["told",0,[[["b",1,0,5],["b",1,5,3]],[]]]"#,
        LinkFault::BadTold(ToldFault::BadRange),
    ),
    (
        r#"["told",0,[[["b",1,0,1],["b",1,2,3]],[["b",1,2,"room:a","u2",5,{},null]]]]"#,
        LinkFault::BadTold(ToldFault::LiveNotCovered),
    ),
    (
        r#"["told",0,[[["b",1,0,1]],[["b",1,1,"room:b","u2",5,{},null]]]]"#,
        LinkFault::BadTold(ToldFault::RowLimits),
    ),
    (r#"["told",0,[[["b",0,0,1]],[]]]"#, LinkFault::BadLine),
];

fn is_fault(alloc: Global, text: &str, hearer: Hearer, fault: LinkFault) -> bool
    requires { 1 ≤ hearer.shards }
{
    match decode_line(alloc, text, hearer) {
        Ok(_) => false,
        Err(refused) => refused == fault,
    }
}

#[test]
fn what_is_wrong_with_ranges(rt: HostRuntime) {
    for (line, fault) in FAULTY {
        assert!(rt; is_fault(rt.alloc(), line, TWO, fault), "{line}");
    }
}

// Two ranges of one replica stay two ranges too many in the first form.
#[test]
fn the_first_form_has_one_range(rt: HostRuntime) {
    let line = r#"["told",0,[[["b",1,0,2],["b",1,2,3]],[],[]]]"#;
    let fault = LinkFault::BadTold(ToldFault::TwoRanges);
    assert!(rt; is_fault(rt.alloc(), line, ONE, fault));
}

// Told values of the first form, sound and faulty.
const OF_ONE: [&str; 4] = [
    r#"["told",0,[[["b",1,0,2]],[],[]]]"#,
    r#"["told",0,[[["b",1,0,2],["b",1,2,3]],[],[]]]"#,
    r#"["beat",0,"b",1,2,[[["b",1,1,2]],[["b",1,1]],[]]]"#,
    r#"["beat",0,"b",1,2,[[["b",1,3,2]],[],[]]]"#,
];

// And of the second.
const OF_TWO: [&str; 4] = [
    r#"["told",0,[[["b",1,0,2]],[]]]"#,
    r#"["told",0,[[["b",1,3,2]],[]]]"#,
    r#"["beat",0,"b",1,2,[[["b",1,0,1],["b",1,1,2]],[]]]"#,
    r#"["beat",0,"b",1,2,[[["b",1,0,3],["b",1,2,4]],[]]]"#,
];

// The other form is a bad line before any fault of the value, and before the hello either is.
#[test]
fn the_other_form_is_a_bad_line(rt: HostRuntime) {
    let none = Hearer {
        shards: 2,
        form: None,
    };
    for line in OF_ONE {
        assert!(rt;
            is_fault(rt.alloc(), line, TWO, LinkFault::BadLine),
            "{line}"
        );
        assert!(rt;
            is_fault(rt.alloc(), line, none, LinkFault::BadLine),
            "{line}"
        );
    }
    for line in OF_TWO {
        assert!(rt;
            is_fault(rt.alloc(), line, ONE, LinkFault::BadLine),
            "{line}"
        );
        assert!(rt;
            is_fault(rt.alloc(), line, none, LinkFault::BadLine),
            "{line}"
        );
    }
}

// A faulty told value that comes before the hello is a bad line, and not a bad told value.
#[test]
fn a_told_value_before_the_hello_is_a_bad_line(rt: HostRuntime) {
    let alloc = rt.alloc();
    let line = "[\"told\",0,[[[\"b\",1,3,2]],[],[]]]\n";
    assert!(rt; is_refused(alloc, line, LinkFault::BadLine, ""));
}

// The peer reads behind its hello in the link's form.
#[test]
fn a_link_tells_in_its_form(rt: HostRuntime) {
    let alloc = rt.alloc();
    let two = "[\"hello\",\"b\",1,2,2]\n[\"told\",0,[[[\"b\",1,0,2],[\"b\",1,2,4]],[]]]\n";
    assert!(rt; is_answered(alloc, two, "[\"hello\",\"a\",1,2,2]\n[\"ok\"]\n"));
    let one = "[\"hello\",\"b\",1,2]\n[\"told\",0,[[[\"b\",1,0,2],[\"b\",1,2,4]],[]]]\n";
    assert!(rt; is_refused(alloc, one, LinkFault::BadLine, "[\"hello\",\"a\",1,2]\n"));
    let two_ranges = "[\"hello\",\"b\",1,2]\n[\"told\",0,[[[\"b\",1,0,2],[\"b\",1,2,3]],[],[]]]\n";
    let fault = LinkFault::BadTold(ToldFault::TwoRanges);
    assert!(rt; is_refused(alloc, two_ranges, fault, "[\"hello\",\"a\",1,2]\n"));
}

// Beats of the second form: some ranges, all of the beat's replica.
const BEATS: [(&str, bool); 7] = [
    (r#"["beat",0,"b",1,2,[[["b",1,0,1],["b",1,1,2]],[]]]"#, true),
    (r#"["beat",0,"b",1,2,[[["b",1,0,1],["b",1,2,2]],[]]]"#, true),
    (r#"["beat",0,"b",1,2,[[["b",1,1,2]],[]]]"#, true),
    (r#"["beat",0,"b",1,2,[[],[]]]"#, false),
    (r#"["beat",0,"b",1,2,[[["c",1,0,2]],[]]]"#, false),
    (
        r#"["beat",0,"b",1,2,[[["b",1,0,1],["c",1,0,2]],[]]]"#,
        false,
    ),
    (
        r#"["beat",0,"b",1,2,[[["b",1,0,2]],[["c",1,1,"room:a","u2",5,{},null]]]]"#,
        false,
    ),
];

#[test]
fn a_beat_has_some_ranges_of_its_replica(rt: HostRuntime) {
    for (line, is_read) in BEATS {
        let read = decode_line(rt.alloc(), line, TWO);
        let is_bad = matches!(&read, Err(LinkFault::BadLine));
        assert!(rt; read.is_ok() == is_read && is_bad != is_read, "{line}");
    }
}

fn is_unchanged(alloc: Global, text: &str, hearer: Hearer) -> bool
    requires { 1 ≤ hearer.shards }
{
    let Ok(line) = decode_line(alloc, text, hearer) else {
        return false;
    };
    match encode_line(alloc, &line) {
        Ok(again) => again.as_str() == text,
        Err(_) => false,
    }
}

#[test]
fn lines_of_the_second_version_are_written_as_they_were_read(rt: HostRuntime) {
    for line in TAKEN {
        assert!(rt; is_unchanged(rt.alloc(), line, TWO), "{line}");
    }
    assert!(rt; is_unchanged(rt.alloc(), BEATS[0].0, TWO));
    assert!(rt; is_unchanged(rt.alloc(), BEATS[1].0, TWO));
    assert!(rt; is_unchanged(rt.alloc(), r#"["hello","b",1,2,7]"#, TWO));
}

// The line of all that is told of a set which heard of b.1.1 and b.1.3.
fn gap_line(alloc: Global, form: Form) -> Option<String> {
    let text = r#"["told",0,[[["b",1,0,1],["b",1,2,3]],[]]]"#;
    let Ok(Line::Told { told, .. }) = decode_line(alloc, text, TWO) else {
        return None;
    };
    let mut set = Orswot::new(alloc);
    set.join(alloc, &told.told).ok()?;
    let told = set.told(alloc, form).ok()?;
    let line = Line::Told {
        shard: 0,
        told: Telling { form, told },
    };
    encode_line(alloc, &line).ok()
}

#[test]
fn a_gap_is_told_in_either_form(rt: HostRuntime) {
    let alloc = rt.alloc();
    let two = gap_line(alloc, Form::Two);
    let one = gap_line(alloc, Form::One);
    let wanted = Some(r#"["told",0,[[["b",1,0,1],["b",1,2,3]],[]]]"#);
    assert!(rt; two.as_ref().map(|text| text.as_str()) == wanted);
    let wanted = Some(r#"["told",0,[[["b",1,0,1]],[["b",1,3]],[]]]"#);
    assert!(rt; one.as_ref().map(|text| text.as_str()) == wanted);
}

// So many ranges of b.1, each of one count, and none that meets another.
fn ranges_line(alloc: Global, ranges: u64) -> Result<String, AllocError> {
    let mut text = String::from_str(alloc, "[\"told\",0,[[")?;
    for at in 0..ranges {
        let from = at.saturating_mul(2);
        let to = from.saturating_add(1);
        let range = format!(in alloc; "[\"b\",1,{from},{to}],")?;
        text.push_str(range.as_str())?;
    }
    text.pop();
    text.push_str("],[]]]")?;
    Ok(text)
}

fn ranges_told(line: &Line) -> Option<usize> {
    match line {
        Line::Told { told, .. } => Some(told.told.ranges().len()),
        _ => None,
    }
}

fn reads_ranges(alloc: Global, ranges: u64) -> Option<Result<usize, LinkFault>> {
    let text = ranges_line(alloc, ranges).ok()?;
    match decode_line(alloc, text.as_str(), TWO) {
        Ok(line) => Some(Ok(ranges_told(&line)?)),
        Err(fault) => Some(Err(fault)),
    }
}

#[test]
fn ranges_are_counted(rt: HostRuntime) {
    let alloc = rt.alloc();
    assert!(rt; reads_ranges(alloc, MOST) == Some(Ok(65_536)));
    let many = LinkFault::BadTold(ToldFault::TooMany);
    assert!(rt; reads_ranges(alloc, TOO_MANY) == Some(Err(many)));
}

// A long run above a gap, with one row: in the second form one range.
#[test]
fn a_long_run_is_one_range(rt: HostRuntime) {
    let told = counted_told(rt.alloc(), TOO_MANY, Form::Two);
    assert!(rt; matches!(&told, Ok(told) if told.ranges().len() == 1 && told.extras().is_empty()));
}
