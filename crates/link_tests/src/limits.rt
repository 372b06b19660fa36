//! Told values at their limit of rows and extras, and one above it: in a beat, in what is told from a count, and in all
//! that is told.
use crate::counted::{MOST, TOO_MANY, counted_told, rows_told};
use crate::desk::{Desk, ONE, at_b, replica};
use crate::faulty::Sink;
use crate::port::{Call, Much};
use link_lines::{Line, LinkFault, Telling, decode_line};
use node_links::{DialFault, write_line};
use orswot_core::{Form, Told};
use std::alloc::{AllocError, Global};

// The bytes of lines with 65,536 rows and extras of b.1, line feeds aside: 65,535 extras of 8 bytes and 316,573 digits in
// all, the commas between, the row, and what stands around them.
const TOLD_BYTES: usize = 906_452;

const BEAT_BYTES: usize = 906_460;

// The same of 65,536 rows: each has 32 bytes and the digits of its count, which are 316,574 in all.
const TOLD_ROWS_BYTES: usize = 2_479_297;

const BEAT_ROWS_BYTES: usize = 2_479_309;

const BEAT: &str = r#"["beat",0,"b",1,2,null]"#;

const SENT: &str = "[\"beat\",0,\"b\",1,2,null]\n";

// A want of what the beat tells, and an ok.
const WANT: &[u8] = b"[\"want\",0,\"b\",1,1]\n[\"ok\"]\n";

const LITTLE: &str = "[\"beat\",0,\"b\",1,2,null]\n[\"told\",0,[[[\"b\",1,0,2]],[],[]]]\n";

fn telling(told: Told) -> Telling {
    Telling {
        form: Form::One,
        told,
    }
}

fn told_line(told: Result<Told, AllocError>) -> Option<Line> {
    match told {
        Ok(told) => Some(Line::Told {
            shard: 0,
            told: telling(told),
        }),
        Err(_) => None,
    }
}

fn beat_line(alloc: Global, count: u64, told: Result<Told, AllocError>) -> Option<Line> {
    let replica = replica(alloc, "b", 1)?;
    match told {
        Ok(told) => Some(Line::Beat {
            shard: 0,
            replica,
            count,
            delta: Some(telling(told)),
        }),
        Err(_) => None,
    }
}

// How writing the line ends, and what goes out.
fn written(alloc: Global, line: Option<Line>) -> Option<(Result<(), LinkFault>, Vec<u8>)> {
    let line = line?;
    let mut sink = Sink {
        taken: Vec::new(alloc),
        step: 65_536,
        calls: 0,
        fails: usize::MAX,
        so: None,
    };
    let end = write_line(alloc, &mut sink, &line);
    Some((end, sink.taken))
}

// How writing a line ends, and how many bytes go out.
type Ending = Option<(Result<(), LinkFault>, usize)>;

fn bytes_of(alloc: Global, line: Option<Line>) -> Ending {
    let (end, taken) = written(alloc, line)?;
    Some((end, taken.len()))
}

// How writing a told line and a beat ends that tell a row and extras, so many in all, and how many bytes go out.
fn counted_lines(alloc: Global, things: u64) -> [Ending; 2] {
    let told = told_line(counted_told(alloc, things, Form::One));
    let beat = beat_line(alloc, 2, counted_told(alloc, things, Form::One));
    [bytes_of(alloc, told), bytes_of(alloc, beat)]
}

// The same of lines that tell so many rows.
fn lines_of_rows(alloc: Global, rows: u64) -> [Ending; 2] {
    let told = told_line(rows_told(alloc, rows, Form::One));
    let beat = beat_line(alloc, rows, rows_told(alloc, rows, Form::One));
    [bytes_of(alloc, told), bytes_of(alloc, beat)]
}

// They are refused, and nothing goes out.
const REFUSED: [Ending; 2] = [
    Some((Err(LinkFault::LineTooLong), 0)),
    Some((Err(LinkFault::LineTooLong), 0)),
];

// They go out, with these many bytes and a line feed each.
const fn sent(told: usize, beat: usize) -> [Ending; 2] {
    [
        Some((Ok(()), told.saturating_add(1))),
        Some((Ok(()), beat.saturating_add(1))),
    ]
}

#[test]
fn lines_at_the_limit_are_written_and_above_it_are_not(rt: HostRuntime) {
    let alloc = rt.alloc();
    assert!(rt; counted_lines(alloc, MOST) == sent(TOLD_BYTES, BEAT_BYTES));
    assert!(rt; counted_lines(alloc, TOO_MANY) == REFUSED);
}

#[test]
fn lines_of_rows_at_the_limit_are_written_and_above_it_are_not(rt: HostRuntime) {
    let alloc = rt.alloc();
    assert!(rt; lines_of_rows(alloc, MOST) == sent(TOLD_ROWS_BYTES, BEAT_ROWS_BYTES));
    assert!(rt; lines_of_rows(alloc, TOO_MANY) == REFUSED);
}

// Whether what goes out for the line is read as a line of so many extras and a row.
fn is_read(alloc: Global, things: u64) -> bool {
    let Some((Ok(()), taken)) = written(alloc, told_line(counted_told(alloc, things, Form::One)))
    else {
        return false;
    };
    let Ok(text) = std::str::from_utf8(&taken) else {
        return false;
    };
    match decode_line(alloc, text, ONE) {
        Ok(Line::Told { told, .. }) => {
            told.told.live().len() == 1
                && told.told.extras().len() as u64 == things.saturating_sub(1)
        }
        _ => false,
    }
}

#[test]
fn a_line_at_the_limit_is_read(rt: HostRuntime) {
    assert!(rt; is_read(rt.alloc(), MOST));
}

// Node `b` behind the hellos, with a want and an ok to come, of which so much is told.
fn wanted(alloc: Global, from: Much, all: Much) -> Option<Desk<'static>> {
    let mut desk = at_b(alloc, WANT)?;
    desk.port.tells(from, all);
    if desk.takes(alloc, r#"["hello","a",1,2]"#) {
        Some(desk)
    } else {
        None
    }
}

// How many bytes go out behind a beat of which so much is wanted, where the exchange ends well.
fn goes_out(alloc: Global, from: Much, all: Much, calls: &[Call]) -> Option<usize> {
    let mut desk = wanted(alloc, from, all)?;
    if desk.dials_text(alloc, BEAT) != Some(Ok(false)) || !desk.asked(calls) {
        return None;
    }
    desk.link.stream.taken.len().checked_sub(SENT.len())
}

const FROM: [Call; 1] = [Call::ToldFrom(0, 1)];

const BOTH: [Call; 2] = [Call::ToldFrom(0, 1), Call::Full(0)];

// How many bytes the range of both counts takes, where that is told.
fn little() -> usize {
    LITTLE.len().saturating_sub(SENT.len())
}

#[test]
fn what_is_wanted_is_told_where_it_fits(rt: HostRuntime) {
    let alloc = rt.alloc();
    let most = Much::Counted(MOST);
    assert!(rt; goes_out(alloc, most, Much::Little, &FROM) == Some(TOLD_BYTES + 1));
    let rows = Much::Rows(MOST);
    assert!(rt; goes_out(alloc, rows, Much::Little, &FROM) == Some(TOLD_ROWS_BYTES + 1));
}

#[test]
fn all_is_told_in_its_place(rt: HostRuntime) {
    let alloc = rt.alloc();
    let many = Much::Counted(TOO_MANY);
    assert!(rt; goes_out(alloc, many, Much::Little, &BOTH) == Some(little()));
    assert!(rt; goes_out(alloc, Much::Rows(TOO_MANY), Much::Little, &BOTH) == Some(little()));
    assert!(rt; goes_out(alloc, Much::Long, Much::Little, &BOTH) == Some(little()));
}

#[test]
fn nothing_is_told_where_neither_fits(rt: HostRuntime) {
    let alloc = rt.alloc();
    let many = Much::Counted(TOO_MANY);
    assert!(rt; goes_out(alloc, Much::Long, many, &BOTH) == Some(0));
    assert!(rt; goes_out(alloc, many, Much::Long, &BOTH) == Some(0));
}

// Another replica is wanted: all is told, or nothing.
fn goes_out_of_all(alloc: Global, all: Much) -> Option<(usize, usize)> {
    let mut desk = at_b(alloc, b"[\"want\",0,\"c\",1,1]\n[\"ok\"]\n")?;
    desk.port.tells(Much::Little, all);
    if !desk.takes(alloc, r#"["hello","a",1,2]"#) {
        return None;
    }
    if desk.dials_text(alloc, BEAT) != Some(Ok(false)) {
        return None;
    }
    let bytes = desk.link.stream.taken.len().checked_sub(SENT.len())?;
    Some((bytes, desk.rest()))
}

#[test]
fn all_is_told_where_it_fits(rt: HostRuntime) {
    let alloc = rt.alloc();
    assert!(rt; goes_out_of_all(alloc, Much::Counted(MOST)) == Some((TOLD_BYTES + 1, 0)));
    assert!(rt; goes_out_of_all(alloc, Much::Counted(TOO_MANY)) == Some((0, 7)));
    assert!(rt; goes_out_of_all(alloc, Much::Rows(MOST)) == Some((TOLD_ROWS_BYTES + 1, 0)));
    assert!(rt; goes_out_of_all(alloc, Much::Rows(TOO_MANY)) == Some((0, 7)));
}

// What goes out for a beat of so many rows and extras, with an ok to come.
fn beat_goes_out(alloc: Global, things: u64) -> Option<(Result<bool, DialFault>, usize)> {
    let mut desk = at_b(alloc, b"[\"ok\"]\n")?;
    if !desk.takes(alloc, r#"["hello","a",1,2]"#) {
        return None;
    }
    let beat = beat_line(alloc, 2, counted_told(alloc, things, Form::One))?;
    let end = desk.dials(alloc, &beat);
    Some((end, desk.link.stream.taken.len()))
}

#[test]
fn a_beat_above_the_limit_goes_out_bare(rt: HostRuntime) {
    let alloc = rt.alloc();
    assert!(rt; beat_goes_out(alloc, MOST) == Some((Ok(false), BEAT_BYTES + 1)));
    assert!(rt; beat_goes_out(alloc, TOO_MANY) == Some((Ok(false), SENT.len())));
}
