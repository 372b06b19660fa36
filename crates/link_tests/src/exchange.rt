//! A whole exchange at either end of a link, over a stream of which each call fails in turn.
use crate::desk::{Desk, NEVER, at_a, at_b};
use link_lines::LinkFault;
use node_links::DialFault;
use std::alloc::{AllocError, Global};
use std::test::Fail;

// A line that comes, with the calls that the port has had before it is whole and by the end of its turn, or one that goes out.
#[derive(Clone, Copy)]
enum Part {
    Comes(&'static str, usize, usize),
    Goes(&'static str),
}

// Node `b` dials node `a`: hellos, a beat with a row, one of what was missed, what is told, and a beat of `a` itself.
const ACCEPTED: [Part; 10] = [
    Part::Comes("[\"hello\",\"b\",1,2]\n", 0, 0),
    Part::Goes("[\"hello\",\"a\",1,2]\n"),
    Part::Comes(
        "[\"beat\",0,\"b\",1,1,[[[\"b\",1,0,1]],[],[[\"b\",1,1,\"room:a\",\"u2\",5,{\"x\":1},null]]]]\n",
        0,
        4,
    ),
    Part::Goes("[\"ok\"]\n"),
    Part::Comes("[\"beat\",0,\"b\",1,2,null]\n", 4, 7),
    Part::Goes("[\"want\",0,\"b\",1,1]\n"),
    Part::Comes("[\"told\",0,[[[\"b\",1,0,2]],[],[]]]\n", 7, 8),
    Part::Goes("[\"ok\"]\n"),
    Part::Comes("[\"beat\",0,\"a\",1,9,null]\n", 8, 8),
    Part::Goes("[\"ok\"]\n"),
];

// The same at node `b`: hellos, and a beat, of which `a` wants what it missed.
const DIALLED: [Part; 6] = [
    Part::Goes("[\"hello\",\"b\",1,2]\n"),
    Part::Comes("[\"hello\",\"a\",1,2]\n", 0, 0),
    Part::Goes("[\"beat\",0,\"b\",1,2,null]\n"),
    Part::Comes("[\"want\",0,\"b\",1,1]\n", 0, 1),
    Part::Goes("[\"told\",0,[[[\"b\",1,0,2]],[],[]]]\n"),
    Part::Comes("[\"ok\"]\n", 1, 1),
];

// How many calls of the stream a part takes: one for each byte that comes, and for each eight that go out.
fn stream_calls(part: Part) -> usize {
    match part {
        Part::Comes(line, _, _) => line.len(),
        Part::Goes(line) => line.len().saturating_add(7) / 8,
    }
}

// What is left where the call of one number fails.
struct Left {
    fault: LinkFault,
    // What went out, and how much of what came was read in whole lines.
    out: Vec<u8>,
    read: usize,
    // How many lines came whole, and how many calls the port has had.
    lines: usize,
    port_calls: usize,
}

impl Drop for Left {
    fn drop(self) {
        let Left {
            fault: _,
            out,
            read: _,
            lines: _,
            port_calls: _,
        } = self;
        drop(out);
    }
}

impl Left {
    // Adds a part that is done with.
    fn pass(&mut self, part: Part) -> Result<(), AllocError> {
        match part {
            Part::Comes(line, _, calls) => {
                self.read = self.read.saturating_add(line.len());
                self.lines = self.lines.saturating_add(1);
                self.port_calls = calls;
                Ok(())
            }
            Part::Goes(line) => self.out.extend_from_slice(line.as_bytes()),
        }
    }

    // Adds the part whose call of this number fails.
    fn break_off(&mut self, part: Part, call: usize) -> Result<(), AllocError> {
        match part {
            Part::Comes(_, calls, _) => {
                self.fault = LinkFault::ReadFailed;
                self.port_calls = calls;
                Ok(())
            }
            Part::Goes(line) => {
                self.fault = LinkFault::WriteFailed;
                let n = call.saturating_mul(8).min(line.len());
                self.out.extend_from_slice(&line.as_bytes()[..n])
            }
        }
    }
}

// What is left where the call of this number fails, or none where the parts take no so many.
fn left_at(alloc: Global, parts: &[Part], fails: usize) -> Result<Option<Left>, AllocError> {
    let mut left = Left {
        fault: LinkFault::ReadFailed,
        out: Vec::new(alloc),
        read: 0,
        lines: 0,
        port_calls: 0,
    };
    let mut before = 0_usize;
    for part in parts {
        let behind = before.saturating_add(stream_calls(*part));
        if fails < behind {
            left.break_off(*part, fails.saturating_sub(before))?;
            return Ok(Some(left));
        }
        left.pass(*part)?;
        before = behind;
    }
    Ok(None)
}

// All that comes, or all that goes out.
fn lines_of(alloc: Global, parts: &[Part], comes: bool) -> Result<String, AllocError> {
    let mut text = String::new(alloc);
    for part in parts {
        match *part {
            Part::Comes(line, _, _) if comes => text.push_str(line)?,
            Part::Goes(line) if !comes => text.push_str(line)?,
            _ => {}
        }
    }
    Ok(text)
}

// Whether this is left, and the other end is known once its hello, the first line that comes, is whole.
fn is_left(alloc: Global, desk: &Desk<'_>, left: &Left, other: &str) -> bool {
    desk.link.stream.taken.as_slice() == left.out.as_slice()
        && desk.calls() == left.port_calls
        && desk.knows(alloc, other, 1) == (left.lines > 0)
}

// How the end that was dialled goes on until a line isn't taken.
fn accepts_on(alloc: Global, desk: &mut Desk<'_>) -> Result<bool, DialFault> {
    for _ in 0..8 {
        let end = desk.accepts(alloc);
        if end != Ok(true) {
            return end;
        }
    }
    Ok(true)
}

// How the end that dialled goes on: the hello, and then the beat.
fn dials_on(alloc: Global, desk: &mut Desk<'_>) -> Option<Result<bool, DialFault>> {
    match desk.dials_text(alloc, r#"["hello","b",1,2]"#) {
        Some(Ok(false)) => desk.dials_text(alloc, r#"["beat",0,"b",1,2,null]"#),
        end => end,
    }
}

// Whether the exchange goes on as if nothing had failed once the line that wasn't read whole comes again.
fn goes_on(alloc: Global, desk: &mut Desk<'_>, out: &str) -> bool {
    accepts_on(alloc, desk) == Ok(false) && desk.wrote(out) && desk.calls() == 8
}

// Whether the end that was dialled breaks off as it should where the call of this number fails, and else ends as it should.
fn is_accepted_up_to(alloc: Global, fails: usize) -> Result<bool, AllocError> {
    let lines = lines_of(alloc, &ACCEPTED, true)?;
    let out = lines_of(alloc, &ACCEPTED, false)?;
    let bytes = lines.as_bytes();
    let mut desk = at_a(alloc, bytes).ok_or(AllocError)?;
    desk.link.stream.fails = fails;
    let end = accepts_on(alloc, &mut desk);
    let Some(left) = left_at(alloc, &ACCEPTED, fails)? else {
        return Ok(end == Ok(false) && desk.wrote(out.as_str()) && desk.calls() == 8);
    };
    if end != Err(DialFault::Link(left.fault)) || !is_left(alloc, &desk, &left, "b") {
        return Ok(false);
    }
    if left.fault != LinkFault::ReadFailed {
        return Ok(true);
    }
    let read = left.read.min(bytes.len());
    desk.give(&bytes[read..]);
    Ok(goes_on(alloc, &mut desk, out.as_str()))
}

// The same of the end that dialled.
fn is_dialled_up_to(alloc: Global, fails: usize) -> Result<bool, AllocError> {
    let lines = lines_of(alloc, &DIALLED, true)?;
    let mut desk = at_b(alloc, lines.as_bytes()).ok_or(AllocError)?;
    desk.link.stream.fails = fails;
    let end = dials_on(alloc, &mut desk);
    let Some(left) = left_at(alloc, &DIALLED, fails)? else {
        let out = lines_of(alloc, &DIALLED, false)?;
        return Ok(end == Some(Ok(false)) && desk.wrote(out.as_str()) && desk.calls() == 1);
    };
    let is_end = end == Some(Err(DialFault::Link(left.fault)));
    Ok(is_end && is_left(alloc, &desk, &left, "a"))
}

// The lines that come have 178 bytes, and what goes out takes 9 calls; at the end that dialled 44 and 11.
const ACCEPTED_CALLS: usize = 187;

const DIALLED_CALLS: usize = 55;

#[test]
fn each_call_that_fails_at_the_end_that_was_dialled(rt: HostRuntime) -> Result<(), Fail> {
    for fails in 0..ACCEPTED_CALLS {
        assert!(rt; is_accepted_up_to(rt.alloc(), fails)?, "{fails}");
    }
    assert!(rt; is_accepted_up_to(rt.alloc(), NEVER)?);
    Ok(())
}

#[test]
fn each_call_that_fails_at_the_end_that_dialled(rt: HostRuntime) -> Result<(), Fail> {
    for fails in 0..DIALLED_CALLS {
        assert!(rt; is_dialled_up_to(rt.alloc(), fails)?, "{fails}");
    }
    assert!(rt; is_dialled_up_to(rt.alloc(), NEVER)?);
    Ok(())
}
