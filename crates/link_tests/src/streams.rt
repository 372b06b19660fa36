//! Lines over streams: their ends, their limit, and streams that fail at each call.
use crate::desk::ONE;
use crate::faulty::{Sink, Source};
use crate::worked::WORKED;
use link_lines::{Line, LinkFault, MAX_LINE_BYTES, decode_line};
use node_links::{read_line, write_line};
use std::alloc::{AllocError, Global};
use std::io::ErrorKind;
use std::test::Fail;

// How reading a line ends: whether there was one, or the fault.
fn ends(outcome: Result<Option<Line>, LinkFault>) -> Result<bool, LinkFault> {
    match outcome {
        Ok(Some(_)) => Ok(true),
        Ok(None) => Ok(false),
        Err(fault) => Err(fault),
    }
}

// How reading a line of these bytes ends, and how many bytes are left.
fn read_from(alloc: Global, bytes: &[u8]) -> (Result<bool, LinkFault>, usize) {
    let mut reader = bytes;
    let end = ends(read_line(alloc, &mut reader, ONE));
    (end, reader.len())
}

#[test]
fn lines_are_read_one_after_another(rt: HostRuntime) -> Result<(), Fail> {
    let mut reader = b"[\"ok\"]\n[\"want\",0,\"b\",1,1]\n".as_slice();
    assert_eq!(rt; ends(read_line(rt.alloc(), &mut reader, ONE)), Ok(true));
    assert_eq!(rt; reader.len(), 19);
    assert_eq!(rt; ends(read_line(rt.alloc(), &mut reader, ONE)), Ok(true));
    assert_eq!(rt; ends(read_line(rt.alloc(), &mut reader, ONE)), Ok(false));
    Ok(())
}

#[test]
fn ends_within_lines(rt: HostRuntime) -> Result<(), Fail> {
    assert_eq!(rt; read_from(rt.alloc(), b""), (Ok(false), 0));
    assert_eq!(rt;
        read_from(rt.alloc(), b"[\"ok\"]"),
        (Err(LinkFault::CutLine), 0)
    );
    assert_eq!(rt; read_from(rt.alloc(), b"x"), (Err(LinkFault::CutLine), 0));
    assert_eq!(rt;
        read_from(rt.alloc(), b"\n[\"ok\"]\n"),
        (Err(LinkFault::NotJson), 7)
    );
    assert_eq!(rt;
        read_from(rt.alloc(), b"\xff\nx"),
        (Err(LinkFault::NotJson), 1)
    );
    assert_eq!(rt;
        read_from(rt.alloc(), b"[\"o\nk\"]\n"),
        (Err(LinkFault::NotJson), 4)
    );
    assert_eq!(rt;
        read_from(rt.alloc(), b"[]\nx"),
        (Err(LinkFault::BadLine), 1)
    );
    Ok(())
}

// A line of so many bytes, with a line feed behind it.
fn spaced(alloc: Global, bytes: usize) -> Result<Vec<u8>, AllocError> {
    let mut line = Vec::new(alloc);
    line.extend_from_slice(b"[\"ok\"]")?;
    for _ in 6..bytes {
        line.push(b' ')?;
    }
    line.push(b'\n')?;
    Ok(line)
}

#[test]
fn a_line_of_the_limit_and_one_byte_more(rt: HostRuntime) -> Result<(), Fail> {
    let line = spaced(rt.alloc(), MAX_LINE_BYTES)?;
    assert_eq!(rt; read_from(rt.alloc(), line.as_slice()), (Ok(true), 0));
    let long = spaced(rt.alloc(), MAX_LINE_BYTES + 1)?;
    assert_eq!(rt;
        read_from(rt.alloc(), long.as_slice()),
        (Err(LinkFault::LineTooLong), 1)
    );
    Ok(())
}

// How reading the first line ends where the call of this number fails.
fn read_failing(alloc: Global, fails: usize, interrupts: u32) -> Result<bool, LinkFault> {
    let mut source = Source {
        rest: b"[\"ok\"]\n",
        interrupts,
        waited: 0,
        calls: 0,
        fails,
    };
    ends(read_line(alloc, &mut source, ONE))
}

#[test]
fn a_read_that_fails_at_each_call(rt: HostRuntime) -> Result<(), Fail> {
    for fails in 0..7 {
        assert_eq!(rt;
            read_failing(rt.alloc(), fails, 0),
            Err(LinkFault::ReadFailed)
        );
    }
    assert_eq!(rt; read_failing(rt.alloc(), 7, 0), Ok(true));
    Ok(())
}

#[test]
fn interrupted_reads_are_tried_again(rt: HostRuntime) -> Result<(), Fail> {
    assert_eq!(rt; read_failing(rt.alloc(), 7, 199), Ok(true));
    assert_eq!(rt;
        read_failing(rt.alloc(), 7, 200),
        Err(LinkFault::ReadFailed)
    );
    Ok(())
}

// What goes out of the second worked line where the call of this number takes nothing or fails so.
fn write_failing(
    alloc: Global,
    fails: usize,
    so: Option<ErrorKind>,
) -> (Result<(), LinkFault>, Vec<u8>) {
    let mut sink = Sink {
        taken: Vec::new(alloc),
        step: 8,
        calls: 0,
        fails,
        so,
    };
    let Ok(line) = decode_line(alloc, WORKED[1], ONE) else {
        return (Err(LinkFault::NotJson), sink.taken);
    };
    let end = write_line(alloc, &mut sink, &line);
    (end, sink.taken)
}

fn is_front(alloc: Global, fails: usize, so: Option<ErrorKind>) -> bool {
    let (end, taken) = write_failing(alloc, fails, so);
    end == Err(LinkFault::WriteFailed)
        && fails.checked_mul(8) == Some(taken.len())
        && WORKED[1].as_bytes().starts_with(taken.as_slice())
}

#[test]
fn a_write_that_fails_at_each_call(rt: HostRuntime) -> Result<(), Fail> {
    for fails in 0..10 {
        assert!(rt; is_front(rt.alloc(), fails, None));
        assert!(rt; is_front(rt.alloc(), fails, Some(ErrorKind::BrokenPipe)));
    }
    Ok(())
}

#[test]
fn a_line_is_written_with_its_line_feed(rt: HostRuntime) -> Result<(), Fail> {
    let (end, taken) = write_failing(rt.alloc(), 3, Some(ErrorKind::Interrupted));
    assert_eq!(rt; end, Ok(()));
    assert_eq!(rt; taken.len(), WORKED[1].len() + 1);
    assert!(rt; taken.as_slice().starts_with(WORKED[1].as_bytes()));
    assert!(rt; taken.as_slice().ends_with(b"\n"));
    Ok(())
}
