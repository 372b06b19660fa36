// The world of nodes by the lines of standard input: what is asked is answered by a line of standard output.
use presence_stdio::{StreamFault, read_line};
use std::io::{self, BufReader, ErrorKind, Read};
use world_lines::{LineFault, Lines};

/// The longest line, in bytes.
const MAX_LINE_BYTES: usize = 1_048_576;

/// The status behind a line that is none of the world.
const BAD_LINE: u8 = 1;

// The bytes of the next line, if there is one.
fn next_line<R: Read, A: AllocGlobal>(rt: &A, reader: &mut R) -> io::Result<Option<Vec<u8>>> {
    match read_line(rt.alloc(), reader, MAX_LINE_BYTES) {
        Ok(line) => Ok(line),
        Err(StreamFault::Memory) => Err(io::Error::from(ErrorKind::OutOfMemory)),
        Err(_) => Err(io::Error::from(ErrorKind::InvalidData)),
    }
}

// Does what a line says and prints what it is answered. Answers whether it is a line of the world.
fn take_line<R: Print + AllocGlobal>(rt: &R, lines: &mut Lines, line: &[u8]) -> io::Result<bool> {
    if line.len() > MAX_LINE_BYTES {
        return Ok(false);
    }
    let Ok(text) = str::from_utf8(line) else {
        return Ok(false);
    };
    match lines.take(rt.alloc(), text) {
        Ok(Some(answer)) => {
            rt.println(answer.as_str())?;
            Ok(true)
        }
        Ok(None) => Ok(true),
        Err(LineFault::Unknown) => Ok(false),
        Err(LineFault::OutOfMemory) => Err(io::Error::from(ErrorKind::OutOfMemory)),
    }
}

/// Takes the lines up to the first that is none of the world, whose number it tells on standard error. Gives the status to
/// end with.
pub fn play<R: Input + Print + Eprint + AllocGlobal>(rt: &R) -> io::Result<u8> {
    let mut reader = BufReader::new(rt.alloc(), rt.reader())?;
    let mut lines = Lines::new();
    for number in 1..u64::MAX {
        let Some(line) = next_line(rt, &mut reader)? else {
            return Ok(0);
        };
        if !take_line(rt, &mut lines, line.as_slice())? {
            eprintln!(rt; "line {number}")?;
            return Ok(BAD_LINE);
        }
    }
    Ok(0)
}
