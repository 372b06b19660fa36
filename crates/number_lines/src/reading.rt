//! Lines that are marked as they are read.
ghost use Rattle.std.specs.Prelude.{◌≡◌, ◌⊎◌, ◌+◌, ◌<◌, ◌≤◌, ◌^◌, IfOk, OnOk, drop, length, take, vec_len};
ghost use Rattle.number_lines.specs.Lines.{IsMarkedLine};

use number_texts::marked;
use phx_message::Limits;
use presence_stdio::{StreamFault, read_line};
use std::alloc::{AllocError, Global};
use std::io::{ErrorKind, Read};
use std::{io, str};

/// A reader that gives the lines of another, each marked. A line that is too long, or no UTF-8, is given as it is.
pub struct MarkingReader<R> {
    reader: R,
    alloc: Global,
    /// How many bytes a line may have, as it came.
    limit: usize,
    /// The line that is given, with its line feed.
    line: Vec<u8>,
    /// How many bytes of it were given.
    given: usize,
    ghost within: { limit < 2 ^ 63 },
}

impl<R: Drop> Drop for MarkingReader<R> {
    fn drop(self) {
        let MarkingReader {
            reader,
            alloc: _,
            limit: _,
            line,
            given: _,
        } = self;
        drop(reader);
        drop(line);
    }
}

/// The lines of clients that this reader gives, each marked.
pub fn client_lines<R: Read>(alloc: Global, reader: R) -> MarkingReader<R>
    ensures { result.limit ≡ Limits.CLIENT.bytes }
{
    MarkingReader {
        reader,
        alloc,
        limit: Limits::CLIENT.bytes,
        line: Vec::new(alloc),
        given: 0,
    }
}

/// The lines with frames that this reader gives, each marked.
pub fn frame_lines<R: Read>(alloc: Global, reader: R) -> MarkingReader<R>
    ensures { result.limit ≡ Limits.FRAME.bytes }
{
    MarkingReader {
        reader,
        alloc,
        limit: Limits::FRAME.bytes,
        line: Vec::new(alloc),
        given: 0,
    }
}

// A line with a line feed behind it, marked where it is a text.
fn marked_line(alloc: Global, line: Vec<u8>) -> Result<Vec<u8>, AllocError>
    ensures { IfOk result (λ given. IsMarkedLine line.items given.items) }
{
    let marked = match str::from_utf8(line.as_slice()) {
        Ok(text) => marked(alloc, text)?,
        Err(_) => None,
    };
    let mut whole = match marked {
        Some(text) => text.into_bytes(),
        None => line,
    };
    whole.push(b'\n')?;
    Ok(whole)
}

// Why no line could be had.
fn error_of(fault: StreamFault) -> io::Error {
    match fault {
        StreamFault::Memory => io::Error::from(ErrorKind::OutOfMemory),
        StreamFault::Read | StreamFault::Write => io::Error::from(ErrorKind::Other),
    }
}

impl<R: Read> MarkingReader<R> {
    // Takes the next line of the reader, or an empty one at its end.
    fn next_line(&mut self) -> io::Result<()>
        ensures { OnOk result (self.new.given ≡ 0) }
    {
        self.given = 0;
        self.line = Vec::new(self.alloc);
        let line = match read_line(self.alloc, &mut self.reader, self.limit) {
            Ok(Some(line)) => line,
            Ok(None) => return Ok(()),
            Err(fault) => return Err(error_of(fault)),
        };
        if line.len() > self.limit {
            self.line = line;
            return Ok(());
        }
        match marked_line(self.alloc, line) {
            Ok(line) => {
                self.line = line;
                Ok(())
            }
            Err(_) => Err(error_of(StreamFault::Memory)),
        }
    }

    // Gives what is left of the line, as far as there is room.
    fn give(&mut self, buf: &mut [u8]) -> usize
        requires { self.old.given ≤ vec_len self.old.line }
        ensures bound { result ≤ length buf.new }
        ensures len { length buf.new ≡ length buf.old }
        ensures bytes { take result buf.new ≡ take result (drop self.old.given self.old.line.items) }
        ensures given { self.new.given ≡ self.old.given + result }
        ensures room { length buf.old ≤ result ⊎ (self.new.given ≡ vec_len self.new.line) }
    {
        let left = &self.line[self.given..];
        let count = left.len().min(buf.len());
        buf[..count].copy_from_slice(&left[..count]);
        self.given += count;
        count
    }
}

impl<R: Read> Read for MarkingReader<R> {
    fn read(&mut self, buf: &mut [u8]) -> io::Result<usize> {
        if self.given >= self.line.len() {
            self.next_line()?;
        }
        Ok(self.give(buf))
    }
}
