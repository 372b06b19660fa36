//! Lines that are unmarked as they are written.
ghost use Rattle.std.specs.Prelude.{◌≡◌, [], OnOk};
ghost use Rattle.std.specs.Io.KnownBytes.{Appends};
ghost use Rattle.number_lines.specs.Lines.{WritesUnmarked};

use number_texts::unmarked;
use presence_stdio::StreamFault;
use std::alloc::Global;
use std::io::{ErrorKind, Write};
use std::{io, str};

/// A writer that writes lines to another, each unmarked, once its line feed came. What stands behind the last line feed is not
/// written: of lines there is nothing.
pub struct UnmarkingWriter<W> {
    writer: W,
    alloc: Global,
    /// What came of a line that isn't whole.
    line: Vec<u8>,
}

impl<W: Drop> Drop for UnmarkingWriter<W> {
    fn drop(self) {
        let UnmarkingWriter {
            writer,
            alloc: _,
            line,
        } = self;
        drop(writer);
        drop(line);
    }
}

fn error_of(fault: StreamFault) -> io::Error {
    match fault {
        StreamFault::Memory => io::Error::from(ErrorKind::OutOfMemory),
        StreamFault::Read | StreamFault::Write => io::Error::from(ErrorKind::Other),
    }
}

// Writes these bytes.
fn write_bytes<W: Write>(writer: &mut W, bytes: &[u8]) -> Result<(), StreamFault>
    ensures { OnOk result (Appends (W.contents writer.old) (W.contents writer.new) bytes.now) }
{
    match writer.write_all(bytes) {
        Ok(()) => Ok(()),
        Err(_) => Err(StreamFault::Write),
    }
}

// Writes a line, unmarked where it is a text.
fn write_unmarked<W: Write>(alloc: Global, writer: &mut W, line: &[u8]) -> Result<(), StreamFault>
    ensures { OnOk result (WritesUnmarked line.now (W.contents writer.old) (W.contents writer.new)) }
{
    let Ok(text) = str::from_utf8(line) else {
        return write_bytes(writer, line);
    };
    match unmarked(alloc, text) {
        Ok(None) => write_bytes(writer, line),
        Ok(Some(text)) => write_bytes(writer, text.as_str().as_bytes()),
        Err(_) => Err(StreamFault::Memory),
    }
}

impl<W: Write> UnmarkingWriter<W> {
    pub fn new(alloc: Global, writer: W) -> UnmarkingWriter<W>
        ensures { result.line.items ≡ [] }
    {
        UnmarkingWriter {
            writer,
            alloc,
            line: Vec::new(alloc),
        }
    }

    // Takes a byte more, and writes the line where it is whole.
    fn take(&mut self, byte: u8) -> Result<(), StreamFault> {
        if self.line.push(byte).is_err() {
            return Err(StreamFault::Memory);
        }
        if byte != b'\n' {
            return Ok(());
        }
        write_unmarked(self.alloc, &mut self.writer, self.line.as_slice())?;
        self.line.clear();
        Ok(())
    }
}

impl<W: Write> Write for UnmarkingWriter<W> {
    fn write(&mut self, buf: &[u8]) -> io::Result<usize> {
        for byte in buf {
            if let Err(fault) = self.take(*byte) {
                return Err(error_of(fault));
            }
        }
        Ok(buf.len())
    }

    fn flush(&mut self) -> io::Result<()> {
        self.writer.flush()
    }
}
