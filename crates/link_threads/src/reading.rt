//! The lines of links that came in, of which other threads read the long ones.
ghost use Rattle.std.specs.Prelude.{◌≤◌};

use crate::links::Links;
use link_lines::{Hearer, Line, LinkFault, MAX_LINE_BYTES};
use link_streams::{Clerk, is_long};
use node_links::line_of_bytes;
use std::alloc::Global;
use std::io;
use std::io::ErrorKind;
use std::sync::Wait;

/// How reading a line ends.
pub(crate) type LineRead = Result<Option<Line>, LinkFault>;

/// Who reads long lines, one at a time. A line may take a dozen times its bytes while it is read, and a thread keeps the memory
/// that it once took, for what it does next: so one does it for all links of a node that is dialled, and one for those of all
/// others.
pub(crate) type Reader = Clerk<LineBytes, LineRead>;

/// The readers, by their numbers.
#[derive(Drop)]
pub(crate) struct Readers {
    pub(crate) all: Vec<Reader>,
}

/// The bytes of a line as they came, and who hears it.
pub(crate) struct LineBytes {
    bytes: Vec<u8>,
    hearer: Hearer,
    ghost some: { 1 ≤ hearer.shards },
}

impl Drop for LineBytes {
    fn drop(self) {
        let LineBytes { bytes, hearer: _ } = self;
        drop(bytes);
    }
}

impl LineBytes {
    /// Such a line for this hearer.
    pub(crate) fn new(bytes: Vec<u8>, hearer: Hearer) -> LineBytes
        requires { 1 ≤ hearer.shards }
    {
        LineBytes { bytes, hearer }
    }

    /// Whether a reader is asked for it.
    pub(crate) fn is_long(&self) -> bool {
        is_long(self.bytes.len())
    }

    /// Reads it.
    pub(crate) fn read(&self, alloc: Global) -> LineRead {
        match self.bytes.split_last() {
            None => Ok(None),
            Some((b'\n', text)) => line_of_bytes(alloc, text, self.hearer).map(Some),
            Some(_) if self.bytes.len() > MAX_LINE_BYTES => Err(LinkFault::LineTooLong),
            Some(_) => Err(LinkFault::CutLine),
        }
    }
}

/// Why the bytes of a line could not be had.
pub(crate) fn unread(error: &io::Error) -> LinkFault {
    if error.kind() == ErrorKind::OutOfMemory {
        LinkFault::OutOfMemory
    } else {
        LinkFault::ReadFailed
    }
}

/// Reads the long lines of one reader, one at a time, until the links are to end.
pub(crate) fn read_long<R: Wait>(rt: &R, links: &Links, number: usize) {
    let Some(reader) = links.readers.all.get(number) else {
        return;
    };
    for _ in rt.forever() {
        let Some(line) = reader.next(rt) else {
            break;
        };
        reader.answer(rt, line.read(links.alloc));
    }
}
