//! Bytes of a line.
ghost use Rattle.std.specs.Prelude.{IfErr};
ghost use Rattle.node_links.specs.Bytes.{TakesByte, IsPatient, TakesText, WritesAll};

use link_lines::{LinkFault, MAX_LINE_BYTES};
use std::alloc::Global;
use std::io::{ErrorKind, Read, Write};

/// How many interrupted reads in a row are a failed read.
const MAX_INTERRUPTS: u32 = 200;

/// Why no byte came: the read failed, or so many reads in a row were interrupted.
#[derive(Clone, Copy)]
enum Unread {
    Failed,
    Interrupted(u32),
}

// The next byte, or none at the end.
fn next_byte<R: Read>(reader: &mut R) -> Result<Option<u8>, Unread>
    ensures byte { TakesByte (R.remaining reader.old) (R.remaining reader.new) result }
    ensures patience { IfErr result (λ why. IsPatient 200 why) }
{
    let mut byte = [0u8; 1];
    let mut interrupted = 0;
    while interrupted < MAX_INTERRUPTS {
        match reader.read(&mut byte) {
            Ok(0) => return Ok(None),
            Ok(_) => return Ok(Some(byte[0])),
            Err(e) => {
                if e.kind() != ErrorKind::Interrupted {
                    return Err(Unread::Failed);
                }
                interrupted += 1;
            }
        }
    }
    Err(Unread::Interrupted(interrupted))
}

/// The bytes of the next line without its line feed, or none at the end. Of a line above the limit
/// one byte more than the limit is read.
pub(crate) fn read_text<R: Read>(
    alloc: Global,
    reader: &mut R,
) -> Result<Option<Vec<u8>>, LinkFault>
    ensures { TakesText (λ text. text.items) (R.remaining reader.old) (R.remaining reader.new) result }
{
    let mut text = Vec::new(alloc);
    for _turn in 0..MAX_LINE_BYTES + 1 {
        match next_byte(reader) {
            Ok(None) => {
                if text.is_empty() {
                    return Ok(None);
                }
                return Err(LinkFault::CutLine);
            }
            Ok(Some(b'\n')) => return Ok(Some(text)),
            Ok(Some(byte)) => {
                if text.push(byte).is_err() {
                    return Err(LinkFault::OutOfMemory);
                }
            }
            Err(_) => return Err(LinkFault::ReadFailed),
        }
    }
    Err(LinkFault::LineTooLong)
}

/// Writes these bytes. A fault may leave some of them written, and never all.
pub(crate) fn write_bytes<W: Write>(writer: &mut W, bytes: &[u8]) -> Result<(), LinkFault>
    ensures { WritesAll (W.contents writer.old) (W.contents writer.new) bytes.now result }
{
    if bytes.is_empty() {
        return Ok(());
    }
    let mut done = 0;
    for _ in 0..u64::MAX {
        match writer.write(&bytes[done..]) {
            Ok(0) => return Err(LinkFault::WriteFailed),
            Ok(n) => {
                done += n;
                if done >= bytes.len() {
                    return Ok(());
                }
            }
            Err(e) => {
                if e.kind() != ErrorKind::Interrupted {
                    return Err(LinkFault::WriteFailed);
                }
            }
        }
    }
    Err(LinkFault::WriteFailed)
}
