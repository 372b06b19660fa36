//! Reading and writing.
ghost use Rattle.std.specs.Prelude.{◌<◌, ◌^◌, IfErr, MatchResult};
ghost use Rattle.std.specs.Io.KnownBytes.{Appends};
ghost use Rattle.presence_stdio.specs.Bytes.{TakesByte, IsPatient, AsksEnd, TakesNext, AppendsFront};

use crate::stream_fault::StreamFault;
use std::alloc::Global;
use std::io::{ErrorKind, Read, Write};

/// How many lines of an input are read.
pub const MAX_LINES: u64 = 1_048_576;

/// How many interrupted reads in a row end an input.
pub const MAX_INTERRUPTS: u32 = 200;

/// Why no byte came: the read failed, or so many reads in a row were interrupted.
#[derive(Clone, Copy)]
enum Unread {
    Failed,
    Interrupted(u32),
}

// The next byte, or none at the end.
fn next_byte<R: Read>(reader: &mut R) -> Result<Option<u8>, Unread>
    ensures byte { TakesByte (R.remaining reader.old) (R.remaining reader.new) result }
    ensures patience { IfErr result (λ why. IsPatient 200 why) }
{
    let mut byte = [0u8; 1];
    let mut interrupted = 0;
    while interrupted < MAX_INTERRUPTS {
        match reader.read(&mut byte) {
            Ok(0) => return Ok(None),
            Ok(_) => return Ok(Some(byte[0])),
            Err(e) => {
                if e.kind() != ErrorKind::Interrupted {
                    return Err(Unread::Failed);
                }
                interrupted += 1;
            }
        }
    }
    Err(Unread::Interrupted(interrupted))
}

/// Whether nothing is left. A byte that was left is read.
pub fn is_at_end<R: Read>(reader: &mut R) -> Result<bool, StreamFault>
    ensures { AsksEnd (R.remaining reader.old) (R.remaining reader.new) result }
{
    match next_byte(reader) {
        Ok(None) => Ok(true),
        Ok(Some(_)) => Ok(false),
        Err(_) => Err(StreamFault::Read),
    }
}

/// The next line without its line feed, or none at the end. Of a line above the limit one byte more than the limit is kept.
pub fn read_line<R: Read>(
    alloc: Global,
    reader: &mut R,
    limit: usize,
) -> Result<Option<Vec<u8>>, StreamFault>
    requires { limit < 2 ^ 63 }
    ensures { TakesNext limit (R.remaining reader.old) (R.remaining reader.new) result
        (λ line. line.items) }
{
    let mut line = Vec::new(alloc);
    for _turn in 0..limit + 1 {
        match next_byte(reader) {
            Ok(None) => {
                if line.is_empty() {
                    return Ok(None);
                }
                return Ok(Some(line));
            }
            Ok(Some(b'\n')) => return Ok(Some(line)),
            Ok(Some(byte)) => {
                if line.push(byte).is_err() {
                    return Err(StreamFault::Memory);
                }
            }
            Err(_) => return Err(StreamFault::Read),
        }
    }
    Ok(Some(line))
}

/// Writes these bytes. A fault may leave some of them written, and never all.
pub fn write_bytes<W: Write>(writer: &mut W, bytes: &[u8]) -> Result<(), StreamFault>
    ensures { MatchResult result
        (λ _. Appends (W.contents writer.old) (W.contents writer.new) bytes.now)
        (λ _. AppendsFront (W.contents writer.old) (W.contents writer.new) bytes.now) }
{
    if bytes.is_empty() {
        return Ok(());
    }
    let mut done = 0;
    for _ in 0..u64::MAX {
        match writer.write(&bytes[done..]) {
            Ok(0) => return Err(StreamFault::Write),
            Ok(n) => {
                done += n;
                if done >= bytes.len() {
                    return Ok(());
                }
            }
            Err(e) => {
                if e.kind() != ErrorKind::Interrupted {
                    return Err(StreamFault::Write);
                }
            }
        }
    }
    Err(StreamFault::Write)
}
