//! The fold.
ghost use Rattle.std.specs.Prelude.{◌≡◌, false, IfSome};
ghost use Rattle.serde_json.specs.Written.{has_float};
ghost use Rattle.presence_stdio.specs.Mirrors.{mirrors_value};
ghost use Rattle.presence_stdio.specs.Folding.{FoldsLine, FoldTurnOf, ReadsFrames, Prints, TellsFold, FoldsInput, seen};

use crate::fold_fault::FoldFault;
use crate::lines::{MAX_LINES, is_at_end, read_line, write_bytes};
use crate::mirrors::{take_message, text_of_mirrors};
use crate::reading::message_within;
use crate::stream_fault::{ReadFault, StreamFault};
use phx_message::{Limits, MessageFault};
use presence_base::Topic;
use presence_metas::{FrameFault, Mirror};
use std::alloc::{AllocError, Global};
use std::collections::BTreeMap;
use std::io::{Read, Write};

// Folds in the nth line.
fn take_line(
    alloc: Global,
    mirrors: &mut BTreeMap<Topic, Mirror>,
    line: &[u8],
    n: u64,
) -> Result<(), FoldFault>
    ensures { FoldsLine n mirrors.old.entries mirrors.new.entries line.now result }
{
    let message = match message_within(alloc, line, Limits::FRAME) {
        Ok(message) => message,
        Err(MessageFault::OutOfMemory) => return Err(FoldFault::Memory),
        Err(fault) => return Err(FoldFault::Line(n, fault)),
    };
    match take_message(alloc, mirrors, &message) {
        Ok(()) => Ok(()),
        Err(FrameFault::OutOfMemory) => Err(FoldFault::Memory),
        Err(fault) => Err(FoldFault::Frame(n, fault)),
    }
}

// Reads the nth line and folds it in, if there is one.
fn fold_turn<R: Read>(
    alloc: Global,
    mirrors: &mut BTreeMap<Topic, Mirror>,
    reader: &mut R,
    n: u64,
) -> Result<bool, FoldFault>
    ensures { FoldTurnOf n mirrors.old.entries mirrors.new.entries (R.remaining reader.old)
        (R.remaining reader.new) result }
{
    let line = match read_line(alloc, reader, Limits::FRAME.bytes) {
        Ok(Some(line)) => line,
        Ok(None) => return Ok(false),
        Err(StreamFault::Memory) => return Err(FoldFault::Memory),
        Err(_) => return Err(FoldFault::Read(ReadFault::Failed)),
    };
    match take_line(alloc, mirrors, line.as_slice(), n) {
        Ok(()) => Ok(true),
        Err(fault) => Err(fault),
    }
}

// Folds in each line of the input, of which at most `max` are read.
fn fold_all<R: Read>(
    alloc: Global,
    reader: &mut R,
    max: u64,
) -> Result<BTreeMap<Topic, Mirror>, FoldFault>
    ensures { ReadsFrames max (R.remaining reader.old) (R.remaining reader.new)
        (seen (λ m. m.entries) result) }
{
    let mut mirrors = BTreeMap::new(alloc);
    for n in 0..max {
        match fold_turn(alloc, &mut mirrors, reader, n + 1) {
            Ok(true) => {}
            Ok(false) => return Ok(mirrors),
            Err(fault) => return Err(fault),
        }
    }
    match is_at_end(reader) {
        Ok(true) => Ok(mirrors),
        Ok(false) => Err(FoldFault::Read(ReadFault::TooManyLines)),
        Err(_) => Err(FoldFault::Read(ReadFault::Failed)),
    }
}

// Prints the object from topic to map. All of it is made before the first byte is written.
fn print_mirrors<W: Write>(
    alloc: Global,
    mirrors: &BTreeMap<Topic, Mirror>,
    writer: &mut W,
) -> Result<(), FoldFault>
    ensures { has_float (mirrors_value mirrors.now.entries) ≡ false
        → Prints mirrors.now.entries (W.contents writer.old) (W.contents writer.new) result }
{
    let text = match text_of_mirrors(alloc, mirrors) {
        Ok(text) => text,
        Err(_) => return Err(FoldFault::Memory),
    };
    match write_bytes(writer, text.as_slice()) {
        Ok(()) => Ok(()),
        Err(_) => Err(FoldFault::Write),
    }
}

/// Folds the frames of the input, of which at most `max` lines are read.
pub fn fold_lines<R: Read, W: Write>(
    alloc: Global,
    reader: &mut R,
    writer: &mut W,
    max: u64,
) -> Result<(), FoldFault>
    ensures { TellsFold max (R.remaining reader.old) (R.remaining reader.new)
        (W.contents writer.old) (W.contents writer.new) result }
{
    match fold_all(alloc, reader, max) {
        Ok(mirrors) => print_mirrors(alloc, &mirrors, writer),
        Err(fault) => Err(fault),
    }
}

/// Folds the frames of the input, one a line under `Limits::FRAME`, as a client does, and prints
/// one object from each topic to its map of keys. A message of another event is skipped.
///
/// Nothing is printed where a line is refused. At most 1,048,576 lines are read; one more is a read
/// fault. A diff costs the size of its topic's whole list, and the lists and the object's text are
/// held in memory.
pub fn run_fold<R: Read, W: Write>(
    alloc: Global,
    reader: &mut R,
    writer: &mut W,
) -> Result<(), FoldFault>
    ensures input { IfSome (R.remaining reader.old) (λ input. FoldsInput input
        (W.contents writer.old) (W.contents writer.new) result) }
    ensures lines { TellsFold MAX_LINES (R.remaining reader.old) (R.remaining reader.new)
        (W.contents writer.old) (W.contents writer.new) result }
{
    fold_lines(alloc, reader, writer, MAX_LINES)
}
