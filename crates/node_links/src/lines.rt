//! Reading and writing a line.
ghost use Rattle.std.specs.Prelude.{◌≡◌, ◌≤◌, IfErr, string_bytes};
ghost use Rattle.link_lines.specs.Reading.{IsTextFault};
ghost use Rattle.link_lines.specs.Results.{Answers};
ghost use Rattle.node_links.specs.Streams.{line_in_bytes, ReadsLine, WritesText, WritesLine, GivesFed};

use crate::bytes::{read_text, write_bytes};
use crate::counts::tells_too_many;
use link_lines::{Hearer, Line, LinkFault, decode_line, encode_line};
use std::alloc::Global;
use std::io::{Read, Write};
use std::str;

/// The line that these bytes are to a hearer: a line's text without its line feed.
pub fn line_of_bytes(alloc: Global, bytes: &[u8], hearer: Hearer) -> Result<Line, LinkFault>
    requires { 1 ≤ hearer.shards }
    ensures line { Answers result (line_in_bytes hearer bytes.now) }
    ensures faults { IfErr result (IsTextFault bytes.now) }
{
    match str::from_utf8(bytes) {
        Ok(text) => decode_line(alloc, text, hearer),
        Err(_) => Err(LinkFault::NotJson),
    }
}

/// The next line of a link to a hearer, or none at an end between lines.
///
/// At most one byte more than a line may have is read. 200 interrupted reads in a row are a failed read.
#[tactic(auto, using(crate::proofs::LineFacts::read_fault))]
pub fn read_line<R: Read>(
    alloc: Global,
    reader: &mut R,
    hearer: Hearer,
) -> Result<Option<Line>, LinkFault>
    requires { 1 ≤ hearer.shards }
    ensures { ReadsLine hearer (R.remaining reader.old) (R.remaining reader.new) result }
{
    let Some(text) = read_text(alloc, reader)? else {
        return Ok(None);
    };
    match line_of_bytes(alloc, text.as_slice(), hearer) {
        Ok(line) => Ok(Some(line)),
        Err(fault) => Err(fault),
    }
}

// The line's text, with its line feed.
fn fed_text(alloc: Global, line: &Line) -> Result<String, LinkFault>
    ensures { GivesFed string_bytes line.now result }
{
    let mut text = encode_line(alloc, line)?;
    match text.push('\n') {
        Ok(()) => Ok(text),
        Err(_) => Err(LinkFault::OutOfMemory),
    }
}

#[tactic(auto, using(crate::proofs::LineFacts::written))]
fn write_text<W: Write>(alloc: Global, writer: &mut W, line: &Line) -> Result<(), LinkFault>
    ensures { WritesText line.now (W.contents writer.old) (W.contents writer.new) result }
{
    let text = fed_text(alloc, line)?;
    write_bytes(writer, text.as_str().as_bytes())
}

/// Writes a line and its line feed. The whole text is made before the first byte goes out, and the
/// stream isn't flushed. What is told is counted before that: a told value of more rows and extras, or in the second
/// form rows and ranges, than a node takes in is refused as too long, without memory.
pub fn write_line<W: Write>(alloc: Global, writer: &mut W, line: &Line) -> Result<(), LinkFault>
    ensures { WritesLine line.now (W.contents writer.old) (W.contents writer.new) result }
{
    if tells_too_many(line) {
        return Err(LinkFault::LineTooLong);
    }
    write_text(alloc, writer, line)
}
