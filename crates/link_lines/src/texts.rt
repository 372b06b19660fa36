//! A text as a line, a line as a text.
ghost use Rattle.std.specs.Prelude.{◌≡◌, ◌≤◌, ◌<◌, ℕ, length, true, Some, Ok, Err, IfOk, IfErr, string_bytes};
ghost use Rattle.serde_json.specs.Read.{read};
ghost use Rattle.serde_json.specs.View.{view};
ghost use Rattle.link_lines.specs.declared.lines.Line.{Line as LineValue};
ghost use Rattle.link_lines.specs.declared.hearer.Hearer.{Hearer as HearerValue};
ghost use Rattle.link_lines.specs.declared.fault.LinkFault.TheVariants.{LineTooLong};
ghost use Rattle.link_lines.specs.declared.lines.TheConstants.{MAX_LINE_BYTES};
ghost use Rattle.link_lines.specs.Limits.{is_within};
ghost use Rattle.link_lines.specs.Reading.{IsLine, IsTextFault, line_in_text, decoded};
ghost use Rattle.link_lines.specs.Results.{Answers, Gives};
ghost use Rattle.link_lines.specs.Values.{value_of};
ghost use Rattle.link_lines.specs.Writing.{text_of, encoded};

use crate::fault::LinkFault;
use crate::hearer::Hearer;
use crate::lines::{Line, MAX_LINE_BYTES};
use crate::reading::line_of_json;
use crate::values::value_of_line;
use json::Scratch;
use json_parts::is_json;
use std::alloc::{AllocError, Global};

// The line that the text is to a hearer: first whether it's JSON, with nothing kept of it, then its parts one by one.
fn line_of_text(alloc: Global, text: &str, hearer: Hearer) -> Result<Line, LinkFault>
    requires { 1 ≤ hearer.shards }
    ensures { Answers result (line_in_text hearer text.now) }
{
    let mut scratch = Scratch::new(alloc);
    match is_json(text, &mut scratch) {
        Ok(true) => line_of_json(alloc, text, &mut scratch, hearer),
        Ok(false) => Err(LinkFault::NotJson),
        Err(_) => Err(LinkFault::OutOfMemory),
    }
}

fn decode_exactly(alloc: Global, text: &str, hearer: Hearer) -> Result<Line, LinkFault>
    requires { 1 ≤ hearer.shards }
    ensures exact { Answers result (decoded hearer text.now) }
    ensures long { MAX_LINE_BYTES < length text.now → result ≡ Err LineTooLong }
{
    if text.len() > MAX_LINE_BYTES {
        return Err(LinkFault::LineTooLong);
    }
    line_of_text(alloc, text, hearer)
}

/// The line that a text is to a hearer, or the first thing that is wrong with the text. What is told in another form than
/// the hearer's is a bad line, whatever is wrong with it. Want of memory is answered in place of any answer, but of a text
/// that is too long.
pub fn decode_line(alloc: Global, text: &str, hearer: Hearer) -> Result<Line, LinkFault>
    requires { 1 ≤ hearer.shards }
    ensures found { IfOk result (IsLine hearer text.now) }
    ensures only { (line : LineValue) → IsLine hearer text.now line → Answers result (Ok line) }
    ensures exact { Answers result (decoded hearer text.now) }
    ensures long { MAX_LINE_BYTES < length text.now → result ≡ Err LineTooLong }
    ensures faults { IfErr result (IsTextFault text.now) }
{
    decode_exactly(alloc, text, hearer)
}

// The text of a line, however long.
fn text_of_line(alloc: Global, line: &Line) -> Result<String, AllocError>
    ensures text { IfOk result (λ s. string_bytes s ≡ text_of line.now) }
    ensures reads { IfOk result (λ s. read (string_bytes s) ≡ Some (value_of line.now)) }
{
    let value = value_of_line(alloc, line)?;
    value.to_string(alloc)
}

/// The text of a line: its array without spaces. A text that is too long for a line is refused, and
/// a line that `decode_line` would refuse is written too.
pub fn encode_line(alloc: Global, line: &Line) -> Result<String, LinkFault>
    ensures exact { Gives string_bytes result (encoded line.now) }
    ensures again { IfOk result (λ s. (h : HearerValue) → is_within h line.now ≡ true
        → decoded h (string_bytes s) ≡ Ok line.now) }
{
    let Ok(text) = text_of_line(alloc, line) else {
        return Err(LinkFault::OutOfMemory);
    };
    if text.len() > MAX_LINE_BYTES {
        return Err(LinkFault::LineTooLong);
    }
    Ok(text)
}
