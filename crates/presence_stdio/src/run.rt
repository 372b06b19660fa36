//! The run.
ghost use Rattle.std.specs.Prelude.{◌≡◌, ◌≤◌, ℕ, List};
ghost use Rattle.presence_stdio.specs.Session.{start, voice_of};
ghost use Rattle.presence_stdio.specs.Run.{AnswerOf, Writes};
ghost use Rattle.presence_stdio.specs.Outlets.{held, Runs, RunsKnown, Turns};

use crate::fault::{LineFault, StdioFault};
use crate::lines::{MAX_LINES, is_at_end, read_line, write_bytes};
use crate::local::{LocalSession, Output};
use crate::outlets::Outlets;
use crate::stream_fault::{ReadFault, StreamFault};
use hook_registry::PresenceHooks;
use phx_message::Limits;
use presence_options::StdioOptions;
use std::alloc::Global;
use std::io::{Read, Write};

// Writes what goes out for a line: the texts, and then the notices.
fn write_output<W: Write, N: Write>(
    out: &mut Outlets<W, N>,
    output: &Output,
) -> Result<(), StdioFault>
    ensures { Writes (held W.contents N.contents out.old) (held W.contents N.contents out.new)
        output.now.text.items output.now.notes.items result }
{
    if write_bytes(&mut out.texts, output.text.as_slice()).is_err() {
        return Err(StdioFault::Write);
    }
    match write_bytes(&mut out.notes, output.notes.as_slice()) {
        Ok(()) => Ok(()),
        Err(_) => Err(StdioFault::Write),
    }
}

impl LocalSession {
    // Answers one line, the nth. All that goes out for it is made before the first byte is written.
    fn answer_line<H: PresenceHooks, W: Write, N: Write>(
        &mut self,
        alloc: Global,
        hooks: &H,
        out: &mut Outlets<W, N>,
        line: &[u8],
        n: u64,
    ) -> Result<(), StdioFault>
        ensures { AnswerOf (voice_of H.PresenceHooks hooks.now) n self.old self.new
            (held W.contents N.contents out.old) (held W.contents N.contents out.new) line.now result }
    {
        let output = match self.answer(alloc, hooks, line) {
            Ok(output) => output,
            Err(_) => return Err(StdioFault::Memory),
        };
        write_output(out, &output)?;
        match output.fault {
            None => Ok(()),
            Some(LineFault::Message(refusal)) => Err(StdioFault::Line(n, refusal)),
            Some(LineFault::Session(stop)) => Err(StdioFault::Session(n, stop)),
        }
    }

    // Reads the nth line and answers it, if there is one.
    fn turn<R: Read, H: PresenceHooks, W: Write, N: Write>(
        &mut self,
        alloc: Global,
        hooks: &H,
        reader: &mut R,
        out: &mut Outlets<W, N>,
        n: u64,
    ) -> Result<bool, StdioFault>
        ensures { Turns (voice_of H.PresenceHooks hooks.now) (held W.contents N.contents) R.remaining n
            self.old self.new reader.old reader.new out.old out.new result }
    {
        let line = match read_line(alloc, reader, Limits::CLIENT.bytes) {
            Ok(Some(line)) => line,
            Ok(None) => return Ok(false),
            Err(StreamFault::Memory) => return Err(StdioFault::Memory),
            Err(_) => return Err(StdioFault::Read(ReadFault::Failed)),
        };
        match self.answer_line(alloc, hooks, out, line.as_slice(), n) {
            Ok(()) => Ok(true),
            Err(fault) => Err(fault),
        }
    }

    /// Answers each line of the input, of which at most `max` are read.
    pub fn run_lines<R: Read, H: PresenceHooks, W: Write, N: Write>(
        &mut self,
        alloc: Global,
        hooks: &H,
        reader: &mut R,
        out: &mut Outlets<W, N>,
        max: u64,
    ) -> Result<u64, StdioFault>
        ensures { Runs (voice_of H.PresenceHooks hooks.now) (held W.contents N.contents) R.remaining max
            self.old reader.old reader.new out.old out.new result }
    {
        for n in 0..max {
            match self.turn(alloc, hooks, reader, out, n + 1) {
                Ok(true) => {}
                Ok(false) => return Ok(n),
                Err(fault) => return Err(fault),
            }
        }
        match is_at_end(reader) {
            Ok(true) => Ok(max),
            Ok(false) => Err(StdioFault::Read(ReadFault::TooManyLines)),
            Err(_) => Err(StdioFault::Read(ReadFault::Failed)),
        }
    }
}

/// Answers each line of the input up to its end, to the first line that is refused or to a fault,
/// and says how many lines there were. What a line is answered, and what is delivered behind it, is
/// written before the next one is read; so are the notices of what was delivered.
///
/// A stored closure that wants memory ends the run as want of memory does, and nothing goes out for
/// its line.
pub fn run_stdio<R: Read, W: Write, N: Write, H: PresenceHooks>(
    alloc: Global,
    reader: &mut R,
    out: &mut Outlets<W, N>,
    hooks: &H,
    options: &StdioOptions,
) -> Result<u64, StdioFault>
    ensures input { RunsKnown (voice_of H.PresenceHooks hooks.now) (held W.contents N.contents) MAX_LINES
        (start options.now) (R.remaining reader.old) out.old out.new result }
    ensures lines { Runs (voice_of H.PresenceHooks hooks.now) (held W.contents N.contents) R.remaining MAX_LINES
        (start options.now) reader.old reader.new out.old out.new result }
{
    let mut local = match LocalSession::new(alloc, options) {
        Ok(local) => local,
        Err(_) => return Err(StdioFault::Memory),
    };
    local.run_lines(alloc, hooks, reader, out, MAX_LINES)
}
