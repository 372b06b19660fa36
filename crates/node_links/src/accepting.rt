//! `accept_one`: an exchange as the end that was dialled.
ghost use Rattle.node_links.specs.Talking.{WritesAnswer, Accepts, AnswersLine, over};

use crate::dialling::write_told;
use crate::fault::DialFault;
use crate::hearing::{hear, take_one};
use crate::lines::write_line;
use crate::link::Link;
use crate::port::LinkPort;
use link_lines::Line;
use std::alloc::Global;
use std::io::{Read, Write};

// The line that is answered, where one is. A told value that is too long closes no link.
fn answer<W: Write, P: LinkPort>(
    alloc: Global,
    writer: &mut W,
    port: &mut P,
    line: Option<Line>,
) -> Result<(), DialFault>
    ensures { WritesAnswer W.contents P.step line writer.old writer.new port.old port.new result }
{
    match line {
        Some(Line::Told { shard, told }) => {
            let _untold = write_told(alloc, writer, port, shard, told)?;
            Ok(())
        }
        Some(line) => Ok(write_line(alloc, writer, &line)?),
        None => Ok(()),
    }
}

/// One exchange at the end that was dialled: reads one line, does what it asks for at this time (in
/// milliseconds), and writes what is answered. False at an end between lines.
///
/// In place of a told line that is too long all that is known of the shard goes out; where that is too long
/// as well nothing does.
///
/// After a fault the link is to be closed. Where it came of reading, or the line was refused, peer and
/// port are as they were; where the port refused, its calls so far stand, and nothing is written; where
/// it came of writing, all calls stand, and a part of the answer may have gone out.
pub fn accept_one<S: Read + Write, P: LinkPort>(
    alloc: Global,
    link: &mut Link<S>,
    port: &mut P,
    now: u64,
) -> Result<bool, DialFault>
    ensures { Accepts S.remaining S.contents P.step P.shard_count now
        (over link.old port.old) (over link.new port.new) result }
{
    match take_one(alloc, link, port, now)? {
        Some(act) => {
            answer(alloc, &mut link.stream, port, act.answer)?;
            Ok(true)
        },
        None => Ok(false),
    }
}

/// The end of such an exchange, where its line was read before: does what the line asks for, and writes what
/// is answered. After a fault the link is to be closed, as behind `accept_one`.
pub fn answer_line<W: Write, P: LinkPort>(
    alloc: Global,
    link: &mut Link<W>,
    port: &mut P,
    line: Line,
    now: u64,
) -> Result<(), DialFault>
    ensures { AnswersLine W.contents P.step P.shard_count now line
        (over link.old port.old) (over link.new port.new) result }
{
    let act = hear(alloc, &mut link.peer, port, line, now)?;
    answer(alloc, &mut link.stream, port, act.answer)
}
