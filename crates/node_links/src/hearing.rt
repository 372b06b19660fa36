// Lines that are read and heard.
ghost use Rattle.node_links.specs.Talking.{Hears, HearsBytes, Takes, over};

use crate::act_outcome::Act;
use crate::acting::act;
use crate::fault::DialFault;
use crate::lines::read_line;
use crate::link::Link;
use crate::peer::Peer;
use crate::port::LinkPort;
use link_lines::Line;
use std::alloc::Global;
use std::io::Read;

// A line is heard, and what it asks for done.
pub(crate) fn hear<P: LinkPort>(
    alloc: Global,
    peer: &mut Peer,
    port: &mut P,
    line: Line,
    now: u64,
) -> Result<Act, DialFault>
    ensures { Hears P.step P.shard_count now line peer.old peer.new port.old port.new result }
{
    let actions = peer.on_line(alloc, line, now)?;
    Ok(act(alloc, port, actions)?)
}

// One line is read and heard, or none at an end between lines.
pub(crate) fn take_one<S: Read, P: LinkPort>(
    alloc: Global,
    link: &mut Link<S>,
    port: &mut P,
    now: u64,
) -> Result<Option<Act>, DialFault>
    ensures { Takes S.remaining P.step P.shard_count now
        (over link.old port.old) (over link.new port.new) result }
{
    let Some(line) = read_line(alloc, &mut link.stream, link.peer.hearer())? else {
        return Ok(None);
    };
    Ok(Some(hear(alloc, &mut link.peer, port, line, now)?))
}

/// Something of a line came over a link at this time (in milliseconds): a shard hears who is at the other end. What the shard would
/// answer to one that is gone isn't told.
pub fn hear_bytes<P: LinkPort>(
    alloc: Global,
    peer: &Peer,
    port: &mut P,
    shard: u32,
    now: u64,
) -> Result<Act, DialFault>
    ensures { HearsBytes P.step P.shard_count now shard peer.now port.old port.new result }
{
    let actions = peer.on_bytes(alloc, shard, now)?;
    Ok(act(alloc, port, actions)?)
}
