//! A node at one end of a link: its peer, its port, and a stream that gives it these bytes.
use crate::port::{Call, Much, TestPort};
use crate::wire::Wire;
use link_lines::{Hearer, Line, LinkFault, decode_line};
use node_links::{ActFault, DialFault, End, Link, LinkAction, Peer, accept_one, dial, hear_bytes};
use orswot_core::Form;
use presence_base::{NodeName, Replica};
use replica_status::Status;
use std::alloc::Global;

// The time of each line.
pub(super) const NOW: u64 = 1_000;

// A number of a call that is never made.
pub(super) const NEVER: usize = usize::MAX;

// Two shards, told in the first form, and in the second.
pub(super) const ONE: Hearer = Hearer {
    shards: 2,
    form: Some(Form::One),
};

pub(super) const TWO: Hearer = Hearer {
    shards: 2,
    form: Some(Form::Two),
};

pub(super) fn replica(alloc: Global, name: &str, incarnation: u64) -> Option<Replica> {
    match NodeName::new(alloc, name) {
        Ok(Some(name)) => Some(Replica { name, incarnation }),
        _ => None,
    }
}

pub(super) struct Desk<'a> {
    pub link: Link<Wire<'a>>,
    pub port: TestPort,
}

impl Drop for Desk<'_> {
    fn drop(self) {
        let Desk { link, port } = self;
        drop(link);
        drop(port);
    }
}

// A node with two shards, which is this peer at its end of a link that gives these bytes.
fn seated(alloc: Global, peer: Peer, bytes: &[u8]) -> Desk<'_> {
    let wire = Wire {
        rest: bytes,
        taken: Vec::new(alloc),
        calls: 0,
        fails: NEVER,
    };
    Desk {
        link: Link { stream: wire, peer },
        port: TestPort {
            shards: 2,
            status: Status::Up,
            top: 1,
            from: Much::Little,
            all: Much::Little,
            calls: Vec::new(alloc),
            refused: NEVER,
            fault: ActFault::ShardFull,
        },
    }
}

impl<'a> Desk<'a> {
    // Lets these bytes come from here on.
    pub fn give(&mut self, bytes: &'a [u8]) {
        self.link.stream.give(bytes);
    }

    pub fn accepts(&mut self, alloc: Global) -> Result<bool, DialFault> {
        accept_one(alloc, &mut self.link, &mut self.port, NOW)
    }

    // Whether so many lines are accepted.
    pub fn accepts_all(&mut self, alloc: Global, lines: u32) -> bool {
        for _ in 0..lines {
            if self.accepts(alloc) != Ok(true) {
                return false;
            }
        }
        true
    }

    pub fn dials(&mut self, alloc: Global, line: &Line) -> Result<bool, DialFault> {
        dial(alloc, &mut self.link, &mut self.port, line, NOW)
    }

    // How a turn with the line that this text is ends, none where it is no line.
    pub fn dials_text(&mut self, alloc: Global, text: &str) -> Option<Result<bool, DialFault>> {
        match line(alloc, text) {
            Ok(line) => Some(self.dials(alloc, &line)),
            Err(_) => None,
        }
    }

    // Whether nothing fails where something of a line came, which this shard hears.
    pub fn hears_bytes(&mut self, alloc: Global, shard: u32) -> bool {
        hear_bytes(alloc, &self.link.peer, &mut self.port, shard, NOW).is_ok()
    }

    // What a line asks the peer for.
    pub fn hears_line(&mut self, alloc: Global, line: Line) -> Result<Vec<LinkAction>, LinkFault> {
        self.link.peer.on_line(alloc, line, NOW)
    }

    // What the line that this text is asks the peer for.
    pub fn hears(&mut self, alloc: Global, text: &str) -> Result<Vec<LinkAction>, LinkFault> {
        match line(alloc, text) {
            Ok(line) => self.hears_line(alloc, line),
            Err(fault) => Err(fault),
        }
    }

    // Whether the peer takes the line that this text is.
    pub fn takes(&mut self, alloc: Global, text: &str) -> bool {
        self.hears(alloc, text).is_ok()
    }

    // Why the peer refuses the line that this text is.
    pub fn refusal(&mut self, alloc: Global, text: &str) -> Option<LinkFault> {
        match self.hears(alloc, text) {
            Ok(_) => None,
            Err(fault) => Some(fault),
        }
    }

    // Whether this replica is known to be at the other end.
    pub fn knows(&self, alloc: Global, name: &str, incarnation: u64) -> bool {
        match replica(alloc, name, incarnation) {
            Some(other) => self.link.peer.other() == Some(other),
            None => false,
        }
    }

    // Whether these are the bytes that went out, and no others.
    pub fn wrote(&self, text: &str) -> bool {
        self.link.stream.taken.as_slice() == text.as_bytes()
    }

    pub fn asked(&self, calls: &[Call]) -> bool {
        self.port.calls.as_slice() == calls
    }

    // How many calls the port has noted.
    pub fn calls(&self) -> usize {
        self.port.calls.len()
    }

    // How many bytes are still to come.
    pub fn rest(&self) -> usize {
        self.link.stream.rest.len()
    }
}

// The node `a.1`, at the end that was dialled.
pub(super) fn at_a(alloc: Global, bytes: &[u8]) -> Option<Desk<'_>> {
    let own = replica(alloc, "a", 1)?;
    let peer = Peer::new(own, 2, End::Accepting, Form::Two);
    Some(seated(alloc, peer, bytes))
}

// The same, which speaks the first form alone.
pub(super) fn at_old_a(alloc: Global, bytes: &[u8]) -> Option<Desk<'_>> {
    let own = replica(alloc, "a", 1)?;
    let peer = Peer::new(own, 2, End::Accepting, Form::One);
    Some(seated(alloc, peer, bytes))
}

// What the shards of a node are: the first is this, and the second that.
fn owns(alloc: Global, first: &Replica, second: &Replica) -> Option<Vec<Replica>> {
    match vec![in alloc; *first, *second] {
        Ok(owns) => Some(owns),
        Err(_) => None,
    }
}

// The node `a.2`, whose shard 1 is still `a.1`, at the end that was dialled.
pub(super) fn at_late_a(alloc: Global) -> Option<Desk<'static>> {
    let own = replica(alloc, "a", 2)?;
    let before = replica(alloc, "a", 1)?;
    let owns = owns(alloc, &own, &before)?;
    let peer = Peer::new(own, 2, End::Accepting, Form::One);
    Some(seated(alloc, peer.with_owns(owns), b""))
}

// The node `b.1`, at the end that dialled.
pub(super) fn at_b(alloc: Global, bytes: &[u8]) -> Option<Desk<'_>> {
    let own = replica(alloc, "b", 1)?;
    let peer = Peer::new(own, 2, End::Dialling, Form::Two);
    Some(seated(alloc, peer, bytes))
}

// The line that a text is on a link of the first version.
pub(super) fn line(alloc: Global, text: &str) -> Result<Line, LinkFault> {
    decode_line(alloc, text, ONE)
}
