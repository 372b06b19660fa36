//! What may happen to a world.
use orswot_core::Form;
use presence_base::Replica;
use presence_journal::Step;

/// What may happen to a world. A node is its position in the list of names, from 0; a told value its position among all
/// that were told, from 0. An event that means nothing changes nothing.
#[derive(Debug, Drop)]
pub enum Event {
    /// A caller's step at a node.
    Client {
        node: usize,
        step: Step,
    },
    /// A node tells what it did since its last cut, in this form.
    Cut {
        node: usize,
        form: Form,
    },
    /// A node tells in this form what another one missed that knows its dots up to a count; or, without a count, all that
    /// it knows.
    Full {
        node: usize,
        from: Option<u64>,
        form: Form,
    },
    /// A node tells in this form a part of what another one missed that knows its dots up to a count: as far as fits a line, or up
    /// to a count.
    Part {
        node: usize,
        from: u64,
        to: Option<u64>,
        form: Form,
    },
    /// What was told before comes to a node: for the first time, again, late, or never.
    Deliver {
        node: usize,
        told: usize,
    },
    /// What was told before comes to a node, which takes in what is told of other nodes: nothing of its own name's lives.
    DeliverOthers {
        node: usize,
        told: usize,
    },
    /// A node heard a replica at a time in milliseconds.
    Heard {
        node: usize,
        replica: Replica,
        now: u64,
    },
    /// Time passed at a node, in milliseconds.
    Tick {
        node: usize,
        now: u64,
    },
    /// A node takes a replica as gone for good.
    PermDown {
        node: usize,
        replica: Replica,
    },
    /// A node puts a Start in the place of its journal.
    Checkpoint {
        node: usize,
    },
    /// A node begins anew, with nothing, under a higher incarnation.
    Restart {
        node: usize,
        incarnation: u64,
    },
    /// A node goes on under a higher incarnation, with all its rows. The life before stays as it was.
    Rebirth {
        node: usize,
        incarnation: u64,
    },
}
