//! Who asks, and under which join.
ghost use Rattle.std.specs.Prelude.{◌≤◌, ◌^◌};

use channel_rules::Join;
use phx_message::Message;
use std::alloc::Global;

/// Who calls: a session by its number, and where its memory comes from.
#[derive(Clone, Copy)]
pub struct Caller {
    pub alloc: Global,
    pub pid: u64,
    ghost count: { pid ≤ 2 ^ 62 },
}

/// A message to a joined topic, and the topic's present join.
#[derive(Clone, Copy)]
pub struct Incoming<'a> {
    pub join: &'a Join,
    pub message: &'a Message,
}
