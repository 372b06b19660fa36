//! Deliveries that take no further item once so many bytes wait for their connection.
ghost use Rattle.std.specs.Prelude.{◌≡◌, ◌≤◌, ◌^◌, true, false};
ghost use Rattle.channel_rules.specs.Asks.{take as takes};
ghost use Rattle.channel_rules.specs.Seen.{seen_by};
ghost use Rattle.channel_session.specs.Delivery.{DeliveredBy};
ghost use Rattle.channel_session.specs.declared.frames.Delivery.{Delivery};
ghost use Rattle.channel_rules.specs.Said.{Worded, Noted};
ghost use Rattle.channel_session.specs.declared.fault.SessionFault.TheVariants as faults;
ghost use Rattle.serve_connections.specs.Sparing.{Leaves, LeavesOf, Spares, Weighs};
ghost use Rattle.serve_connections.specs.declared.connection.TheConstants.{MAX_DEALT};
ghost use Rattle.serve_connections.specs.declared.sparing.TheConstants.{MAX_UNSENT};

use crate::connection::MAX_DEALT;
use channel_rules::{Call, Port, Question, Refusal, Take, Told, told_to};
use channel_session::{Delivery, Session, SessionFault, deliver};
use hook_registry::PresenceHooks;
use presence_journal::Item;
use std::alloc::Global;

/// How many bytes wait for a connection at most before nothing further is taken for it. What a shard has for it waits there.
pub const MAX_UNSENT: usize = 393_216;

// How many bytes an item counts. A state whose text isn't written counts as all that a delivery takes.
fn weight(item: &Item) -> usize
    ensures { Weighs item.now result }
{
    match item {
        Item::State(rows) => match rows.text() {
            Some(text) => text.len(),
            None => MAX_UNSENT,
        },
        Item::Diff(diff) => diff.payload().len(),
        Item::Shout(shout) => shout.payload().len(),
    }
}

// What these items leave of so much room.
fn left_by(items: &[Item], room: usize) -> usize
    ensures { Leaves items.now room result }
{
    let mut left = room;
    for item in items {
        left = left.saturating_sub(weight(item));
    }
    left
}

/// A port whose calls are those of the port inside, but that nothing is said to wait once there is no room.
pub(crate) struct SparingPort<'a, P> {
    port: &'a mut P,
    /// How many bytes more may be taken before nothing further is.
    room: usize,
}

impl<P: Port> SparingPort<'_, P> {
    // Takes of the port inside. What is taken takes of the room.
    fn take(&mut self, alloc: Global, pid: u64, take: &Take<'_>) -> Result<Vec<Item>, Refusal>
        requires { pid ≤ 2 ^ 62 }
        ensures same_port { self.new.port.ghost_name ≡ self.old.port.ghost_name }
        ensures taken { Spares (P.step pid) (self.old.port.now, self.old.room) (takes take.now.topic.now take.now.sub take.now.max)
            (seen_by (λ v. v.items) result) (self.new.port.now, self.new.room) }
    {
        match self.port.call(alloc, pid, take) {
            Ok(items) => {
                self.room = left_by(items.as_slice(), self.room);
                Ok(items)
            }
            Err(refusal) => Err(refusal),
        }
    }
}

impl<P: Port> Port for SparingPort<'_, P> {
    ghost step = { λ pid old q a new. (new.port.ghost_name ≡ old.port.ghost_name)
        × Spares (P.step pid) (old.port.now, old.room) q a (new.port.now, new.room) };

    fn call<C: Call>(&mut self, alloc: Global, pid: u64, call: &C) -> Result<C::Answer, Refusal> {
        match call.question() {
            Question::Take(take) => match self.take(alloc, pid, &take) {
                Ok(items) => Ok(told_to(call, Told::Items(items))),
                Err(refusal) => Err(refusal),
            },
            Question::Waits(_) => {
                if self.room == 0 {
                    return Ok(told_to(call, Told::Waits(false)));
                }
                self.port.call(alloc, pid, call)
            }
            _ => self.port.call(alloc, pid, call),
        }
    }
}

// Delivers what waits over a port that spares the connection.
fn deliver_sparing<P: Port, H: PresenceHooks>(
    alloc: Global,
    session: &mut Session,
    port: &mut SparingPort<'_, P>,
    hooks: &H,
) -> Result<Delivery, SessionFault>
    ensures same_port { port.new.port.ghost_name ≡ port.old.port.ghost_name }
    ensures failed { session.old.failed ≡ true → (result ≡ Err faults.Failed) × (session.new ≡ session.old)
        × (port.new.port.now ≡ port.old.port.now) }
    ensures delivered { session.old.failed ≡ false → DeliveredBy
        (Worded (H.PresenceHooks.fetched hooks.now) (H.PresenceHooks.plain hooks.now))
        (Noted (H.PresenceHooks.joined hooks.now) (H.PresenceHooks.left hooks.now) (H.PresenceHooks.quiet hooks.now))
        (Spares (P.step session.old.pid)) MAX_DEALT session.old (port.old.port.now, port.old.room) (port.new.port.now, port.new.room)
        session.new result }
{
    deliver(alloc, session, port, hooks, MAX_DEALT)
}

/// Delivers what waits, once, and takes nothing further once so many bytes were taken: what was told, and how many bytes
/// more might have been taken.
pub(crate) fn deliver_within<P: Port, H: PresenceHooks>(
    alloc: Global,
    session: &mut Session,
    port: &mut P,
    hooks: &H,
    room: usize,
) -> (Result<Delivery, SessionFault>, usize)
    ensures failed { session.old.failed ≡ true → (result.0 ≡ Err faults.Failed) × (session.new ≡ session.old)
        × (port.new ≡ port.old) }
    ensures delivered { session.old.failed ≡ false → DeliveredBy
        (Worded (H.PresenceHooks.fetched hooks.now) (H.PresenceHooks.plain hooks.now))
        (Noted (H.PresenceHooks.joined hooks.now) (H.PresenceHooks.left hooks.now) (H.PresenceHooks.quiet hooks.now))
        (Spares (P.step session.old.pid)) MAX_DEALT session.old (port.old, room) (port.new, result.1) session.new result.0 }
{
    let mut sparing = SparingPort { port, room };
    let delivery = deliver_sparing(alloc, session, &mut sparing, hooks);
    let SparingPort {
        port: _,
        room: left,
    } = sparing;
    (delivery, left)
}
