//! What a session asks of a port that gives long states in pieces.
ghost use Rattle.std.specs.Prelude.{◌≡◌, true, false};
ghost use Rattle.phx_message.specs.Reading.{decoded};
ghost use Rattle.channel_session.specs.Delivery.{DeliveredBy};
ghost use Rattle.channel_session.specs.Ran.{RanBy};
ghost use Rattle.channel_rules.specs.Said.{Worded, Noted};
ghost use Rattle.channel_session.specs.declared.fault.SessionFault.TheVariants as faults;
ghost use Rattle.channel_pieces.specs.Piecewise.{Piecewise};
ghost use Rattle.serve_connections.specs.Granted.{AsksGranted};
ghost use Rattle.serve_connections.specs.Sparing.{Spares};
ghost use Rattle.serve_connections.specs.declared.connection.TheConstants.{MAX_DEALT};

use crate::granting::GrantedPort;
use crate::sparing::deliver_within;
use channel_pieces::{PiecewisePort, Telling};
use channel_rules::Port;
use channel_session::{Channels, Delivery, Session, SessionFault, run_text};
use hook_registry::PresenceHooks;
use phx_message::Limits;
use std::alloc::Global;

/// Answers a text.
pub(crate) fn run_over<P: Port, H: PresenceHooks>(
    alloc: Global,
    session: &mut Session,
    pieces: &mut PiecewisePort<'_, P>,
    channels: Channels<'_, H>,
    text: &str,
) -> Result<Vec<String>, SessionFault>
    ensures same_port { pieces.new.port.ghost_name ≡ pieces.old.port.ghost_name }
    ensures same_telling { pieces.new.telling.ghost_name ≡ pieces.old.telling.ghost_name }
    ensures ran { RanBy (Worded (H.PresenceHooks.fetched channels.entry.hooks.now) (H.PresenceHooks.plain channels.entry.hooks.now))
        (Piecewise (P.step session.old.pid)) channels.entry.routes.now session.old (decoded Limits.CLIENT text.now)
        (pieces.old.port.now, pieces.old.telling.now.untold) (pieces.new.port.now, pieces.new.telling.now.untold)
        session.new result }
{
    run_text(alloc, session, pieces, channels, text)
}

// A text that came, and by which channels it is answered.
#[derive_where(Clone, Copy)]
struct Incoming<'a, H> {
    channels: Channels<'a, H>,
    text: &'a str,
}

// Answers a text over a port, which gives long states in pieces.
fn run_pieces<P: Port, H: PresenceHooks>(
    alloc: Global,
    session: &mut Session,
    port: &mut P,
    telling: &mut Telling,
    incoming: Incoming<'_, H>,
) -> Result<Vec<String>, SessionFault>
    ensures { RanBy (Worded (H.PresenceHooks.fetched incoming.entry.channels.hooks.now) (H.PresenceHooks.plain incoming.entry.channels.hooks.now))
        (Piecewise (P.step session.old.pid)) incoming.entry.channels.routes.now session.old
        (decoded Limits.CLIENT incoming.entry.text.now) (port.old, telling.old.untold) (port.new, telling.new.untold)
        session.new result }
{
    let mut pieces = PiecewisePort::new(port, telling);
    run_over(
        alloc,
        session,
        &mut pieces,
        incoming.channels,
        incoming.text,
    )
}

impl<P: Port> GrantedPort<'_, P> {
    /// What a session answers to a text over this port.
    pub(crate) fn run<H: PresenceHooks>(
        &mut self,
        alloc: Global,
        session: &mut Session,
        telling: &mut Telling,
        channels: Channels<'_, H>,
        text: &str,
    ) -> Result<Vec<String>, SessionFault>
        ensures same_port { self.new.port.ghost_name ≡ self.old.port.ghost_name }
        ensures ran { RanBy (Worded (H.PresenceHooks.fetched channels.entry.hooks.now) (H.PresenceHooks.plain channels.entry.hooks.now))
            (Piecewise (AsksGranted self.old.grant.now self.old.second (P.step session.old.pid))) channels.entry.routes.now
            session.old (decoded Limits.CLIENT text.now) (self.old.port.now, telling.old.untold)
            (self.new.port.now, telling.new.untold) session.new result }
    {
        run_pieces(alloc, session, self, telling, Incoming { channels, text })
    }
}

/// Delivers what waits, once, and takes nothing further once so many bytes were taken: what was told, and how many bytes
/// more might have been taken.
pub(crate) fn deliver_over<P: Port, H: PresenceHooks>(
    alloc: Global,
    session: &mut Session,
    pieces: &mut PiecewisePort<'_, P>,
    hooks: &H,
    room: usize,
) -> (Result<Delivery, SessionFault>, usize)
    ensures same_port { pieces.new.port.ghost_name ≡ pieces.old.port.ghost_name }
    ensures same_telling { pieces.new.telling.ghost_name ≡ pieces.old.telling.ghost_name }
    ensures failed { session.old.failed ≡ true → (result.0 ≡ Err faults.Failed) × (session.new ≡ session.old)
        × (pieces.new ≡ pieces.old) }
    ensures delivered { session.old.failed ≡ false → DeliveredBy
        (Worded (H.PresenceHooks.fetched hooks.now) (H.PresenceHooks.plain hooks.now))
        (Noted (H.PresenceHooks.joined hooks.now) (H.PresenceHooks.left hooks.now) (H.PresenceHooks.quiet hooks.now))
        (Spares (Piecewise (P.step session.old.pid))) MAX_DEALT session.old
        ((pieces.old.port.now, pieces.old.telling.now.untold), room)
        ((pieces.new.port.now, pieces.new.telling.now.untold), result.1) session.new result.0 }
{
    deliver_within(alloc, session, pieces, hooks, room)
}
