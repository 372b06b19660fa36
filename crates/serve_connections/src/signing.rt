//! A connection whose client signs in.
ghost use Rattle.std.specs.Prelude.{◌≡◌, ◌≤◌, ◌^◌, ◌∷◌, [], IfOk, None, Some, option_map};
ghost use Rattle.phx_message.specs.Reading.{decoded};
ghost use Rattle.channel_pieces.specs.Piecewise.{Piecewise};
ghost use Rattle.channel_rules.specs.Rules.{empty, error, ok};
ghost use Rattle.channel_rules.specs.Said.{Worded, text_of};
ghost use Rattle.channel_session.specs.Ending.{topics_named};
ghost use Rattle.channel_session.specs.Ran.{RanBy, texts_in};
ghost use Rattle.serve_connections.specs.Granted.{AsksGranted};
ghost use Rattle.serve_connections.specs.Renewing.{renewal, token_shown};
ghost use Rattle.serve_connections.specs.Signed.{RefusedBy, RunsText, TellsOr, leave as leave_in, reason_of};
ghost use Rattle.serve_connections.specs.SigningIn.{IsGrantedBy, SignsIn, cause_by as cause_in};
ghost use Rattle.serve_connections.specs.Working.{fresh};

use crate::asking::{Asking, asking_of};
use crate::cause::Cause;
use crate::connection::Connection;
use crate::granting::GrantedPort;
use crate::moment::Moment;
use crate::renewing::{Unrenewed, renewal_of};
use channel_rules::{Port, Written, empty_object, write_error, write_ok};
use channel_session::{Channels, SessionFault};
use client_settings::Settings;
use hook_registry::{PresenceHooks, Routes};
use phx_message::{Limits, Message};
use serve_sockets::{CarriesToken, WebSocket};
use std::alloc::{AllocError, Global};
use std::io::{Read, Write};
use tokens::{Grant, Signing, TokenFault};
use tungstenite::{MaskKeys, NoMask};

// The text of a message, alone.
fn alone(alloc: Global, written: Written) -> Result<Vec<String>, AllocError>
    ensures { IfOk result (λ texts. texts_in texts ≡ text_of written.message ∷ []) }
{
    let Written { message, text } = written;
    drop(message);
    let mut texts = Vec::with_capacity(alloc, 1)?;
    texts.push(text)?;
    Ok(texts)
}

// What a client is told to whom something is granted anew.
fn renewed_texts(alloc: Global, message: &Message) -> Result<Vec<String>, AllocError>
    ensures { IfOk result (λ texts. texts_in texts ≡ text_of (ok None message.now empty) ∷ []) }
{
    let reply = write_ok(alloc, &None, message, empty_object(alloc))?;
    alone(alloc, reply)
}

// What one is told to whom nothing is, for this reason.
fn reason_texts(alloc: Global, message: &Message, reason: &str) -> Result<Vec<String>, AllocError>
    ensures { IfOk result (λ texts. texts_in texts ≡ text_of (error None message.now reason.now) ∷ []) }
{
    let reply = write_error(alloc, &None, message, reason)?;
    alone(alloc, reply)
}

// The same, of each reason.
fn refused_texts(
    alloc: Global,
    message: &Message,
    why: Unrenewed,
) -> Result<Vec<String>, SessionFault>
    ensures { RefusedBy message.now why result }
{
    let reason = match why {
        Unrenewed::BadPayload => "bad payload",
        Unrenewed::Unauthorized => "unauthorized",
        Unrenewed::OutOfMemory => return Err(SessionFault::OutOfMemory),
    };
    match reason_texts(alloc, message, reason) {
        Ok(texts) => Ok(texts),
        Err(_) => Err(SessionFault::OutOfMemory),
    }
}

impl<S: Read + Write + Drop, K: MaskKeys + Drop> Connection<S, K> {
    /// Whether its client may go on, or for which cause it ends.
    pub fn leave(&self, signing: Option<Signing<'_>>) -> Result<(), Cause>
        ensures { result ≡ leave_in signing.entry self.now.grant }
    {
        let Some(signing) = signing else {
            return Ok(());
        };
        match &self.grant {
            Ok(grant) if grant.ends() <= signing.second => Err(Cause::Expired),
            Ok(_) => Ok(()),
            Err(cause) => Err(*cause),
        }
    }

    // What the session answers to a text, over a port that is asked what is granted.
    fn run_granted<P: Port, H: PresenceHooks>(
        &mut self,
        alloc: Global,
        port: &mut P,
        channels: Channels<'_, H>,
        second: u64,
        text: &str,
    ) -> Result<Vec<String>, SessionFault>
        ensures ran { RanBy (Worded (H.PresenceHooks.fetched channels.entry.hooks.now) (H.PresenceHooks.plain channels.entry.hooks.now))
            (Piecewise (AsksGranted self.old.grant second (P.step self.old.session.pid))) channels.entry.routes.now
            self.old.session (decoded Limits.CLIENT text.now) (port.old, self.old.telling.untold)
            (port.new, self.new.telling.untold) self.new.session result }
        ensures kept { self.new ≡ record self.old { session = self.new.session; telling = self.new.telling } }
    {
        let mut granted = GrantedPort::new(port, &self.grant, second);
        granted.run(alloc, &mut self.session, &mut self.telling, channels, text)
    }

    // Answers a message that shows a further token.
    fn renew(
        &mut self,
        alloc: Global,
        signing: Signing<'_>,
        message: &Message,
    ) -> Result<Vec<String>, SessionFault>
        ensures told { TellsOr signing.entry self.old.grant message.now
            (renewal signing.entry self.old.grant (topics_named self.old.session) (token_shown message.now.payload))
            self.new.grant result }
        ensures kept { self.new ≡ record self.old { grant = self.new.grant } }
    {
        let payload = message.payload.as_value();
        match renewal_of(alloc, signing, &self.grant, &self.session, payload) {
            Ok(next) => {
                let Ok(texts) = renewed_texts(alloc, message) else {
                    return Err(SessionFault::OutOfMemory);
                };
                self.grant = Ok(next);
                Ok(texts)
            }
            Err(why) => refused_texts(alloc, message, why),
        }
    }

    /// What is answered to a text where clients sign in.
    pub(crate) fn run_signed<P: Port, H: PresenceHooks>(
        &mut self,
        alloc: Global,
        port: &mut P,
        channels: Channels<'_, H>,
        signing: Signing<'_>,
        text: &str,
    ) -> Result<Vec<String>, SessionFault>
        ensures ran { RunsText (Worded (H.PresenceHooks.fetched channels.entry.hooks.now) (H.PresenceHooks.plain channels.entry.hooks.now))
            (P.step self.old.session.pid) channels.entry.routes.now (Some signing.entry) self.old.grant self.old.session
            (decoded Limits.CLIENT text.now) (port.old, self.old.telling.untold) (port.new, self.new.telling.untold)
            self.new.session self.new.grant result }
        ensures kept { self.new
            ≡ record self.old { session = self.new.session; telling = self.new.telling; grant = self.new.grant } }
    {
        match asking_of(alloc, &self.grant, text) {
            Asking::Renewal(message) => self.renew(alloc, signing, &message),
            Asking::Elsewhere => {
                let none = Routes::new(alloc);
                let channels = Channels {
                    routes: &none,
                    hooks: channels.hooks,
                };
                self.run_granted(alloc, port, channels, signing.second, text)
            }
            Asking::Usual => self.run_granted(alloc, port, channels, signing.second, text),
            Asking::NoMemory => Err(SessionFault::OutOfMemory),
        }
    }
}

// For which cause a connection ends whose client's token has this fault.
fn cause_by(fault: TokenFault) -> Cause
    ensures { result ≡ cause_in fault }
{
    match fault {
        TokenFault::Expired => Cause::Expired,
        TokenFault::OutOfMemory => Cause::Fault(SessionFault::OutOfMemory),
        _ => Cause::Unsigned,
    }
}

// What is granted to a client that shows this, or for which cause its connection ends.
fn grant_of(alloc: Global, signing: Signing<'_>, shown: Option<&[u8]>) -> Result<Grant, Cause>
    ensures { IsGrantedBy signing.entry (option_map (λ v. v.now) shown.entry) result }
{
    let Some(token) = shown else {
        return Err(Cause::Unsigned);
    };
    match Grant::take(alloc, signing, token) {
        Ok(grant) => Ok(grant),
        Err(fault) => Err(cause_by(fault)),
    }
}

impl<S: Read + Write + Drop + CarriesToken> Connection<S, NoMask> {
    /// A connection over a socket that was taken at this time. Where clients sign in, its client does by the token that the
    /// stream carries; one whose token isn't taken ends with its first turn.
    pub(crate) fn taken(
        alloc: Global,
        socket: WebSocket<S, NoMask>,
        pid: u64,
        now: Moment<'_>,
        settings: Settings,
    ) -> Connection<S, NoMask>
        requires { pid ≤ 2 ^ 62 }
        ensures { SignsIn S.carried now.entry.signing (fresh settings pid socket now.entry.milliseconds) result }
    {
        let mut connection = Connection::new(alloc, socket, pid, now.milliseconds, settings);
        if let Some(signing) = now.signing {
            connection.grant = grant_of(alloc, signing, connection.socket.token());
        }
        connection
    }
}
