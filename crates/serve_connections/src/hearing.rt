//! What was read.
ghost use Rattle.serve_connections.specs.Hearing.{Hears, heard_of_error as heard_in_error, is_message};
ghost use Rattle.std.specs.Prelude.{◌≡◌};

use crate::cause::{Cause, cause_of};
use serve_sockets::{WebSocket, is_passing};
use std::io::{Read, Write};
use tungstenite::{Error, MaskKeys, Message, Utf8Bytes};

/// What one read of a connection gave.
#[derive(Drop)]
pub enum Heard {
    Text(Utf8Bytes),
    /// A ping or a pong, which the socket answers by itself.
    Sign,
    /// Not yet the whole of a message.
    Nothing,
    /// What ends the connection.
    Ends(Cause),
}

impl Heard {
    /// Whether a message came that the connection goes on with.
    pub fn is_message(&self) -> bool
        ensures { result ≡ is_message self.now }
    {
        matches!(self, Heard::Text(_) | Heard::Sign)
    }
}

// What a read gave that failed.
fn heard_of_error(error: &Error) -> Heard
    ensures { result ≡ heard_in_error error.now }
{
    if is_passing(error) {
        Heard::Nothing
    } else {
        Heard::Ends(cause_of(error))
    }
}

/// Reads at most one message.
pub fn hear<S: Read + Write + Drop, K: MaskKeys + Drop>(socket: &mut WebSocket<S, K>) -> Heard
    ensures { Hears S.remaining socket.old socket.new result }
{
    match socket.read() {
        Ok(Message::Text(words)) => Heard::Text(words),
        Ok(Message::Binary(_)) => Heard::Ends(Cause::Binary),
        Ok(Message::Ping(_) | Message::Pong(_)) => Heard::Sign,
        Ok(Message::Close(_)) => Heard::Ends(Cause::Closed),
        Err(error) => heard_of_error(&error),
    }
}
