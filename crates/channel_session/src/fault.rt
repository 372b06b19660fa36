//! Why a text or a delivery left off.
ghost use Rattle.std.specs.Prelude.{◌≡◌};
ghost use Rattle.channel_session.specs.Ran.{fault_of};

use channel_rules::{Stop, StopKind};
use phx_message::MessageFault;
use thiserror::Error;

/// Why a session answers nothing.
///
/// After `BadMessage` and `Failed` the session and its port are as before. After the others they
/// are too, unless a call was made that leaves something behind: then the session has failed.
#[derive(Clone, Copy, Debug, PartialEq, Eq, Error)]
pub enum SessionFault {
    /// The text is no message that a client may send.
    #[error("{0}")]
    BadMessage(MessageFault),
    #[error("out of memory")]
    OutOfMemory,
    /// The port refused a call, and no reply stands for that.
    #[error("the shard is full")]
    ShardFull,
    /// The session has failed before: only `end` acts.
    #[error("the session has failed")]
    Failed,
}

/// What a session answers where a rule was left so.
pub(crate) fn fault_of_stop(stop: &Stop) -> SessionFault
    ensures { result ≡ fault_of stop.now.kind }
{
    match stop.kind {
        StopKind::OutOfMemory => SessionFault::OutOfMemory,
        StopKind::ShardFull => SessionFault::ShardFull,
    }
}
