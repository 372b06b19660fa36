//! Faults.
use crate::stream_fault::ReadFault;
use channel_session::SessionFault;
use phx_message::MessageFault;
use thiserror::Error;

/// Why a line ends a run.
#[derive(Clone, Copy, PartialEq, Eq, Debug)]
pub enum LineFault {
    /// The line is no message that a client may send.
    Message(MessageFault),
    /// The shard refused a call, and no reply stands for that.
    Session(SessionFault),
}

/// Why a run over a reader and a writer ended before its input did.
#[derive(Clone, Copy, PartialEq, Eq, Debug, Error)]
pub enum StdioFault {
    /// The line of this number, from 1, is no message that a client may send.
    #[error("line {0}: {1}")]
    Line(u64, MessageFault),
    /// The shard refused a call for the line of this number, and no reply stands for that.
    #[error("line {0}: {1}")]
    Session(u64, SessionFault),
    #[error("{0}")]
    Read(ReadFault),
    #[error("the output could not be written")]
    Write,
    #[error("out of memory")]
    Memory,
}
