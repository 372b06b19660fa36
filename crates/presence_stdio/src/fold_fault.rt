//! Faults.
use crate::stream_fault::ReadFault;
use phx_message::MessageFault;
use presence_metas::FrameFault;
use thiserror::Error;

/// Why frames could not be folded.
#[derive(Clone, Copy, PartialEq, Eq, Debug, Error)]
pub enum FoldFault {
    /// The line of this number, from 1, is no message.
    #[error("line {0}: {1}")]
    Line(u64, MessageFault),
    /// The line of this number is no frame, though its event is one of a frame.
    #[error("line {0}: {1}")]
    Frame(u64, FrameFault),
    #[error("{0}")]
    Read(ReadFault),
    #[error("the output could not be written")]
    Write,
    #[error("out of memory")]
    Memory,
}
