//! Why a link ends.
use orswot_core::ToldFault;
use thiserror::Error;

/// Why a link ends, or a line isn't written. Of several reasons for refusing a line the first in
/// this order is told, and want of memory, which may come at any point, in its place: but a text that
/// is too long to be decoded is refused as such.
#[derive(Clone, Copy, PartialEq, Eq, Debug, Error)]
pub enum LinkFault {
    #[error("the line is too long: 4194304 bytes are allowed")]
    LineTooLong,
    #[error("the line is not JSON: one value that nests at most 127 deep is allowed")]
    NotJson,
    #[error("the line is none that is allowed here: a member is missing, too many or outside its limits")]
    BadLine,
    #[error("the told value is refused: {0}")]
    BadTold(ToldFault),
    #[error("the other node has another number of shards")]
    OtherShards,
    #[error("reading failed")]
    ReadFailed,
    #[error("writing failed")]
    WriteFailed,
    #[error("out of memory")]
    OutOfMemory,
    #[error("the end came within a line")]
    CutLine,
}

impl From<json::Error> for LinkFault {
    ghost use Rattle.std.specs.Prelude.{◌≡◌};
    ghost use Rattle.link_lines.specs.ReadingMembers.{reading_fault};

    ghost from_gives = { λ e f. f ≡ reading_fault e };

    fn from(e: json::Error) -> LinkFault {
        match e {
            json::Error::OutOfMemory => LinkFault::OutOfMemory,
            _ => LinkFault::NotJson,
        }
    }
}
