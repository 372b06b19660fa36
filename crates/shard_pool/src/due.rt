//! From when on a journal is due for a checkpoint.
ghost use Rattle.shard_pool.specs.Due.{TellsMany};

use crate::lane::Lane;
use crate::locked::Locked;

/// From when on a journal is due for a checkpoint: it has so many entries, its Start counted, or its entries keep
/// so many bytes beside themselves.
#[derive(Clone, Copy)]
pub struct DueFrom {
    pub entries: u64,
    pub kept_bytes: u64,
}

/// Whether a shard's journal is due.
#[tactic(auto, using(crate::proofs::Calls::many))]
pub(crate) fn is_due<L: Lane>(locked: &Locked<L>, due: DueFrom) -> bool
    ensures { TellsMany due locked.now.shard result }
{
    locked.entry_count() >= due.entries || locked.kept_bytes() >= due.kept_bytes
}
