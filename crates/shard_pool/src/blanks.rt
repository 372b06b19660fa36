//! What a pool's ledgers are opened from.
ghost use Rattle.shard_pool.specs.Blanks.{HaveParts};

use std::sync::ledger::Blank;

/// A ledger for each shard that there can be, which none has opened.
pub struct Blanks {
    pub first: Blank,
    pub second: Blank,
    pub third: Blank,
    pub fourth: Blank,
}

impl Blanks {
    /// Ledgers of so many parts.
    pub fn new(parts: u64) -> Blanks
        ensures { HaveParts result parts }
    {
        Blanks {
            first: Blank::new(parts),
            second: Blank::new(parts),
            third: Blank::new(parts),
            fourth: Blank::new(parts),
        }
    }
}
