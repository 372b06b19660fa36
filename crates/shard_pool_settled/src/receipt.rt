//! Receipts.
use presence_journal::{Outcome, Step};
use std::alloc::AllocError;

/// What a caller was told of a step: the shard, the number of the entry, the step and what it came to.
#[derive(Debug, Drop)]
pub struct Receipt {
    pub shard: u32,
    pub number: u64,
    pub step: Step,
    pub outcome: Outcome,
}

impl Clone for Receipt {
    ghost use Rattle.std.specs.Prelude.{◌≡◌};

    ghost is_clone = { λ r s. s ≡ r };

    fn clone(&self) -> Result<Receipt, AllocError> {
        let step = self.step.clone()?;
        let outcome = self.outcome.clone()?;
        Ok(Receipt {
            shard: self.shard,
            number: self.number,
            step,
            outcome,
        })
    }
}
