//! What agreeing receipts and journals are, in words: functions that do nothing, and whose contracts are laws.

ghost use Rattle.shard_pool_settled.specs.Words.{ToldStand, StandingAreTold};

/// Each receipt is found told just where the entry of its number at its shard has its seat, step and outcome.
#[tactic(auto, using(crate::proofs::Standing::told_stand, crate::proofs::Standing::standing_are_told))]
pub fn receipts_stand()
    ensures stand { ToldStand }
    ensures told { StandingAreTold }
{}
