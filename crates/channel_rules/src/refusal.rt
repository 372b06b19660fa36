//! Why a port refuses.
ghost use Rattle.std.specs.Prelude.{◌≡◌};
ghost use Rattle.channel_rules.specs.Seen.{in_table as in_table_of};

use tracker_shard::ShardFault;

/// Why a port refuses a call: as the table of the topic's shard does, or by itself, and then the table isn't asked.
#[derive(Clone, Copy, Debug, PartialEq, Eq)]
pub enum Refusal {
    /// It is more than the caller, or all callers together, may have.
    OverRation,
    /// The caller isn't granted what it asks for.
    NotGranted,
    Table(ShardFault),
}

/// What a port answers where its table answers so.
pub fn in_table<T: Drop>(answer: Result<T, ShardFault>) -> Result<T, Refusal>
    ensures { result ≡ in_table_of answer }
{
    match answer {
        Ok(value) => Ok(value),
        Err(fault) => Err(Refusal::Table(fault)),
    }
}
