//! The port of a link: what it asks of shards, and how they refuse.
use orswot_core::{Form, Told};
use presence_base::Replica;
use replica_status::Status;
use std::alloc::Global;
use thiserror::Error;

/// Why a shard refuses what a link asks of it.
#[derive(Clone, Copy, PartialEq, Eq, Debug, Error)]
pub enum ActFault {
    /// Any refusal but want of memory.
    #[error("the shard takes nothing more in")]
    ShardFull,
    #[error("out of memory")]
    OutOfMemory,
}

/// What a link asks of a node's shards, each by its number from 0: one call for each call of a shard
/// that a line leads to.
pub trait LinkPort {
    ghost use Rattle.std.specs.Prelude.{◌≡◌, ℕ};
    ghost use Rattle.node_links.specs.Asks.{Ask, Answer, status, heard, merge, permdown, top, told_from, full};

    /// From the one to the other this was asked and this answered, and nothing else.
    ghost step: { Self → (q : Ask) → Answer q → Self → Type 0 };

    /// How many shards there are.
    ghost shard_count: { Self → ℕ };

    fn shards(&self) -> u32
        ensures { result ≡ shard_count self.now };

    fn status(&mut self, alloc: Global, shard: u32, replica: &Replica) -> Result<Status, ActFault>
        ensures { step self.old (status shard replica.now) result self.new };

    /// The replica was heard, at a time in milliseconds.
    fn heard(
        &mut self,
        alloc: Global,
        shard: u32,
        replica: Replica,
        now: u64,
    ) -> Result<(), ActFault>
        ensures { step self.old (heard shard replica now) result self.new };

    fn merge(&mut self, alloc: Global, shard: u32, told: Told) -> Result<(), ActFault>
        ensures { step self.old (merge shard told) result self.new };

    fn permdown(&mut self, alloc: Global, shard: u32, replica: Replica) -> Result<(), ActFault>
        ensures { step self.old (permdown shard replica) result self.new };

    /// The highest count up to which all of the replica's dots are covered.
    fn top(&mut self, alloc: Global, shard: u32, replica: &Replica) -> Result<u64, ActFault>
        ensures { step self.old (top shard replica.now) result self.new };

    /// What was counted here above `from`, or all that is known, in the form; none where that is more than a line takes.
    fn told_from(
        &mut self,
        alloc: Global,
        shard: u32,
        from: u64,
        form: Form,
    ) -> Result<Option<Told>, ActFault>
        ensures { step self.old (told_from shard from form) result self.new };

    /// All that is known, in the form; none where that is more than a line takes.
    fn full(&mut self, alloc: Global, shard: u32, form: Form) -> Result<Option<Told>, ActFault>
        ensures { step self.old (full shard form) result self.new };
}
