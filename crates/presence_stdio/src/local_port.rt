//! A port that is lent one shard.
use channel_rules::{AtShard, Call, Port, Refusal, Told, in_table, told_to};
use std::alloc::Global;
use tracker_shard::Shard;

/// A port that is lent one shard: each of its calls is that call of the shard, without a seat. What
/// the shard is when the port goes, its lender has.
#[derive(Drop)]
pub struct LocalPort<'a> {
    shard: &'a mut Shard,
}

impl<'a> LocalPort<'a> {
    ghost use Rattle.std.specs.Prelude.{◌≡◌};

    pub fn new(shard: &'a mut Shard) -> LocalPort<'a>
        ensures same_reference { result.shard.ghost_name ≡ shard.entry.ghost_name }
        ensures history { result.shard.now ≡ shard.old }
    {
        LocalPort { shard }
    }

    /// The shard as it is now.
    pub fn shard(&self) -> &Shard
        ensures { result.now ≡ self.now.shard.now }
    {
        self.shard
    }
}

impl<'a> Port for LocalPort<'a> {
    ghost use Rattle.std.specs.Prelude.{◌≡◌};
    ghost use Rattle.presence_stdio.specs.Local.{LocalStep};

    ghost step = { λ pid old q a new. (new.shard.ghost_name ≡ old.shard.ghost_name) × LocalStep pid old.shard.now q a new.shard.now };

    fn call<C: Call>(&mut self, alloc: Global, pid: u64, call: &C) -> Result<C::Answer, Refusal> {
        match call.at_shard(pid) {
            AtShard::Step(step) => in_table(self.shard.perform(alloc, None, &step)),
            AtShard::Waits(sub) => match self.shard.waits(&sub) {
                Ok(waits) => Ok(told_to(call, Told::Waits(waits))),
                Err(fault) => Err(Refusal::Table(fault)),
            },
        }
    }
}
