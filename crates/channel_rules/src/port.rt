//! The port: what a session asks of a shard.
use crate::call::Call;
use crate::refusal::Refusal;
use std::alloc::Global;

/// What a session asks of the shard that has a topic.
pub trait Port {
    ghost use Rattle.std.specs.Prelude.{ℕ, ◌≤◌, ◌^◌};
    ghost use Rattle.channel_rules.specs.Asks.{Ask, Answer};
    ghost use Rattle.channel_rules.specs.Seen.{seen_by};

    /// From the one to the other, as the session of this number, this was asked and this answered, and nothing else.
    ghost step: { ℕ → Self → (q : Ask) → Answer q → Self → Type 0 };

    /// Makes a call, as the session of this number.
    fn call<C: Call>(&mut self, alloc: Global, pid: u64, call: &C) -> Result<C::Answer, Refusal>
        requires { pid ≤ 2 ^ 62 }
        ensures { step pid self.old (C.ask call.now) (seen_by (C.view call.now) result) self.new };
}
