//! A port that refuses what takes more memory where memory is tight.
ghost use Rattle.std.specs.Prelude.{◌≡◌};
ghost use Rattle.channel_rules.specs.Questions.{asks};
ghost use Rattle.serve_rations.specs.Guarding.{Guarded, grows as is_growing};

use channel_rules::{Call, Port, Question, Refusal};
use std::alloc::Global;

/// A port whose calls are those of the port inside, but that where memory is tight a new row, a join and a shout are refused
/// as more than may be had, and the port inside isn't asked.
#[derive(Drop)]
pub struct GuardedPort<P> {
    port: P,
    is_tight: bool,
}

impl<P: Port + Drop> GuardedPort<P> {
    /// A port for as long as memory is tight, or isn't.
    pub fn new(port: P, is_tight: bool) -> GuardedPort<P>
        ensures port { result.port ≡ port }
        ensures tight { result.is_tight ≡ is_tight }
    {
        GuardedPort { port, is_tight }
    }

    /// The port inside.
    pub fn port(&self) -> &P
        ensures { result.now ≡ self.now.port }
    {
        &self.port
    }
}

// Whether a call takes memory for long.
fn grows(question: Question<'_>) -> bool
    ensures { result ≡ is_growing (asks question.entry) }
{
    matches!(
        question,
        Question::Track(_) | Question::Subscribe(_) | Question::Shout(_)
    )
}

impl<P: Port + Drop> Port for GuardedPort<P> {
    ghost step = { λ pid old q a new. (new.is_tight ≡ old.is_tight) × Guarded (P.step pid) old.is_tight old.port q a new.port };

    fn call<C: Call>(&mut self, alloc: Global, pid: u64, call: &C) -> Result<C::Answer, Refusal> {
        if self.is_tight && grows(call.question()) {
            return Err(Refusal::OverRation);
        }
        self.port.call(alloc, pid, call)
    }
}
