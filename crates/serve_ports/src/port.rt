//! A port that counts its calls.
ghost use Rattle.std.specs.Prelude.{◌≡◌, ◌≤◌, ◌^◌};
ghost use Rattle.channel_rules.specs.Asks.{take as takes};
ghost use Rattle.channel_rules.specs.Seen.{seen_by};
ghost use Rattle.serve_ports.specs.Counting.{counted, taken};

use crate::tally::Tally;
use channel_rules::{Call, Port, Question, Refusal, Take, Told, told_to};
use presence_journal::Item;
use std::alloc::Global;

/// A port that counts its calls. Each call is that of the port inside.
#[derive(Drop)]
pub struct CountingPort<P> {
    port: P,
    tally: Tally,
}

impl<P: Port + Drop> CountingPort<P> {
    /// A port that has counted nothing.
    pub fn new(port: P) -> CountingPort<P>
        ensures port { result.port ≡ port }
        ensures tally { result.tally ≡ Tally.NOTHING }
    {
        CountingPort {
            port,
            tally: Tally::NOTHING,
        }
    }

    /// The port inside.
    pub fn port(&self) -> &P
        ensures { result.now ≡ self.now.port }
    {
        &self.port
    }

    /// What was counted.
    pub fn tally(&self) -> Tally
        ensures { result ≡ self.now.tally }
    {
        self.tally
    }

    // Takes of the port inside, and counts what it gives.
    fn take(&mut self, alloc: Global, pid: u64, take: &Take<'_>) -> Result<Vec<Item>, Refusal>
        requires { pid ≤ 2 ^ 62 }
        ensures port { P.step pid self.old.port (takes take.now.topic.now take.now.sub take.now.max)
            (seen_by (λ v. v.items) result) self.new.port }
        ensures tally { self.new.tally ≡ taken self.old.tally (seen_by (λ v. v.items) result) }
    {
        match self.port.call(alloc, pid, take) {
            Ok(items) => {
                self.tally.add_items(items.as_slice());
                Ok(items)
            }
            Err(refusal) => Err(refusal),
        }
    }
}

impl<P: Port + Drop> Port for CountingPort<P> {
    ghost step = { λ pid old q a new. P.step pid old.port q a new.port × (new.tally ≡ counted old.tally q a) };

    fn call<C: Call>(&mut self, alloc: Global, pid: u64, call: &C) -> Result<C::Answer, Refusal> {
        match call.question() {
            Question::Take(take) => match self.take(alloc, pid, &take) {
                Ok(items) => Ok(told_to(call, Told::Items(items))),
                Err(refusal) => Err(refusal),
            },
            question => match self.port.call(alloc, pid, call) {
                Ok(given) => {
                    self.tally.add(question, None);
                    Ok(given)
                }
                Err(refusal) => {
                    self.tally.add(question, Some(refusal));
                    Err(refusal)
                }
            },
        }
    }
}
