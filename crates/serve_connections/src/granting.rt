//! A port that asks nothing of the port inside that its caller isn't granted.
ghost use Rattle.std.specs.Prelude.{◌≡◌};
ghost use Rattle.channel_rules.specs.Questions.{asks};
ghost use Rattle.tokens.specs.Held.{granted};
ghost use Rattle.serve_connections.specs.Granted.{AsksGranted, gives as gives_in, may_ask as may_ask_in, takes_away as takes_away_in};

use crate::cause::Cause;
use channel_rules::{
    Call, Get, List, Port, Question, Refusal, Shout, Subscribe, Take, Track, Update, Waits,
};
use std::alloc::Global;
use tokens::Grant;

// Whether it only takes away what its caller has: that needs no grant.
fn takes_away(question: Question<'_>) -> bool
    ensures { result ≡ takes_away_in (asks question.entry) }
{
    matches!(
        question,
        Question::Untrack(_) | Question::UntrackAll(_) | Question::Unsubscribe(_)
    )
}

// Whether the grant lets it be asked at this second.
fn gives(grant: &Grant, now: u64, question: Question<'_>) -> bool
    ensures { result ≡ gives_in (granted grant.now) now (asks question.entry) }
{
    match question {
        Question::Track(Track { topic, key, .. }) | Question::Update(Update { topic, key, .. }) => {
            grant.lets_track(now, topic, key)
        }
        Question::List(List { topic })
        | Question::Get(Get { topic, .. })
        | Question::Subscribe(Subscribe { topic }) => grant.lets_join(now, topic),
        Question::Shout(Shout { topic, .. }) => grant.lets_shout(now, topic),
        Question::Take(Take { topic, .. }) | Question::Waits(Waits { topic, .. }) => {
            grant.has_topic(topic)
        }
        Question::Untrack(_) | Question::UntrackAll(_) | Question::Unsubscribe(_) => true,
    }
}

/// A port whose calls are those of the port inside, but that what its caller isn't granted is refused, and the port inside
/// isn't asked.
#[derive(Drop)]
pub(crate) struct GrantedPort<'a, P> {
    port: &'a mut P,
    grant: &'a Result<Grant, Cause>,
    second: u64,
}

impl<'a, P: Port> GrantedPort<'a, P> {
    /// The port round this one, at this second, of a client to whom this is granted.
    pub fn new(port: &'a mut P, grant: &'a Result<Grant, Cause>, second: u64) -> GrantedPort<'a, P>
        ensures same_port { result.port.ghost_name ≡ port.entry.ghost_name }
        ensures port { result.port.now ≡ port.old }
        ensures grant { result.grant.now ≡ grant.now }
        ensures second { result.second ≡ second }
    {
        GrantedPort {
            port,
            grant,
            second,
        }
    }

    // Whether its caller may ask this.
    fn may_ask(&self, question: Question<'_>) -> bool
        ensures { result ≡ may_ask_in self.now.grant.now self.now.second (asks question.entry) }
    {
        match self.grant {
            Ok(grant) => gives(grant, self.second, question),
            Err(_) => takes_away(question),
        }
    }
}

impl<P: Port> Port for GrantedPort<'_, P> {
    ghost step = { λ pid old q a new. (new.port.ghost_name ≡ old.port.ghost_name)
        × (new.grant ≡ old.grant) × (new.second ≡ old.second)
        × AsksGranted old.grant.now old.second (P.step pid) old.port.now q a new.port.now };

    fn call<C: Call>(&mut self, alloc: Global, pid: u64, call: &C) -> Result<C::Answer, Refusal> {
        if !self.may_ask(call.question()) {
            return Err(Refusal::NotGranted);
        }
        self.port.call(alloc, pid, call)
    }
}
