//! A port that notes which topics its calls may have changed, and which are followed from then on.
ghost use Rattle.std.specs.Prelude.{◌≡◌, true};
ghost use Rattle.channel_rules.specs.Questions.{asks};
ghost use Rattle.serve_ports.specs.Following.{FollowsNone, Notes, NotesChange, NotesFollower, topic_changed, topic_followed};

use crate::followed::Followed;
use channel_rules::{
    Call, Port, Question, Refusal, Shout, Subscribe, Track, Untrack, UntrackAll, Update,
};
use std::alloc::Global;

/// What a port has noted.
#[derive(Drop)]
pub struct Noted {
    /// The topics that may have something new, or each where memory ran out.
    pub changed: Followed,
    /// Those that have a new subscriber.
    pub followed: Followed,
}

/// A port that notes which topics its calls may have changed, and which have a new subscriber. Each call is that of the
/// port inside.
#[derive(Drop)]
pub struct HintingPort<P> {
    port: P,
    noted: Noted,
}

impl<P: Port + Drop> HintingPort<P> {
    /// A port that has noted nothing.
    pub fn new(alloc: Global, port: P) -> HintingPort<P>
        ensures port { result.port ≡ port }
        ensures changed { FollowsNone result.noted.changed }
        ensures followed { FollowsNone result.noted.followed }
    {
        HintingPort {
            port,
            noted: Noted {
                changed: Followed::new(alloc),
                followed: Followed::new(alloc),
            },
        }
    }

    /// The port inside.
    pub fn port(&self) -> &P
        ensures { result.now ≡ self.now.port }
    {
        &self.port
    }

    /// What was noted.
    pub fn into_noted(self) -> Noted
        ensures { result ≡ self.noted }
    {
        let HintingPort { port: _, noted } = self;
        noted
    }

    // Notes what an accepted call may have changed, and who follows from then on.
    fn note(&mut self, question: Question<'_>)
        ensures changed { Notes (topic_changed (asks question.entry)) true self.old.noted.changed self.new.noted.changed }
        ensures followed { Notes (topic_followed (asks question.entry)) true self.old.noted.followed self.new.noted.followed }
        ensures port { self.new.port ≡ self.old.port }
    {
        match question {
            Question::Track(Track { topic, .. })
            | Question::Update(Update { topic, .. })
            | Question::Untrack(Untrack { topic, .. })
            | Question::UntrackAll(UntrackAll { topic })
            | Question::Shout(Shout { topic, .. }) => self.noted.changed.add(topic),
            Question::Subscribe(Subscribe { topic }) => self.noted.followed.add(topic),
            Question::List(_)
            | Question::Get(_)
            | Question::Take(_)
            | Question::Unsubscribe(_)
            | Question::Waits(_) => (),
        }
    }
}

impl<P: Port + Drop> Port for HintingPort<P> {
    ghost step = { λ pid old q a new. P.step pid old.port q a new.port
        × NotesChange q a old.noted.changed new.noted.changed
        × NotesFollower q a old.noted.followed new.noted.followed };

    fn call<C: Call>(&mut self, alloc: Global, pid: u64, call: &C) -> Result<C::Answer, Refusal> {
        match self.port.call(alloc, pid, call) {
            Ok(given) => {
                self.note(call.question());
                Ok(given)
            }
            Err(refusal) => Err(refusal),
        }
    }
}
