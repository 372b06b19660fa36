//! Calls as questions, which can be matched.
use crate::calls::{
    Get, List, Shout, Subscribe, Take, Track, Unsubscribe, Untrack, UntrackAll, Update, Waits,
};
use presence_base::{Dot, Row, Topic};
use presence_journal::{Item, SharedRows};

/// What a call asks, for a port that stands before another.
#[derive(Clone, Copy)]
pub enum Question<'a> {
    Track(Track<'a>),
    Update(Update<'a>),
    Untrack(Untrack<'a>),
    UntrackAll(UntrackAll<'a>),
    List(List<'a>),
    Get(Get<'a>),
    Subscribe(Subscribe<'a>),
    Take(Take<'a>),
    Unsubscribe(Unsubscribe<'a>),
    Waits(Waits<'a>),
    Shout(Shout<'a>),
}

impl<'a> Question<'a> {
    ghost use Rattle.std.specs.Prelude.{◌≡◌};
    ghost use Rattle.channel_rules.specs.Questions.{asks};
    ghost use Rattle.channel_rules.specs.Shards.{topic_asked};

    /// The topic that it names.
    pub fn topic(self) -> &'a Topic
        ensures { result.now ≡ topic_asked (asks self.entry) }
    {
        match self {
            Question::Track(Track { topic, .. })
            | Question::Update(Update { topic, .. })
            | Question::Untrack(Untrack { topic, .. })
            | Question::UntrackAll(UntrackAll { topic })
            | Question::List(List { topic })
            | Question::Get(Get { topic, .. })
            | Question::Subscribe(Subscribe { topic })
            | Question::Take(Take { topic, .. })
            | Question::Unsubscribe(Unsubscribe { topic, .. })
            | Question::Waits(Waits { topic, .. })
            | Question::Shout(Shout { topic, .. }) => topic,
        }
    }
}

/// What a port may answer by itself, without the port that it stands before.
#[derive(Debug, Drop)]
pub enum Told {
    /// The rows of a list.
    Rows(SharedRows),
    /// The rows of a get.
    Got(Vec<(Dot, Row)>),
    /// The items of a take.
    Items(Vec<Item>),
    /// Whether something waits.
    Waits(bool),
}
