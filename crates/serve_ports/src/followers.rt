//! Which connections have joined which topics.
ghost use Rattle.std.specs.Prelude.{◌≡◌, IfOk, OnOk, filter, option_copied};
ghost use Rattle.channel_session.specs.Ending.{topics_named};
ghost use Rattle.presence_base.specs.Order.{text_cmp};
ghost use Rattle.std.specs.BTreeMap.{get};
ghost use Rattle.serve_ports.specs.Following.{FollowsThese, GainsFollower, GainsToken, HasNobody, HasToo, IsOnly, KeepsFollowers, is_followed};

use crate::followed::Followed;
use channel_session::Session;
use presence_base::Topic;
use std::alloc::{AllocError, Global};
use std::collections::{BTreeMap, BTreeSet};

/// The connections that have joined each topic, by their tokens, so that what is new of a topic costs by them alone. Where
/// memory ran out one may be missing, and then each counts as one that has joined each.
#[derive(Drop)]
pub struct Followers {
    by_topic: BTreeMap<Topic, BTreeSet<usize>>,
    has_all: bool,
}

// One token more.
fn add_one(tokens: &mut BTreeSet<usize>, token: usize) -> Result<(), AllocError>
    ensures { OnOk result (HasToo tokens.old token tokens.new) }
{
    tokens.insert(token)?;
    Ok(())
}

// One token.
fn only(alloc: Global, token: usize) -> Result<BTreeSet<usize>, AllocError>
    ensures { IfOk result (λ tokens. IsOnly token tokens) }
{
    let mut tokens = BTreeSet::new(alloc);
    add_one(&mut tokens, token)?;
    Ok(tokens)
}

// One token more at a topic.
fn add_token(
    alloc: Global,
    by_topic: &mut BTreeMap<Topic, BTreeSet<usize>>,
    topic: &Topic,
    token: usize,
) -> Result<(), AllocError>
    ensures { OnOk result (GainsToken by_topic.old topic.now token by_topic.new) }
{
    if let Some(tokens) = by_topic.get_mut(topic) {
        add_one(tokens, token)?;
        return Ok(());
    }
    let key = topic.clone()?;
    let tokens = only(alloc, token)?;
    by_topic.insert(key, tokens)?;
    Ok(())
}

impl Followers {
    /// Nobody has joined anything.
    pub fn new(alloc: Global) -> Followers
        ensures { HasNobody result }
    {
        Followers {
            by_topic: BTreeMap::new(alloc),
            has_all: false,
        }
    }

    /// Whether each connection counts as one that has joined each topic.
    pub fn has_all(&self) -> bool
        ensures { result ≡ self.now.has_all }
    {
        self.has_all
    }

    /// The tokens of those that have joined this topic, if there are some.
    pub fn of_topic(&self, topic: &Topic) -> Option<&BTreeSet<usize>>
        ensures { option_copied result ≡ get text_cmp self.now.by_topic topic.now }
    {
        self.by_topic.get(topic)
    }

    /// The connection of this token has joined this topic too.
    pub fn add(&mut self, alloc: Global, topic: &Topic, token: usize)
        ensures { GainsFollower self.old topic.now token self.new }
    {
        if add_token(alloc, &mut self.by_topic, topic, token).is_err() {
            self.has_all = true;
        }
    }

    /// The connection of this token has joined what its session has.
    pub fn add_joined(&mut self, alloc: Global, session: &Session, token: usize)
        ensures kept { KeepsFollowers self.old self.new }
        ensures joined { FollowsThese self.new (topics_named session.now) token }
    {
        for topic in session.joined() {
            self.add(alloc, topic, token);
        }
    }

    /// The connection of this token has joined what its session has of these topics.
    pub fn add_joined_of(
        &mut self,
        alloc: Global,
        session: &Session,
        topics: &Followed,
        token: usize,
    )
        ensures kept { KeepsFollowers self.old self.new }
        ensures joined { FollowsThese self.new (filter (is_followed topics.now) (topics_named session.now)) token }
    {
        for topic in session.joined() {
            if topics.contains(topic) {
                self.add(alloc, topic, token);
            }
        }
    }
}
