//! The topics that a session names, handed out without memory.

use channel_rules::Join;
use indexmap::map::Keys;
use presence_base::Topic;
use std::iter::Iterator;
use std::marker::Model;

/// The topics in force, in order of joining, and then the one whose join a fault cut short.
#[derive(Drop)]
pub struct JoinedTopics<'a> {
    pub(crate) topics: Keys<'a, Topic, Join>,
    pub(crate) cut_short: Option<&'a Topic>,
}

impl<'a> Model for JoinedTopics<'a> {
    ghost use Rattle.std.specs.Prelude.{◌++◌, ℕ, List, option_to_list};
    ghost use Rattle.std.specs.Option.{option_copied};

    ghost Value = { List (List ℕ) };

    ghost view = { λ a. a.topics ++ option_to_list (option_copied a.cut_short) };
}

impl<'a> Iterator for JoinedTopics<'a> {
    ghost use Rattle.std.specs.Prelude.{length};
    ghost use Rattle.std.specs.Iterator.{at_most};
    ghost use Rattle.std.specs.Map.Iter.{TakesFirst, deref};

    type Item = &'a Topic;

    ghost next_gives = { TakesFirst deref };

    ghost remaining = { λ s. at_most (length s) };

    fn next(&mut self) -> Option<&'a Topic> {
        match self.topics.next() {
            Some(topic) => Some(topic),
            None => self.cut_short.take(),
        }
    }
}
