//! The lives of a node as its links see them: what it does once another node has given it up, and which links are of which.
ghost use Rattle.std.specs.Prelude.{◌≡◌};
ghost use Rattle.link_rules.specs.Lives.{and_came, course_of, first_life, first_line as first_line_of, is_due as is_shard_due, is_of as is_of_life, life_after, life_refused, life_retried, course_behind as course_after, hears_of as life_hearing, is_ahead as is_told_ahead, none_came, rebirths_for as rebirths_for_all, turn_behind as turn_after, turn_for as turn_for_all};

use crate::rebirths::Rebirths;
use link_lines::Line;
use presence_base::{MAX_COUNT, Replica};

/// A life that is told of by so much above the node's own incarnation, or less, is one that the next life goes above.
pub const MOST_AHEAD: u64 = 4_294_967_296;

/// The life of a node that its links speak of.
#[derive(Clone, Copy, PartialEq, Eq, Debug)]
pub struct Life {
    /// The node, as its hello names it.
    pub own: Replica,
    /// What it was before, where it was given up.
    pub before: Option<Replica>,
    /// Whether some shard could not go on yet, and is tried again each period.
    pub is_late: bool,
    /// Which turn of the links this is: those that were begun in an earlier one end.
    pub turn: u64,
    /// The highest incarnation of this node's name that a link told of, or that a shard refused to go on under; at first 0.
    pub told: u64,
    pub rebirths: Rebirths,
}

/// What a node does where a link is told that its own hello's replica is gone.
#[derive(Clone, Copy, PartialEq, Eq, Debug)]
pub enum Course {
    /// Nothing, but that the link ends: the node has gone on since that hello.
    HasGoneOn,
    /// It goes on under this incarnation.
    GoesOn(u64),
    /// Nothing yet: it has gone on three times of late.
    Waits,
    /// There is no higher one.
    StaysGone,
}

/// What came of a shard that was to go on under an incarnation.
#[derive(Clone, Copy, PartialEq, Eq, Debug)]
pub enum Came {
    /// It has gone on.
    Now,
    /// There was no memory, or no room in its journal: it is tried again.
    Later,
    /// Somebody told of that incarnation there.
    Never,
}

/// What came of all shards that were to go on.
#[derive(Clone, Copy, PartialEq, Eq, Debug)]
pub struct Coming {
    pub has_some: bool,
    pub has_late: bool,
    pub has_refused: bool,
}

/// Whether a shard of this incarnation is to go on, where the node does under that one.
pub fn is_due(shard: u64, node: u64) -> bool
    ensures { result ≡ is_shard_due shard node }
{
    shard < node
}

impl Coming {
    ghost use Rattle.std.specs.Prelude.{◌≡◌};

    /// No shard was to go on yet.
    pub fn new() -> Coming
        ensures { result ≡ none_came }
    {
        Coming {
            has_some: false,
            has_late: false,
            has_refused: false,
        }
    }

    /// And this came of one more.
    pub fn and(self, came: Came) -> Coming
        ensures { result ≡ and_came self came }
    {
        let mut all = self;
        match came {
            Came::Now => all.has_some = true,
            Came::Later => all.has_late = true,
            Came::Never => all.has_refused = true,
        }
        all
    }
}

fn course_behind(incarnation: u64) -> Course
    ensures { result ≡ course_after incarnation }
{
    if incarnation < MAX_COUNT {
        Course::GoesOn(incarnation + 1)
    } else {
        Course::StaysGone
    }
}

fn turn_behind(turn: u64) -> u64
    ensures { result ≡ turn_after turn }
{
    if turn < u64::MAX { turn + 1 } else { 0 }
}

// Whether an incarnation is no more than so many above the node's own.
fn is_ahead(own: u64, incarnation: u64) -> bool
    ensures { result ≡ is_told_ahead own incarnation }
{
    incarnation.saturating_sub(own) <= MOST_AHEAD
}

impl Life {
    ghost use Rattle.std.specs.Prelude.{◌≡◌};

    /// The node as it begins.
    pub fn first(own: Replica) -> Life
        ensures { result ≡ first_life own }
    {
        Life {
            own,
            before: None,
            is_late: false,
            turn: 0,
            told: 0,
            rebirths: Rebirths::none(),
        }
    }

    /// What is done where a link that said hello as this replica is told at this time (in milliseconds) that it is gone.
    pub fn course(&self, hello: &Replica, now: u64) -> Course
        ensures { result ≡ course_of self.now hello.now now }
    {
        if !hello.cmp(&self.own).is_eq() {
            return Course::HasGoneOn;
        }
        if self.rebirths.are_many(now) {
            return Course::Waits;
        }
        course_behind(self.own.incarnation.max(self.told))
    }

    /// The life behind this one, where a link told of a life of this node's name. What is told by much more than the own
    /// incarnation counts for nothing, so that nobody can tell of the last one that there is.
    pub fn hears_of(&self, incarnation: u64) -> Life
        ensures { result ≡ life_hearing self.now incarnation }
    {
        let mut life = *self;
        if is_ahead(self.own.incarnation, incarnation) {
            life.told = self.told.max(incarnation);
        }
        life
    }

    // All links begin anew where some shard has gone on.
    fn turn_for(&self, came: Coming) -> u64
        ensures { result ≡ turn_for_all self.now came }
    {
        if came.has_some {
            turn_behind(self.turn)
        } else {
            self.turn
        }
    }

    // The rebirths, with one more where some shard has gone on.
    fn rebirths_for(&self, came: Coming, now: u64) -> Rebirths
        ensures { result ≡ rebirths_for_all self.now came now }
    {
        if came.has_some {
            self.rebirths.and(now)
        } else {
            self.rebirths
        }
    }

    // The life behind this one, where a shard refused for good to go on under an incarnation: that is told of from now on.
    fn refused(&self, incarnation: u64, came: Coming, now: u64) -> Life
        ensures { result ≡ life_refused self.now incarnation came now }
    {
        Life {
            own: self.own,
            before: self.before,
            is_late: self.is_late,
            turn: self.turn_for(came),
            told: self.told.max(incarnation),
            rebirths: self.rebirths_for(came, now),
        }
    }

    /// The life behind this one, where the node was to go on under an incarnation at this time (in milliseconds), and this
    /// came of its shards. Where one of them refused for good its hello stays, and the next try is under a higher one.
    pub fn behind(&self, incarnation: u64, came: Coming, now: u64) -> Life
        ensures { result ≡ life_after self.now incarnation came now }
    {
        if came.has_refused {
            return self.refused(incarnation, came, now);
        }
        Life {
            own: Replica {
                name: self.own.name,
                incarnation,
            },
            before: Some(self.own),
            is_late: came.has_late,
            turn: turn_behind(self.turn),
            told: self.told,
            rebirths: self.rebirths.and(now),
        }
    }

    /// The life behind this one, where shards that were late were tried again, and this came of them.
    pub fn retried(&self, came: Coming) -> Life
        ensures { result ≡ life_retried self.now came }
    {
        Life {
            own: self.own,
            before: self.before,
            is_late: came.has_late || came.has_refused,
            turn: self.turn_for(came),
            told: self.told,
            rebirths: self.rebirths,
        }
    }

    /// Whether a link that was begun in this turn goes on.
    pub fn is_of(&self, turn: u64) -> bool
        ensures { result ≡ is_of_life self.now turn }
    {
        turn == self.turn
    }

    /// The first line behind a hello: that the life before this one is over, where there was one.
    pub fn first_line(&self) -> Option<Line>
        ensures { result ≡ first_line_of self.now }
    {
        match self.before {
            Some(replica) => Some(Line::PermDown { replica }),
            None => None,
        }
    }
}
