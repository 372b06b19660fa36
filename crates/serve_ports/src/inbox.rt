//! What the workers tell each other.
ghost use Rattle.std.specs.Prelude.{◌≡◌};
ghost use Rattle.std.specs.Arc.{arc_value};
ghost use Rattle.channel_session.specs.Ending.{topics_named};
ghost use Rattle.serve_ports.specs.Following.{FollowsBoth, TellsKept, names_one_of};

use crate::followed::Followed;
use channel_session::Session;
use presence_base::Topic;
use std::alloc::{AllocError, Global};
use std::collections::BTreeSet;
use std::mem;
use std::sync::atomic::{AtomicBool, Ordering};
use std::sync::{Arc, Mutex, Wait};

/// Topics that have something new.
pub type Topics = BTreeSet<Topic>;

// What other workers told a worker, and it hasn't looked at yet; and the topics of which it wants to be told.
#[derive(Drop)]
struct Kept {
    waiting: Vec<Arc<Topics>>,
    followed: Followed,
}

impl Kept {
    // These topics are followed too.
    fn follow(&mut self, topics: Followed)
        ensures followed { FollowsBoth self.old.followed topics self.new.followed }
        ensures waiting { self.new.waiting ≡ self.old.waiting }
    {
        self.followed.add_all(topics);
    }

    // Tells of these topics, if one of them is followed: whether it is, and nothing else waited.
    fn put(&mut self, topics: &Arc<Topics>) -> Result<bool, AllocError>
        ensures told { TellsKept (arc_value topics.now) self.old self.new result }
        ensures followed { self.new.followed ≡ self.old.followed }
    {
        if !self.followed.has_one_of(topics) {
            return Ok(false);
        }
        let first = self.waiting.is_empty();
        self.waiting.push(Arc::try_clone(topics)?)?;
        Ok(first)
    }
}

/// What other workers told a worker, and it hasn't looked at yet. It is told of the topics that its sessions follow alone.
pub struct Inbox {
    kept: Mutex<Kept>,
    /// Whether its worker is to read nothing.
    drains: AtomicBool,
}

impl Drop for Inbox {
    fn drop(self) {
        let Inbox { kept, drains } = self;
        drop(kept);
        drop(drains);
    }
}

impl Inbox {
    /// Nothing waits, and no topic is followed.
    pub fn new(alloc: Global) -> Inbox {
        Inbox {
            kept: Mutex::new(Kept {
                waiting: Vec::new(alloc),
                followed: Followed::new(alloc),
            }),
            drains: AtomicBool::new(false),
        }
    }

    /// Its worker is to read nothing from now on, and only to deliver what waits; or it may read again.
    pub fn set_draining(&self, drains: bool) {
        self.drains.store(drains, Ordering::SeqCst);
    }

    /// Whether its worker is to read nothing.
    pub fn is_draining(&self) -> bool {
        self.drains.load(Ordering::SeqCst)
    }

    /// Its worker's sessions follow these topics too.
    pub fn follow<R: Wait>(&self, rt: &R, topics: Followed) {
        let mut guard = self.kept.lock(rt);
        let kept = &mut *guard;
        kept.follow(topics);
    }

    /// They follow these topics and no others.
    pub fn follow_only<R: Wait>(&self, rt: &R, topics: Followed) {
        let mut guard = self.kept.lock(rt);
        let kept = &mut *guard;
        kept.followed = topics;
    }

    /// Tells of these topics, if one of them is followed: whether it is, and nothing else waited.
    pub fn put<R: Wait>(&self, rt: &R, topics: &Arc<Topics>) -> Result<bool, AllocError> {
        let mut guard = self.kept.lock(rt);
        let kept = &mut *guard;
        kept.put(topics)
    }

    /// All that waits.
    pub fn take<R: Wait>(&self, rt: &R, alloc: Global) -> Vec<Arc<Topics>> {
        let mut guard = self.kept.lock(rt);
        let kept = &mut *guard;
        mem::replace(&mut kept.waiting, Vec::new(alloc))
    }
}

/// Whether the session has joined one of these topics.
pub fn follows(session: &Session, topics: &Topics) -> bool
    ensures { result ≡ names_one_of (topics_named session.now) topics.now }
{
    for topic in session.joined() {
        if topics.contains(topic) {
            return true;
        }
    }
    false
}
