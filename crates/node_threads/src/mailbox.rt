//! The last value of each shard under a lock, with a bell.
use crate::latest::Latest;
use std::alloc::Global;
use std::sync::{Condvar, CondvarTimeouts, Mutex, Wait};
use std::time::{Clock, Duration};

/// What is posted to one thread: it finds the last value of each shard.
pub struct Mailbox<T> {
    latest: Mutex<Latest<T>>,
    bell: Condvar,
}

impl<T: Drop> Drop for Mailbox<T> {
    fn drop(self) {
        let Mailbox { latest, bell } = self;
        drop(latest);
        drop(bell);
    }
}

impl<T: Drop> Mailbox<T> {
    pub fn new(alloc: Global) -> Mailbox<T> {
        Mailbox {
            latest: Mutex::new(Latest::new(alloc)),
            bell: Condvar::new(),
        }
    }

    /// Posts values of shards, all at once, each in the place of the one before, and wakes who waits. One for which there
    /// is no memory is lost.
    pub fn post<R: Wait>(&self, rt: &R, values: Vec<(u32, T)>) {
        let mut guard = self.latest.lock(rt);
        for (shard, value) in values {
            let _lost = guard.put(shard, value);
        }
        drop(guard);
        self.bell.notify_all();
    }

    /// Wakes who waits, though nothing is posted.
    pub fn ring(&self) {
        self.bell.notify_all();
    }

    /// What was posted. Where there is nothing it waits for so many milliseconds at most, or until it is woken.
    pub fn take<R: Wait + Clock>(&self, rt: &R, alloc: Global, milliseconds: u64) -> Vec<(u32, T)> {
        let mut guard = self.latest.lock(rt);
        if guard.is_empty() {
            let time = Duration::from_millis(milliseconds);
            let (woken, _) = self.bell.wait_timeout(rt, guard, time);
            guard = woken;
        }
        guard.take(alloc)
    }
}
