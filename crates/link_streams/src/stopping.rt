//! Whether the node stops, and times.
use std::sync::atomic::{AtomicBool, Ordering};
use std::sync::{Condvar, CondvarTimeouts, Mutex, Wait};
use std::time::{Clock, Duration};

/// So many milliseconds since some time; where the clock can't be read, the time that was read last.
pub fn time_behind<R: Clock>(rt: &R, last: u64) -> u64 {
    match rt.monotonic() {
        Ok(time) => u64::try_from(time.as_millis()).unwrap_or(last),
        Err(_) => last,
    }
}

/// Whether the links are to end, and what ends a wait for that.
pub struct Stopping {
    stopped: AtomicBool,
    lock: Mutex<()>,
    bell: Condvar,
}

impl Drop for Stopping {
    fn drop(self) {
        let Stopping {
            stopped,
            lock,
            bell,
        } = self;
        drop(stopped);
        drop(lock);
        drop(bell);
    }
}

impl Stopping {
    pub fn new() -> Stopping {
        Stopping {
            stopped: AtomicBool::new(false),
            lock: Mutex::new(()),
            bell: Condvar::new(),
        }
    }

    pub fn is_stopped(&self) -> bool {
        self.stopped.load(Ordering::SeqCst)
    }

    pub fn stop<R: Wait>(&self, rt: &R) {
        let guard = self.lock.lock(rt);
        self.stopped.store(true, Ordering::SeqCst);
        drop(guard);
        self.bell.notify_all();
    }

    /// Waits for so many milliseconds, or until the links are to end.
    pub fn pause<R: Wait + Clock>(&self, rt: &R, milliseconds: u64) {
        let guard = self.lock.lock(rt);
        if self.is_stopped() {
            return;
        }
        let time = Duration::from_millis(milliseconds);
        let (_guard, _) = self.bell.wait_timeout(rt, guard, time);
    }
}
