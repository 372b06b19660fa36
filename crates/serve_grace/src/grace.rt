//! The grace of a server, which its threads share.
ghost use Rattle.std.specs.Prelude.{◌≡◌};

use std::sync::atomic::{AtomicU64, Ordering};

/// How many milliseconds a second has.
const SECOND: u64 = 1_000;

/// Over how long clients are let go before the server stops, and since when they are.
pub struct Grace {
    milliseconds: u64,
    /// When it began, by the clock of the server's threads, in milliseconds; 0 where it hasn't.
    since: AtomicU64,
}

impl Drop for Grace {
    fn drop(self) {
        let Grace {
            milliseconds: _,
            since,
        } = self;
        drop(since);
    }
}

impl Grace {
    /// A grace of so many seconds that hasn't begun. One of none is none.
    pub fn new(seconds: u64) -> Grace {
        Grace {
            milliseconds: seconds.saturating_mul(SECOND),
            since: AtomicU64::new(0),
        }
    }

    /// How long it is, in milliseconds.
    pub fn milliseconds(&self) -> u64
        ensures { result ≡ self.now.milliseconds }
    {
        self.milliseconds
    }

    /// It begins at this time, in milliseconds.
    pub fn begin(&self, now: u64) {
        self.since.store(now.max(1), Ordering::SeqCst);
    }

    /// Whether it has begun.
    pub fn has_begun(&self) -> bool {
        self.since.load(Ordering::SeqCst) > 0
    }

    /// How much of it has passed at this time, in milliseconds; none where it hasn't begun.
    pub fn passed(&self, now: u64) -> Option<u64> {
        match self.since.load(Ordering::SeqCst) {
            0 => None,
            since => Some(now.saturating_sub(since)),
        }
    }
}
