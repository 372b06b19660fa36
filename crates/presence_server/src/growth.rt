//! How much of the memory that the process has counts as taken.
ghost use Rattle.presence_server.specs.Growing.{Counts};

/// So long behind its last growth all of it counts, in milliseconds, and so long where it is as much as it may be.
const GROWTH_MILLISECONDS: u64 = 30_000;

const LIMIT_MILLISECONDS: u64 = 300_000;

/// It has grown where it is more by this part of what it may be, and fallen where it is less by that one.
const GROWTH_PART: u64 = 100;

const FALL_PART: u64 = 10;

/// The memory of the process, as it was looked at from time to time.
#[derive(Clone, Copy)]
pub(crate) struct Growth {
    /// How many bytes it was last.
    last: u64,
    /// How many it was when it had grown last.
    grown: u64,
    /// When that was, in milliseconds.
    since: u64,
}

impl Growth {
    /// Nothing was looked at.
    pub fn new() -> Growth {
        Growth {
            last: 0,
            grown: 0,
            since: 0,
        }
    }

    /// It is so many bytes now, or as many as it was where nobody says, and may be so many: how many count as taken. Where
    /// it hasn't grown for a while none do: the C library keeps what was freed, and gives it out again.
    pub fn counted(&mut self, bytes: Option<u64>, limit: u64, now: u64) -> u64
        ensures { Counts self.old bytes limit now result self.new }
    {
        let taken = bytes.unwrap_or(self.last);
        self.last = taken;
        let has_grown = taken > self.grown.saturating_add(limit / GROWTH_PART);
        let has_fallen = taken < self.grown.saturating_sub(limit / FALL_PART);
        if has_grown || has_fallen {
            self.grown = taken;
            self.since = now;
        }
        let rest = if taken < limit {
            GROWTH_MILLISECONDS
        } else {
            LIMIT_MILLISECONDS
        };
        if now.saturating_sub(self.since) < rest {
            taken
        } else {
            0
        }
    }
}
