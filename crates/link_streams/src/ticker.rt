//! The time that a node goes by.
ghost use Rattle.std.specs.Prelude.{◌≡◌};
ghost use Rattle.link_streams.specs.Ticker.{GoesBy, stepped as step_of};

use crate::stopping::time_behind;
use std::time::Clock;

/// The time behind `last` where the clock shows `now`: at most two periods later, and never earlier.
fn stepped(last: u64, now: u64, period: u64) -> u64
    ensures { result ≡ step_of last now period }
{
    let most = last.saturating_add(period.saturating_mul(2));
    now.min(most).max(last)
}

/// The time that is handed in once a period, in milliseconds. It goes by the clock, but by two periods at most at once: so a
/// process that was stopped, or whose machine slept, hands in its own pause bit by bit, and finds that nobody was silent.
#[derive(Drop)]
pub struct Ticker {
    time: u64,
    period: u64,
}

impl Ticker {
    /// A ticker of this period that begins at the clock's time.
    pub fn new<R: Clock>(rt: &R, period: u64) -> Ticker
        ensures { result.period ≡ period }
    {
        Ticker {
            time: time_behind(rt, 0),
            period,
        }
    }

    /// The time of the next period.
    pub fn next<R: Clock>(&mut self, rt: &R) -> u64
        ensures period { self.new.period ≡ self.old.period }
        ensures time { result ≡ self.new.time }
        ensures clock { GoesBy self.old.time self.old.period result }
    {
        self.time = stepped(self.time, time_behind(rt, self.time), self.period);
        self.time
    }
}
