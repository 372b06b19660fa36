//! How many lines of each reason are written.
ghost use Rattle.std.specs.Prelude.{◌≡◌, ◌==◌, not};

use crate::quota::Quota;
use crate::reasons::{REASONS, Reason};

// The lines of each reason, by its place.
#[derive(Drop)]
pub(crate) struct Quotas {
    all: [Quota; REASONS],
    /// The second in which it was told last what had no line.
    caught_up: u64,
}

impl Quotas {
    // Nothing has happened.
    pub(crate) fn new() -> Quotas {
        Quotas {
            all: [Quota::NEW; REASONS],
            caught_up: 0,
        }
    }

    // Something happens in this second for this reason: for how many events a line stands that is written of it, if one is.
    pub(crate) fn comes(&mut self, reason: Reason, second: u64) -> Option<u64> {
        self.all[reason.place()].comes(second)
    }

    // Whether this second is another one than that in which it was told last what had no line. It is then.
    pub(crate) fn begins(&mut self, second: u64) -> bool
        ensures last { self.new.caught_up ≡ second }
        ensures others { self.new.all ≡ self.old.all }
        ensures begins { result ≡ not (self.old.caught_up == second) }
    {
        let begins = self.caught_up != second;
        self.caught_up = second;
        begins
    }

    // This second has come: how many events of this reason have had no line, and have one now.
    pub(crate) fn catch_up(&mut self, reason: Reason, second: u64) -> Option<u64> {
        self.all[reason.place()].catch_up(second)
    }
}
