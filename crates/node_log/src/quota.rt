//! How many lines of one reason are written.
ghost use Rattle.std.specs.Prelude.{◌≡◌};
ghost use Rattle.node_log.specs.Counted.{behind, caught_up, line_for, line_of_held};

/// So many lines of one reason are written in a second.
pub const LINES_A_SECOND: u64 = 5;

// The lines of one reason.
#[derive(Clone, Copy, PartialEq, Eq, Debug)]
pub(crate) struct Quota {
    /// The second of the last line, since 1970.
    pub second: u64,
    /// How many lines were written in it.
    pub lines: u64,
    /// How many events have had no line since.
    pub held: u64,
}

impl Quota {
    /// Nothing has happened.
    pub const NEW: Quota = Quota {
        second: 0,
        lines: 0,
        held: 0,
    };

    // Something happens in this second: for how many events a line stands that is written of it, if one is.
    pub(crate) fn comes(&mut self, second: u64) -> Option<u64>
        ensures quota { self.new ≡ behind self.old second }
        ensures line { result ≡ line_for self.old second }
    {
        let lines = if second == self.second { self.lines } else { 0 };
        let events = self.held.saturating_add(1);
        if lines >= LINES_A_SECOND {
            self.held = events;
            return None;
        }
        *self = Quota {
            second,
            lines: lines + 1,
            held: 0,
        };
        Some(events)
    }

    // This second has come: how many events of an earlier one have had no line, and have one now.
    pub(crate) fn catch_up(&mut self, second: u64) -> Option<u64>
        ensures quota { self.new ≡ caught_up self.old second }
        ensures line { result ≡ line_of_held self.old second }
    {
        if self.held == 0 || second == self.second {
            return None;
        }
        let events = self.held;
        *self = Quota {
            second,
            lines: 1,
            held: 0,
        };
        Some(events)
    }
}
