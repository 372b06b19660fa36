//! How often a node goes on under a higher incarnation: three times within half a minute at most.
ghost use Rattle.std.specs.Prelude.{◌≡◌};
ghost use Rattle.link_rules.specs.Rebirths.{and_one, are_many, no_rebirths};

/// Three rebirths within this time, in milliseconds, are as many as may be.
pub const REBIRTH_MILLISECONDS: u64 = 30_000;

/// When a node went on under a higher incarnation the last three times, in milliseconds of its clock.
#[derive(Clone, Copy, PartialEq, Eq, Debug)]
pub struct Rebirths {
    pub last: Option<u64>,
    pub second: Option<u64>,
    pub third: Option<u64>,
}

impl Rebirths {
    ghost use Rattle.std.specs.Prelude.{◌≡◌};

    /// It never did.
    pub fn none() -> Rebirths
        ensures { result ≡ no_rebirths }
    {
        Rebirths {
            last: None,
            second: None,
            third: None,
        }
    }

    /// And at this time once more.
    pub fn and(self, now: u64) -> Rebirths
        ensures { result ≡ and_one self now }
    {
        Rebirths {
            last: Some(now),
            second: self.last,
            third: self.second,
        }
    }

    /// Whether a further one waits at this time.
    pub fn are_many(&self, now: u64) -> bool
        ensures { result ≡ are_many self.now now }
    {
        match self.third {
            Some(third) => now.saturating_sub(third) < REBIRTH_MILLISECONDS,
            None => false,
        }
    }
}
