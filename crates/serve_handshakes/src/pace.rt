//! How often clients of one address come.
ghost use Rattle.std.specs.Prelude.{◌≡◌, ◌≤◌, ◌<◌, ◌+◌, ◌-◌, ◌^◌, max, min, true, false};
ghost use Rattle.serve_handshakes.specs.declared.pace.TheConstants.{BURST_MICROSECONDS};

/// So many microseconds' handshakes may come at once.
pub const BURST_MICROSECONDS: u64 = 10_000_000;

/// One handshake in so many microseconds, and a burst of those of `BURST_MICROSECONDS`.
#[derive(Drop)]
pub struct Pace {
    /// How many microseconds lie between two.
    between: u64,
    /// When the next one would come, if all had kept to this.
    next: u64,
}

impl Pace {
    /// None has come.
    pub fn new(between: u64) -> Pace
        ensures between { result.between ≡ between }
        ensures next { result.next ≡ 0 }
    {
        Pace { between, next: 0 }
    }

    /// One comes at this time, in microseconds: whether it is slow enough. One that isn't does not count.
    pub fn comes(&mut self, now: u64) -> bool
        ensures between { self.new.between ≡ self.old.between }
        ensures too_soon { result ≡ false → now + BURST_MICROSECONDS < self.old.next }
        ensures uncounted { result ≡ false → self.new.next ≡ self.old.next }
        ensures slow_enough { result ≡ true → self.old.next ≤ now + BURST_MICROSECONDS }
        ensures counted { result ≡ true →
            self.new.next ≡ min (max self.old.next now + self.old.between) (2 ^ 64 - 1) }
    {
        if self.next.saturating_sub(now) > BURST_MICROSECONDS {
            return false;
        }
        self.next = self.next.max(now).saturating_add(self.between);
        true
    }

    /// Whether those that came are forgotten at this time.
    pub fn is_at_rest(&self, now: u64) -> bool
        ensures { result ≡ true → self.now.next ≤ now }
    {
        self.next <= now
    }
}
