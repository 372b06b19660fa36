//! Whether the process has nearly all of the memory that it may have, and whether calls fail for want of it.
ghost use Rattle.std.specs.Prelude.{◌≡◌};
ghost use Rattle.serve_rations.specs.Memory.{is_tight as is_tight_in, is_recent as is_recent_in};

use std::sync::atomic::{AtomicBool, AtomicU64, Ordering};

/// For so long behind a call that failed for want of memory calls are said to fail, in milliseconds.
pub const LACK_MILLISECONDS: u64 = 5_000;

/// Whether memory is tight, where it was or wasn't and so many bytes of so many are taken: from nine tenths on, until fewer
/// than eight are.
pub fn is_tight(was: bool, taken: u64, limit: u64) -> bool
    ensures { result ≡ is_tight_in was taken limit }
{
    let tenth = limit / 10;
    let nine = limit - tenth;
    taken >= nine || was && taken >= nine.saturating_sub(tenth)
}

/// Whether what came at a time, or never where that is 0, came within `LACK_MILLISECONDS`, in milliseconds of the same clock.
pub fn is_recent(came: u64, now: u64) -> bool
    ensures { result ≡ is_recent_in came now }
{
    came > 0 && now.saturating_sub(came) < LACK_MILLISECONDS
}

/// How much memory a process may have, whether it has nearly all of it, and when a call failed last for want of it. All of
/// its threads share it.
pub struct MemoryMark {
    limit: u64,
    tight: AtomicBool,
    lacked: AtomicU64,
}

impl Drop for MemoryMark {
    fn drop(self) {
        let MemoryMark {
            limit: _,
            tight,
            lacked,
        } = self;
        drop(tight);
        drop(lacked);
    }
}

impl MemoryMark {
    /// It may have so many bytes, and has few of them.
    pub fn new(limit: u64) -> MemoryMark
        ensures { result.limit ≡ limit }
    {
        MemoryMark {
            limit,
            tight: AtomicBool::new(false),
            lacked: AtomicU64::new(0),
        }
    }

    /// How many bytes it may have.
    pub fn limit(&self) -> u64
        ensures { result ≡ self.now.limit }
    {
        self.limit
    }

    /// Whether it has nearly all of them.
    pub fn is_tight(&self) -> bool {
        self.tight.load(Ordering::SeqCst)
    }

    /// It has so many now: whether memory is tight from now on, where that has changed.
    pub fn look(&self, taken: u64) -> Option<bool> {
        let was = self.is_tight();
        let tight = is_tight(was, taken, self.limit);
        self.tight.store(tight, Ordering::SeqCst);
        if tight == was { None } else { Some(tight) }
    }

    /// A call failed for want of memory, at this time in milliseconds.
    pub fn note_lack(&self, now: u64) {
        self.lacked.store(now.max(1), Ordering::SeqCst);
    }

    /// Whether calls fail for want of memory: one did within `LACK_MILLISECONDS`.
    pub fn is_lacking(&self, now: u64) -> bool {
        is_recent(self.lacked.load(Ordering::SeqCst), now)
    }
}
