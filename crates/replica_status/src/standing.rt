//! Standings and the limits of silence.
ghost use Rattle.std.specs.Prelude.{◌≡◌};
ghost use Rattle.replica_status.specs.Table.{is_over, status_of, heard_at, ticked_at};

use crate::status::Status;

/// The longest silence of a replica that is up, in milliseconds.
pub const DOWN_AFTER_MS: u64 = 30_000;

/// The longest silence of a replica that isn't gone, in milliseconds.
pub const GONE_AFTER_MS: u64 = 1_200_000;

/// The status of a replica, and when it was last heard where that still matters, in milliseconds.
#[derive(Clone, Copy, PartialEq, Eq, Debug)]
pub enum Standing {
    Unheard,
    Up(u64),
    Down(u64),
    Gone,
}

impl Standing {
    pub fn status(self) -> Status
        ensures { result ≡ status_of self }
    {
        match self {
            Standing::Unheard => Status::Unheard,
            Standing::Up(_) => Status::Up,
            Standing::Down(_) => Status::Down,
            Standing::Gone => Status::Gone,
        }
    }

    /// What hearing the replica makes of it.
    pub fn heard_at(self, time: u64) -> Standing
        ensures { result ≡ heard_at time self }
    {
        match self {
            Standing::Gone => Standing::Gone,
            _ => Standing::Up(time),
        }
    }

    /// What a tick makes of it.
    pub fn ticked_at(self, time: u64) -> Standing
        ensures { result ≡ ticked_at time self }
    {
        match self {
            Standing::Up(heard) | Standing::Down(heard) if is_over(GONE_AFTER_MS, heard, time) =>
                Standing::Gone,
            Standing::Up(heard) if is_over(DOWN_AFTER_MS, heard, time) => Standing::Down(heard),
            standing => standing,
        }
    }
}

// Whether the silence since then is longer than the limit.
fn is_over(limit: u64, heard: u64, time: u64) -> bool
    ensures { result ≡ is_over limit heard time }
{
    limit < time.saturating_sub(heard)
}
