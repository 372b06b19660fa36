//! When a shard is told that a node was heard.
ghost use Rattle.std.specs.Prelude.{◌≡◌};
ghost use Rattle.link_rules.specs.Hearing.{is_told_anew};

/// So long a shard isn't told anew that a node was heard, in milliseconds: more than three periods of the beats, and far less than
/// the silence that puts a node down.
pub const HEARD_MILLISECONDS: u64 = 5_000;

/// Whether a shard is told that a node is heard at this time, where it was told so last at that time, both in milliseconds.
pub fn is_heard_anew(last: u64, now: u64) -> bool
    ensures { result ≡ is_told_anew last now }
{
    now.saturating_sub(last) >= HEARD_MILLISECONDS
}
