//! Refusals as reasons.
ghost use Rattle.std.specs.Prelude.{◌≡◌, option_map, false};
ghost use Rattle.channel_rules.specs.Outcome.{Stops, GivesEnd};
ghost use Rattle.channel_rules.specs.Rules.{unsaid, full_reason as full_reason_of, subscribe_reason as subscribe_reason_of, track_reason as track_reason_of, update_reason as update_reason_of};

use crate::refusal::Refusal;
use crate::stop::{Stop, StopKind};
use tracker_shard::ShardFault;

/// The reason that stands for a refusal: for what the port refuses by itself, and for what is full if the call is the
/// text's first.
pub fn full_reason(first: bool, refusal: Refusal) -> Option<&'static str>
    ensures { option_map (λ r. r.now) result ≡ full_reason_of first refusal }
{
    match refusal {
        Refusal::OverRation => Some("full"),
        Refusal::NotGranted => Some("unauthorized"),
        Refusal::Table(ShardFault::ClockFull | ShardFault::JournalFull) => {
            if first { Some("full") } else { None }
        }
        Refusal::Table(
            ShardFault::AlreadyTracked
            | ShardFault::NoPresence
            | ShardFault::NoSub
            | ShardFault::BadIncarnation
            | ShardFault::OutOfMemory,
        ) => None,
    }
}

/// The reason that stands for a refusal of a subscription; behind the join's own track none does.
pub fn subscribe_reason(first: Option<bool>, refusal: Refusal) -> Option<&'static str>
    ensures { option_map (λ r. r.now) result ≡ subscribe_reason_of first refusal }
{
    match first {
        None => None,
        Some(first) => full_reason(first, refusal),
    }
}

/// The reason that stands for a refusal of a track.
pub fn track_reason(first: bool, refusal: Refusal) -> Option<&'static str>
    ensures { option_map (λ r. r.now) result ≡ track_reason_of first refusal }
{
    match refusal {
        Refusal::Table(ShardFault::AlreadyTracked) => Some("already tracked"),
        other => full_reason(first, other),
    }
}

/// The reason that stands for a refusal of an update.
pub fn update_reason(refusal: Refusal) -> Option<&'static str>
    ensures { option_map (λ r. r.now) result ≡ update_reason_of refusal }
{
    match refusal {
        Refusal::Table(ShardFault::NoPresence) => Some("no presence"),
        other => full_reason(true, other),
    }
}

// The kind of the fault of a refusal for which no reply stands.
fn kind_of_refusal(refusal: Refusal) -> StopKind
    ensures { Stops result (unsaid refusal) }
{
    match refusal {
        Refusal::Table(ShardFault::OutOfMemory) => StopKind::OutOfMemory,
        Refusal::OverRation
        | Refusal::NotGranted
        | Refusal::Table(
            ShardFault::AlreadyTracked
            | ShardFault::NoPresence
            | ShardFault::ClockFull
            | ShardFault::JournalFull
            | ShardFault::NoSub
            | ShardFault::BadIncarnation,
        ) => StopKind::ShardFull,
    }
}

/// The fault of a refusal for which no reply stands.
pub fn stop_of(refusal: Refusal, spoiled: bool) -> Stop
    ensures { GivesEnd (unsaid refusal) spoiled (Err result) }
{
    let kind = kind_of_refusal(refusal);
    Stop { kind, spoiled }
}
