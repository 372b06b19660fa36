//! What everybody at the server shares by its options: the budgets of topics, the memory, the log, and what clients may do.
ghost use Rattle.std.specs.Prelude.{◌≡◌, IfOk};
ghost use Rattle.presence_node_main.specs.ClientSettings.{IsSettingOf, events_in};

use client_settings::{EventNames, OwnEvents, Settings};
use node_log::{Log, LogFormat, Shown};
use node_system::memory_there;
use number_texts::Numbers;
use presence_options::{Budgets, ClientOptions, LineFormat, Logged, MIN_MEMORY, Reports};
use serve_rations::{Amount, MemoryMark, TopicBudgets};
use std::alloc::{AllocError, Global};
use std::rt::Files;
use std::time::Clock;

/// How many bytes a megabyte of the options has.
const MEGABYTE: u64 = 1_048_576;

/// The server may have this part of the memory that there is, where nothing else is asked for.
const SHARE: u64 = 2;

/// The budgets of topics.
pub(crate) fn budgets_of(alloc: Global, budgets: &Budgets) -> TopicBudgets {
    let each = Amount {
        rows: budgets.topic_rows,
        bytes: budgets.topic_bytes,
    };
    TopicBudgets::new(alloc, each)
}

/// The memory that the server may have: at least as much as it can be given. Where it isn't given, and the system says
/// nothing, it has no bound.
pub(crate) fn memory_of<R: Files>(rt: &R, alloc: Global, budgets: &Budgets) -> MemoryMark {
    let limit = match budgets.memory {
        Some(megabytes) => megabytes.saturating_mul(MEGABYTE),
        None => match memory_there(rt, alloc) {
            Some(bytes) => (bytes / SHARE).max(MIN_MEMORY * MEGABYTE),
            None => u64::MAX,
        },
    };
    MemoryMark::new(limit)
}

/// As what lines on standard error are written.
pub(crate) fn format_of(reports: &Reports) -> LogFormat {
    match reports.format {
        LineFormat::Plain => LogFormat::Text,
        LineFormat::Json => LogFormat::Json,
    }
}

/// The log of clients.
pub(crate) fn log_of(alloc: Global, reports: &Reports) -> Log {
    let shown = match reports.logged {
        Logged::Refusals => Shown::Refused,
        Logged::Everything => Shown::All,
        Logged::Nothing => Shown::None,
    };
    Log::new(alloc, shown, format_of(reports))
}

/// The time in seconds since 1970, or 0 where the clock can't be read.
pub(crate) fn now_in_seconds<R: Clock>(rt: &R) -> u64 {
    match rt.since_1970() {
        Ok(time) => time.as_secs(),
        Err(_) => 0,
    }
}

// The events of these names, if there is one.
fn events_of(alloc: Global, options: &ClientOptions) -> Result<Option<OwnEvents>, AllocError>
    ensures { IfOk result (λ events. events ≡ events_in options.now) }
{
    if options.events.is_empty() && options.answered.is_empty() && options.to_others.is_empty() {
        return Ok(None);
    }
    let names = EventNames {
        sent: options.events.clone()?,
        answered: options.answered.clone()?,
        to_others: options.to_others.clone()?,
    };
    Ok(Some(OwnEvents::new(alloc, names)?))
}

/// What clients may do beyond the usual.
pub(crate) fn settings_of(alloc: Global, options: &ClientOptions) -> Result<Settings, AllocError>
    ensures { IfOk result (IsSettingOf options.now) }
{
    let events = events_of(alloc, options)?;
    Ok(Settings {
        numbers: Numbers::allowed(options.fractions),
        match_joins: options.match_joins,
        events,
    })
}
