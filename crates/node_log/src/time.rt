//! Times in words.
ghost use Rattle.std.specs.Prelude.{◌≡◌, pos, IfOk, IfSome, string_bytes};
ghost use Rattle.std.specs.Duration.{as_nanos};
ghost use Rattle.jiff_core.specs.DateTime.{civil_nanos};
ghost use Rattle.node_log.specs.Lines.{clock_text, date_text, time_text};

use jiff_core::civil::DateTime;
use std::alloc::{AllocError, Global};
use std::time::Duration;

/// How many nanoseconds a millisecond has.
const MILLISECOND: u32 = 1_000_000;

// What a clock of UTC shows behind so long since 1970 began.
pub(crate) fn shown_behind(since: Duration) -> Option<DateTime>
    ensures { IfSome result (λ shown. civil_nanos shown ≡ pos (as_nanos since)) }
{
    match DateTime::from_nanosecond(since.as_nanos() as i128) {
        Ok(shown) => Some(shown),
        Err(_) => None,
    }
}

// A date as a text.
fn date_words(alloc: Global, shown: DateTime) -> Result<String, AllocError>
    ensures { IfOk result (λ s. string_bytes s ≡ date_text shown) }
{
    let year = shown.date.year.unsigned_abs();
    let month = shown.date.month;
    let day = shown.date.day;
    format!(in alloc; "{year:04}-{month:02}-{day:02}")
}

// A time of day, to the millisecond.
fn clock_words(alloc: Global, shown: DateTime) -> Result<String, AllocError>
    ensures { IfOk result (λ s. string_bytes s ≡ clock_text shown) }
{
    let hour = shown.time.hour;
    let minute = shown.time.minute;
    let second = shown.time.second;
    let millisecond = shown.time.subsec_nanosecond / MILLISECOND;
    format!(in alloc; "{hour:02}:{minute:02}:{second:02}.{millisecond:03}")
}

// Both as RFC 3339 has them, in UTC.
pub(crate) fn time_words(alloc: Global, shown: DateTime) -> Result<String, AllocError>
    ensures { IfOk result (λ s. string_bytes s ≡ time_text shown) }
{
    let date = date_words(alloc, shown)?;
    let clock = clock_words(alloc, shown)?;
    format!(in alloc; "{date}T{clock}Z")
}
