// How many bytes an entry keeps beside itself: texts, rows that are told, and dots.
ghost use Rattle.std.specs.Prelude.{◌≡◌, ◌-◌, ◌^◌, min};
ghost use Rattle.presence_journal.specs.EntryBytes.{rows_bytes, told_bytes, step_bytes, outcome_bytes, entry_bytes};

use crate::entry::Outcome;
use crate::step::Step;
use orswot_core::Told;
use presence_base::{Dot, Row};

/// What a row that is told takes beside the text of its meta, its topic and key in common lengths.
const ROW_BYTES: u64 = 256;

/// What a range that is told takes.
const RANGE_BYTES: u64 = 64;

/// What a dot takes.
const DOT_BYTES: u64 = 56;

/// What a new dot takes with the one in whose place it came.
const PAIR_BYTES: u64 = 112;

// The bytes of rows, or the most that a count of 64 bits tells.
fn count_of_rows(rows: &[(Dot, Row)]) -> u64
    ensures { result ≡ min (rows_bytes rows.now) (2 ^ 64 - 1) }
{
    let mut bytes: u64 = 0;
    for row in rows {
        let row_bytes = ROW_BYTES.saturating_add(row.1.meta.text().len() as u64);
        bytes = bytes.saturating_add(row_bytes);
    }
    bytes
}

// The bytes of what another node told.
fn count_of_told(told: &Told) -> u64
    ensures { result ≡ min (told_bytes told.now) (2 ^ 64 - 1) }
{
    let ranges = RANGE_BYTES.saturating_mul(told.ranges().len() as u64);
    let extras = DOT_BYTES.saturating_mul(told.extras().len() as u64);
    count_of_rows(told.live())
        .saturating_add(ranges)
        .saturating_add(extras)
}

// The bytes of a step.
fn count_of_step(step: &Step) -> u64
    ensures { result ≡ min (step_bytes step.now) (2 ^ 64 - 1) }
{
    match step {
        Step::Track { meta, .. } | Step::Update { meta, .. } => meta.text().len() as u64,
        Step::Shout { payload, .. } => payload.text().len() as u64,
        Step::Merge { told } => count_of_told(told.get()),
        _ => 0,
    }
}

// The bytes of an outcome.
fn count_of_outcome(outcome: &Outcome) -> u64
    ensures { result ≡ min (outcome_bytes outcome.now) (2 ^ 64 - 1) }
{
    match outcome {
        Outcome::Removed(dots) => DOT_BYTES.saturating_mul(dots.as_slice().len() as u64),
        Outcome::Reborn(pairs) => PAIR_BYTES.saturating_mul(pairs.as_slice().len() as u64),
        _ => 0,
    }
}

/// The bytes that an entry of a step with its outcome keeps beside itself, or the most that a count of 64 bits tells. It costs
/// a look at each row of a merge, and nothing for any other step.
pub fn count_kept_bytes(step: &Step, outcome: &Outcome) -> u64
    ensures { result ≡ min (entry_bytes step.now outcome.now) (2 ^ 64 - 1) }
{
    count_of_step(step).saturating_add(count_of_outcome(outcome))
}
