//! The own count.
ghost use Rattle.std.specs.Prelude.{◌≡◌, ◌≤◌, ◌^◌};
ghost use Rattle.presence_journal.specs.History.{Begin, onto, count, counts_used, count_after};
ghost use Rattle.presence_journal.specs.Table.{IsLegal};
ghost use Rattle.presence_journal.specs.Walk.{pairs_in};

use presence_base::Dot;
use presence_journal::{Entry, Journal, Outcome, Start};

/// How many counts an outcome uses.
pub fn used_by(outcome: &Outcome) -> u64
    ensures { result ≡ counts_used outcome.now }
{
    match outcome {
        Outcome::Added(_) => 1,
        Outcome::Replaced(_, _) => 1,
        Outcome::Removed(dots) => { if dots.as_slice().is_empty() { 0 } else { 1 } }
        _ => 0,
    }
}

/// The pairs of a new and an old dot that a rebirth makes; none of any other outcome.
pub fn reborn_pairs(outcome: &Outcome) -> &[(Dot, Dot)]
    ensures { result.now ≡ pairs_in outcome.now }
{
    match outcome {
        Outcome::Reborn(pairs) => pairs.as_slice(),
        _ => &[],
    }
}

/// How many counts the own replica has used with an outcome, where it had used so many before.
pub fn used_after(outcome: &Outcome, used: u64) -> u64
    requires { used ≤ 2 ^ 62 }
    ensures { result ≡ count_after outcome.now used }
{
    if let Outcome::Reborn(pairs) = outcome {
        return pairs.as_slice().len() as u64;
    }
    let more = used_by(outcome);
    used + more
}

// How many counts the own replica has used after these entries.
pub(crate) fn count_after(start: &Start, entries: &[Entry]) -> u64
    requires { IsLegal (onto (Begin start.now) entries.now) }
    ensures count { result ≡ count (onto (Begin start.now) entries.now) }
    ensures limit { result ≤ 2 ^ 62 }
{
    let mut used = start.count;
    for entry in entries {
        used = used_after(&entry.outcome, used);
    }
    used
}

/// How many counts the own replica has used.
pub fn walk_count(journal: &Journal) -> u64
    ensures count { result ≡ count journal.now }
    ensures limit { result ≤ 2 ^ 62 }
{
    count_after(journal.start(), journal.entries())
}
