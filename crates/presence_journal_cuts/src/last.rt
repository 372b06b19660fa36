//! Where the last one ended.
ghost use Rattle.std.specs.Prelude.{◌≡◌};
ghost use Rattle.presence_journal.specs.History.{cut_after, last_cut};
ghost use Rattle.presence_journal.specs.Present.{dots_taken};

use presence_base::Dot;
use presence_journal::{Journal, Outcome};

// The count up to which the last cut told, after an outcome.
pub(crate) fn last_after(outcome: &Outcome, last: u64) -> u64
    ensures { result ≡ cut_after outcome.now last }
{
    match outcome {
        Outcome::CutAt(_, to) => *to,
        Outcome::Reborn(_) => 0,
        _ => last,
    }
}

/// The dots whose rows an outcome takes out.
pub fn dots_out(outcome: &Outcome) -> &[Dot]
    ensures { result.now ≡ dots_taken outcome.now }
{
    match outcome {
        Outcome::Replaced(_, old) => std::slice::from_ref(old.get()),
        Outcome::Removed(dots) => dots.as_slice(),
        _ => &[],
    }
}

/// The count up to which the last cut told, 0 before the first.
pub fn walk_last_cut(journal: &Journal) -> u64
    ensures { result ≡ last_cut journal.now }
{
    let start = journal.start();
    let entries = journal.entries();
    let mut last = start.last_cut;
    for entry in entries {
        last = last_after(&entry.outcome, last);
    }
    last
}
