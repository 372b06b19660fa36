//! The cut.
ghost use Rattle.std.specs.Prelude.{IfOk};
ghost use Rattle.dot_context.specs.Runs.{AreLong};
ghost use Rattle.presence_journal_cuts.specs.Cuts.{IsCut};
ghost use Rattle.presence_journal_cuts.specs.Parting.{AreVacant};
ghost use Rattle.presence_journal_cuts.specs.ToldParts.{row_of_count};

use crate::last::walk_last_cut;
use crate::older::walk_older;
use crate::part::vacant_of;
use crate::recent::recent_rows;
use delta_range::{Delta, longest};
use presence_journal::Journal;
use presence_journal_known::{walk_count, walk_set};
use std::alloc::{AllocError, Global};

// The runs without the counts of the own live rows.
fn walk_vacant(
    alloc: Global,
    journal: &Journal,
    runs: &[(u64, u64)],
) -> Result<Vec<(u64, u64)>, AllocError>
    requires { AreLong runs.now }
    ensures { IfOk result (λ v. AreVacant (row_of_count journal.now) runs.now v.items) }
{
    let set = walk_set(alloc, journal)?;
    vacant_of(alloc, &set, &journal.own(), runs)
}

/// What a cut tells behind these entries: a delta of the own replica.
pub fn walk_cut(alloc: Global, journal: &Journal) -> Result<Delta, AllocError>
    ensures { IfOk result (λ d. IsCut journal.now d) }
{
    // A delta's counts lie within their limits, since the journal is legal.
    let _entries = journal.entries();
    let from = walk_last_cut(journal);
    let to = walk_count(journal);
    let runs = walk_older(alloc, journal)?;
    let gone = longest(alloc, runs)?;
    let older = walk_vacant(alloc, journal, &gone)?;
    let rows = recent_rows(alloc, journal)?;
    Ok(Delta::new(journal.own(), from, to, older, rows))
}
