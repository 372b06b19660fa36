//! A Start that goes on behind a count.
ghost use Rattle.std.specs.Prelude.{◌≡◌, ◌≤◌, ◌^◌, IfOk};
ghost use Rattle.presence_base.specs.Refs.{IsCount};
ghost use Rattle.presence_journal.specs.Table.{IsStart};
ghost use Rattle.tracker_index.specs.Resuming.{told_up_to, start_behind};

use delta_range::Generations;
use orswot_core::Told;
use presence_base::Replica;
use presence_journal::Start;
use presence_journal_lists::{Chains, Numbers, Runs, Standings, Subscribers};
use std::alloc::{AllocError, Global};

// What covers the dots of a replica up to a count, without a row.
fn told_behind(alloc: Global, own: Replica, count: u64) -> Result<Told, AllocError>
    requires incarnation { IsCount own.incarnation }
    requires count { count ≤ 2 ^ 62 }
    ensures { IfOk result (λ t. t ≡ told_up_to own count) }
{
    let mut ranges = Vec::new(alloc);
    ranges.push((own, 0, count))?;
    Ok(Told::new(ranges, Vec::new(alloc), Vec::new(alloc)))
}

/// The Start of a replica that has used the counts up to this one, of which no row is left.
pub(crate) fn start_of_count(alloc: Global, own: Replica, count: u64) -> Result<Start, AllocError>
    requires incarnation { IsCount own.incarnation }
    requires count { count ≤ 2 ^ 62 }
    ensures start { IfOk result (λ s. s ≡ start_behind own count) }
    ensures stands { IfOk result (λ s. IsStart s) }
{
    let _name = own.name.as_str();
    let content = told_behind(alloc, own, count)?;
    Ok(Start {
        number: 0,
        own,
        count,
        content,
        standings: Standings::new(alloc),
        time: 0,
        last_cut: count,
        older: Runs::new(Vec::new(alloc)),
        chains: Chains::new(Vec::new(alloc)),
        kept: Generations::new(),
        subscribers: Subscribers::new(Vec::new(alloc)),
        current: Numbers::new(Vec::new(alloc)),
        seated: 0,
    })
}
