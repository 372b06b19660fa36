// Under which dots the own rows go on, and whether they may.
ghost use Rattle.std.specs.Prelude.{◌≡◌, ◌≤◌, ◌^◌, ◌&&◌, nat_lt, nat_le, not, length, IfOk};
ghost use Rattle.std.specs.Map.{keys_of};
ghost use Rattle.replica_status.specs.Table.{is_unheard};
ghost use Rattle.presence_journal.specs.History.{Begin, onto, reborn};
ghost use Rattle.presence_journal.specs.Table.{IsLegal, reborn_from, pairs_for, can_be_reborn};

use crate::leaving::{covered_set, walk_set};
use crate::statuses::walk_status;
use presence_base::{Dot, MAX_COUNT, Replica, Row};
use presence_journal::{Entry, Journal, Pairs, Start, own_of};
use replica_status::Status;
use std::alloc::{AllocError, Global};
use std::collections::btree_map::Range;

/// The dots of these rows, each with a new one of the replica, counted from 1.
pub fn number_dots(
    alloc: Global,
    replica: &Replica,
    rows: Range<'_, Dot, Row>,
) -> Result<Pairs, AllocError>
    requires { length rows ≤ 2 ^ 62 }
    ensures { IfOk result (λ ps. ps ≡ reborn_from replica.now 0 (keys_of rows.entry)) }
{
    let mut pairs = Vec::new(alloc);
    let mut count = 0;
    for (dot, _row) in rows {
        count += 1;
        let new = Dot {
            replica: *replica,
            count,
        };
        pairs.push((new, *dot))?;
    }
    Pairs::new(alloc, pairs)
}

/// Whether a replica can go on under an incarnation, by its own one, the status of the new replica, and whether dots of that
/// are covered.
pub fn can_go_on(own: u64, incarnation: u64, status: Status, has_dots: bool) -> bool
    ensures { result ≡ (nat_lt own incarnation && (nat_le incarnation (2 ^ 62) && (is_unheard status && not has_dots))) }
{
    own < incarnation && incarnation <= MAX_COUNT && status.is_unheard() && !has_dots
}

// The replica under another incarnation.
fn life(own: &Replica, incarnation: u64) -> Replica
    ensures { result ≡ reborn own.now incarnation }
{
    Replica {
        name: own.name,
        incarnation,
    }
}

// The new dots of a rebirth behind these entries, each with its old one.
fn pairs_after(
    alloc: Global,
    start: &Start,
    entries: &[Entry],
    incarnation: u64,
) -> Result<Pairs, AllocError>
    requires { IsLegal (onto (Begin start.now) entries.now) }
    ensures { IfOk result (λ ps. ps ≡ pairs_for (onto (Begin start.now) entries.now) incarnation) }
{
    let own = own_of(start, entries);
    let new = life(&own, incarnation);
    let set = covered_set(alloc, start, entries)?;
    number_dots(alloc, &new, set.rows_of(&own))
}

/// The new dots of a rebirth under this incarnation, each with its old one.
pub fn walk_pairs(alloc: Global, journal: &Journal, incarnation: u64) -> Result<Pairs, AllocError>
    ensures { IfOk result (λ ps. ps ≡ pairs_for journal.now incarnation) }
{
    pairs_after(alloc, journal.start(), journal.entries(), incarnation)
}

/// Whether the own replica can go on under this incarnation.
pub fn walk_can_be_reborn(
    alloc: Global,
    journal: &Journal,
    incarnation: u64,
) -> Result<bool, AllocError>
    ensures { IfOk result (λ b. b ≡ can_be_reborn journal.now incarnation) }
{
    let own = journal.own();
    let new = life(&own, incarnation);
    let set = walk_set(alloc, journal)?;
    let status = walk_status(journal, &new);
    let has_dots = set.has_dots(&new);
    Ok(can_go_on(own.incarnation, incarnation, status, has_dots))
}
