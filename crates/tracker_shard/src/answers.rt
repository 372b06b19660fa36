// The parts of a call: what it reads, what it comes to, and its entry.
ghost use Rattle.std.specs.Prelude.{◌≡◌, true, false, Some, None, IfOk, IfErr, OnOk, OnErr};
ghost use Rattle.presence_journal.specs.History.{is_full};
ghost use Rattle.presence_journal.specs.StepLimits.{is_within_limits};
ghost use Rattle.presence_journal.specs.Present.{dots_of};
ghost use Rattle.presence_journal.specs.Table.{outcome_of, rows_of_key, untracked};
ghost use Rattle.tracker_shard.specs.Steps.{Made, first_dot};

use crate::fault::ShardFault;
use delta_range::Delta;
use presence_base::{Dot, Key, Row, Topic};
use presence_journal::{Dots, Outcome, SharedDot, Step, dots_of_rows};
use std::alloc::{AllocError, Global};
use tracker_index::Indexed;

// The dot of the first row, where there is one.
fn first_dot_of(rows: &[(Dot, Row)]) -> Option<Dot>
    ensures { result ≡ first_dot rows.now }
{
    match rows.first() {
        Some(row) => Some(row.0),
        None => None,
    }
}

// What a track comes to that adds a row under the dot.
pub(crate) fn added(alloc: Global, dot: &Dot) -> Result<Outcome, AllocError>
    ensures { IfOk result (λ o. o ≡ Outcome.Added dot.now) }
{
    let dot = SharedDot::new(alloc, *dot)?;
    Ok(Outcome::Added(dot))
}

// What an update comes to that puts a row under the dot in the place of the old one.
pub(crate) fn replaced(alloc: Global, dot: &Dot, old: &Dot) -> Result<Outcome, AllocError>
    ensures { IfOk result (λ o. o ≡ Outcome.Replaced dot.now old.now) }
{
    let dot = SharedDot::new(alloc, *dot)?;
    let old = SharedDot::new(alloc, *old)?;
    Ok(Outcome::Replaced(dot, old))
}

// What a cut comes to.
pub(crate) fn cut_outcome(delta: &Delta) -> Outcome
    ensures { result ≡ Outcome.CutAt delta.now.from delta.now.to }
{
    Outcome::CutAt(delta.from(), delta.to())
}

// The dot under which the pid has the key, where it does.
pub(crate) fn own_dot(
    table: &Indexed,
    alloc: Global,
    pid: u64,
    topic: &Topic,
    key: &Key,
) -> Result<Option<Dot>, AllocError>
    requires { table.now.is_ready ≡ true }
    ensures { IfOk result (λ o. o ≡ first_dot (rows_of_key table.now.history pid topic.now key.now)) }
{
    let mine = table.rows_of_key(alloc, pid, topic, key)?;
    Ok(first_dot_of(&mine))
}

// What taking these rows out comes to, `None` where a count is needed and none is left.
pub(crate) fn removal(
    table: &Indexed,
    alloc: Global,
    rows: &[(Dot, Row)],
) -> Result<Option<Outcome>, AllocError>
    requires { table.now.is_ready ≡ true }
    ensures { IfOk result (λ o. o ≡ untracked table.now.history (dots_of rows.now)) }
{
    let dots = dots_of_rows(alloc, rows)?;
    if !dots.is_empty() && table.next_dot().is_none() {
        return Ok(None);
    }
    Ok(Some(Outcome::Removed(Dots::new(alloc, dots)?)))
}

// Writes the entry of a step that the table accepts.
pub(crate) fn write(
    table: &mut Indexed,
    alloc: Global,
    seat: Option<u32>,
    step: Step,
    outcome: Outcome,
) -> Result<(), ShardFault>
    requires ready { table.old.is_ready ≡ true }
    requires table { outcome_of table.old.history step ≡ Some outcome }
    requires room { is_full table.old.history ≡ false }
    requires limits { is_within_limits step ≡ true }
    ensures made { OnOk result (Made table.old.history table.new.history seat step) }
    ensures err { OnErr result (table.new.history ≡ table.old.history) }
    ensures memory { IfErr result (λ e. e ≡ ShardFault.OutOfMemory) }
{
    table.append(alloc, seat, step, outcome)?;
    Ok(())
}
