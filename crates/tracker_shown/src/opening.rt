// The rows that a journal's Start shows.
ghost use Rattle.std.specs.Prelude.{◌≡◌, [], ◌∷◌, OnOk};
ghost use Rattle.presence_journal.specs.History.{Begin, is_up, status};
ghost use Rattle.tracker_shown.specs.Opening.{PutsUp};

use crate::kept::{is_own, put_row};
use crate::stand::Stand;
use presence_base::{Dot, Row};
use presence_journal::Start;
use replica_status::Status;
use std::alloc::AllocError;
use std::collections::BTreeMap;

// Whether the status is that of a replica that is up.
fn is_up_status(status: Status) -> bool
    ensures { result ≡ is_up status }
{
    match status {
        Status::Up => true,
        _ => false,
    }
}

// Whether the replica of a dot is up at a Start.
fn is_up_at(start: &Start, dot: &Dot) -> bool
    ensures { result ≡ is_up (status (Begin start.now) dot.now.replica) }
{
    if is_own(&start.own, dot) {
        return true;
    }
    let standing = start.standings.standing(&dot.replica);
    is_up_status(standing.status())
}

// Puts a row in, where its replica is up at a Start.
fn put_if_up(
    rows: &mut BTreeMap<Stand, Row>,
    start: &Start,
    row: &(Dot, Row),
) -> Result<(), AllocError>
    ensures { OnOk result (PutsUp start.now (row.now ∷ []) rows.old rows.new) }
{
    if !is_up_at(start, &row.0) {
        return Ok(());
    }
    put_row(rows, &start.own, &row.0, &row.1)
}

// Puts in the rows whose replicas are up at a Start, one after another.
pub(crate) fn put_up(
    rows: &mut BTreeMap<Stand, Row>,
    start: &Start,
    live: &[(Dot, Row)],
) -> Result<(), AllocError>
    ensures { OnOk result (PutsUp start.now live.now rows.old rows.new) }
{
    for row in live {
        put_if_up(rows, start, row)?;
    }
    Ok(())
}
