// Rows brought up to an entry.
ghost use Rattle.std.specs.Prelude.{OnOk};
ghost use Rattle.tracker_shown.specs.ShownTurns.{PutsAll, TakesAll, KeepsBetween, Joins, Leaves};
ghost use Rattle.tracker_shown.specs.States.{LeavesOthers};

use crate::kept::{put_row, take_row};
use crate::stand::Stand;
use presence_base::{Dot, Replica, Row};
use std::alloc::AllocError;
use std::collections::BTreeMap;

// Takes rows out, one after another.
pub(crate) fn take_all(
    rows: &mut BTreeMap<Stand, Row>,
    own: &Replica,
    leaves: &[(Dot, Row)],
) -> Result<(), AllocError>
    ensures ok { OnOk result (TakesAll own.now leaves.now rows.old rows.new) }
    ensures between { KeepsBetween Leaves leaves.now rows.old rows.new }
    ensures others { LeavesOthers leaves.now rows.old rows.new }
{
    for leave in leaves {
        take_row(rows, own, &leave.0, &leave.1)?;
    }
    Ok(())
}

// Puts rows in, one after another.
pub(crate) fn put_all(
    rows: &mut BTreeMap<Stand, Row>,
    own: &Replica,
    joins: &[(Dot, Row)],
) -> Result<(), AllocError>
    ensures ok { OnOk result (PutsAll own.now joins.now rows.old rows.new) }
    ensures between { KeepsBetween (Joins own.now) joins.now rows.old rows.new }
    ensures others { LeavesOthers joins.now rows.old rows.new }
{
    for join in joins {
        put_row(rows, own, &join.0, &join.1)?;
    }
    Ok(())
}
