// The rows of a life that goes on under a higher incarnation.
ghost use Rattle.std.specs.Prelude.{◌≡◌, IfOk, OnOk};
ghost use Rattle.std.specs.FinMap as rows_in;
ghost use Rattle.node_world.specs.GoingOn.{AreMade};
ghost use Rattle.node_world.specs.World.{under, rows_under, with_row};

use orswot_core::Orswot;
use presence_base::{Dot, Row};
use presence_journal::Journal;
use presence_journal_known::walk_set;
use std::alloc::{AllocError, Global};

// Adds the row of a dot at the end, where there is one.
fn push_row(rows: &mut Vec<(Dot, Row)>, set: &Orswot, dot: &Dot) -> Result<(), AllocError>
    ensures { OnOk result (rows.new.items ≡ with_row rows.old.items (under dot.now (rows_in.get set.now.live dot.now))) }
{
    let Some(row) = set.row(dot) else {
        return Ok(());
    };
    let row = row.clone()?;
    rows.push((*dot, row))?;
    Ok(())
}

// The rows under the new dots of these pairs.
fn rows_under(
    alloc: Global,
    set: &Orswot,
    pairs: &[(Dot, Dot)],
) -> Result<Vec<(Dot, Row)>, AllocError>
    ensures { IfOk result (λ v. v.items ≡ rows_under (rows_in.get set.now.live) pairs.now) }
{
    let mut rows = Vec::new(alloc);
    for pair in pairs {
        push_row(&mut rows, set, &pair.0)?;
    }
    Ok(rows)
}

/// The live rows of a journal under the new dots of these pairs.
pub(crate) fn made_rows(
    alloc: Global,
    journal: &Journal,
    pairs: &[(Dot, Dot)],
) -> Result<Vec<(Dot, Row)>, AllocError>
    ensures { IfOk result (λ v. AreMade journal.now pairs.now v.items) }
{
    let set = walk_set(alloc, journal)?;
    rows_under(alloc, &set, pairs)
}
