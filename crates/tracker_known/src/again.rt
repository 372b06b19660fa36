// The own rows as they go on under the dots of a rebirth.
ghost use Rattle.std.specs.Prelude.{◌≡◌, ◌++◌, IfOk, OnOk};
ghost use Rattle.std.specs.FinMap as rows_in;
ghost use Rattle.tracker_known.specs.Again.{row_under, rows_again};

use orswot_core::Orswot;
use presence_base::{Dot, Row};
use presence_journal_known::reborn_row;
use std::alloc::{AllocError, Global};

// Adds the row of an old dot under its new one at the end.
fn push_again(rows: &mut Vec<(Dot, Row)>, set: &Orswot, pair: &(Dot, Dot)) -> Result<(), AllocError>
    ensures { OnOk result (rows.new.items ≡ rows.old.items ++ row_under (rows_in.get set.now.live) pair.now) }
{
    let Some(row) = set.row(&pair.1) else {
        return Ok(());
    };
    let row = reborn_row(row, &pair.1)?;
    rows.push((pair.0, row))?;
    Ok(())
}

/// The rows of the old dots under the new ones, each with the old dot as the one before it.
pub fn rows_again(
    alloc: Global,
    set: &Orswot,
    pairs: &[(Dot, Dot)],
) -> Result<Vec<(Dot, Row)>, AllocError>
    ensures { IfOk result (λ v. v.items ≡ rows_again (rows_in.get set.now.live) pairs.now) }
{
    let mut rows = Vec::new(alloc);
    for pair in pairs {
        push_again(&mut rows, set, pair)?;
    }
    Ok(rows)
}
