// The own rows of a rebirth, all of which are untold.
ghost use Rattle.std.specs.Prelude.{Some, IfOk, OnOk};
ghost use Rattle.std.specs.BTreeMap.{get};
ghost use Rattle.std.specs.List.Sorted.{IsStrictlySortedBy};
ghost use Rattle.std.specs.Map.{lookup, keys_of};
ghost use Rattle.presence_base.specs.Order.{dot_cmp, same_dot};
ghost use Rattle.presence_journal.specs.Walk.{row_at};
ghost use Rattle.presence_journal_known.specs.ByDot.{Alike, over};

use crate::recent::put_row;
use presence_base::{Dot, Row};
use std::alloc::{AllocError, Global};
use std::collections::BTreeMap;
use std::collections::btree_map::Range;

// Puts a copy of a row under its dot.
fn put_copy(map: &mut BTreeMap<Dot, Row>, dot: &Dot, row: &Row) -> Result<(), AllocError>
    ensures { OnOk result (Alike (get dot_cmp map.new) (over (row_at (Some (dot.now, row.now))) (get dot_cmp map.old))) }
{
    let copy = row.clone()?;
    put_row(map, Some((*dot, copy)))
}

/// Copies of the rows, by dot.
pub(crate) fn copied(
    alloc: Global,
    rows: Range<'_, Dot, Row>,
) -> Result<BTreeMap<Dot, Row>, AllocError>
    requires { IsStrictlySortedBy dot_cmp (keys_of rows) }
    ensures { IfOk result (λ m. Alike (get dot_cmp m) (λ d. lookup (same_dot d) rows.entry)) }
{
    let mut map = BTreeMap::new(alloc);
    for (dot, row) in rows {
        put_copy(&mut map, dot, row)?;
    }
    Ok(map)
}
