// How many rows of others are shown. No contract speaks of it.

use crate::kept::is_own;
use crate::table::Table;
use crate::turn::Turn;
use presence_base::{Dot, Replica, Row};

// How many rows of others stand among the places of a table, of whose rows these own ones are.
pub(crate) fn others_among(table: &Table, rows: &[(Dot, Row)]) -> usize {
    let mut others = table.rows.len();
    for row in rows {
        if is_own(&table.own, &row.0) {
            others = others.saturating_sub(2);
        }
    }
    others
}

fn is_first_own(own: &Replica, rows: &[(Dot, Row)]) -> bool {
    match rows.first() {
        Some(row) => is_own(own, &row.0),
        None => false,
    }
}

// Whether the rows of an entry's turn are own ones: no entry brings or takes rows of both sides.
pub(crate) fn is_of_own(own: &Replica, turn: &Turn) -> bool {
    is_first_own(own, turn.leaves.as_slice()) || is_first_own(own, turn.joins.as_slice())
}

// How many rows of others there are, once so many places became so many others.
pub(crate) fn others_after(is_own: bool, others: usize, before: usize, after: usize) -> usize {
    if is_own {
        return others;
    }
    others.saturating_add(after).saturating_sub(before)
}
