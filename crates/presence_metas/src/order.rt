//! Whether rows are in order of their keys.
ghost use Rattle.std.specs.Prelude.{◌≡◌, true};
ghost use Rattle.presence_metas.specs.KeyOrder.{AreInKeyOrder};

use presence_base::{Dot, Row};
use std::cmp::Ordering;

/// Whether no row's key is above the next one's.
pub fn are_in_key_order(rows: &[(Dot, Row)]) -> bool
    ensures { result ≡ true → AreInKeyOrder rows.now }
{
    let Some((_dot, first)) = rows.first() else {
        return true;
    };
    let mut last = &first.key;
    for (_dot, row) in rows {
        if last.cmp(&row.key) == Ordering::Greater {
            return false;
        }
        last = &row.key;
    }
    true
}
