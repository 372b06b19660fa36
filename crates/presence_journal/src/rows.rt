//! Places, rows and items as lists.
use crate::shared::{SharedDiff, SharedShout};
use crate::shared_rows::SharedRows;
use presence_base::{Dot, Key, Row};
use std::marker::Model;

/// Where a row stands among the rows of a topic: by key, then by dot.
#[derive(PartialEq, Eq, PartialOrd, Ord, Debug, Drop)]
pub struct Place {
    pub key: Key,
    pub dot: Dot,
}

/// Rows with their dots.
#[derive(Debug)]
pub struct Rows {
    items: Vec<(Dot, Row)>,
}

impl Drop for Rows {
    fn drop(self) {
        let Rows { items } = self;
        drop(items);
    }
}

impl Model for Rows {
    ghost use Rattle.std.specs.Prelude.{List};
    ghost use Rattle.std.specs.Coded.{coded_list, coded×};
    ghost use Rattle.presence_base.specs.declared.dots.Dot.{Dot};
    ghost use Rattle.presence_base.specs.declared.row.Row.{Row};
    ghost use Rattle.presence_base.specs.Codes.{dot_code, row_code};

    ghost Value = { List (Dot × Row) };

    ghost coded = { coded_list (coded× dot_code row_code) };

    ghost view = { λ r. r.items.items };
}

impl Rows {
    ghost use Rattle.std.specs.Prelude.{◌≡◌};

    pub fn new(items: Vec<(Dot, Row)>) -> Rows
        ensures { result ≡ items.items }
    {
        Rows { items }
    }

    pub fn as_slice(&self) -> &[(Dot, Row)]
        ensures { result.now ≡ self.now }
    {
        self.items.as_slice()
    }
}

/// How the present rows of a topic changed, each list in order of key and then dot.
#[derive(Debug, Drop)]
pub struct RowDiff {
    pub joins: Rows,
    pub leaves: Rows,
}

/// What waits for a subscriber.
#[derive(Debug, Drop)]
pub enum Item {
    State(SharedRows),
    Diff(SharedDiff),
    Shout(SharedShout),
}
