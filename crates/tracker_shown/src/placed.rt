//! Some rows by topic, key and dot.
ghost use Rattle.std.specs.Prelude.{OnOk};
ghost use Rattle.tracker_shown.specs.Placing.{PlacesAll};

use crate::kept::put_for;
use crate::listing::list_topic;
use crate::stand::{Holder, Stand};
use presence_base::{Dot, Row, Topic};
use std::alloc::{AllocError, Global};
use std::collections::BTreeMap;

/// Some rows, found by topic, key and dot.
pub struct Placed {
    rows: BTreeMap<Stand, Row>,
}

impl Drop for Placed {
    fn drop(self) {
        let Placed { rows } = self;
        drop(rows);
    }
}

// Puts rows in, one after another.
fn place_all(rows: &mut BTreeMap<Stand, Row>, placed: &[(Dot, Row)]) -> Result<(), AllocError>
    ensures { OnOk result (PlacesAll placed.now rows.old rows.new) }
{
    for row in placed {
        put_for(rows, Holder::Room, &row.0, &row.1)?;
    }
    Ok(())
}

impl Placed {
    ghost use Rattle.std.specs.Prelude.{IfOk};
    ghost use Rattle.tracker_shown.specs.Placing.{IsOfRows, ListsPlaced};

    /// These rows. It costs the logarithm of them for each.
    pub fn of_rows(alloc: Global, rows: &[(Dot, Row)]) -> Result<Placed, AllocError>
        ensures { IfOk result (IsOfRows rows.now) }
    {
        let mut placed = BTreeMap::new(alloc);
        place_all(&mut placed, rows)?;
        Ok(Placed { rows: placed })
    }

    /// The rows of a topic, in order of key and dot. No others are looked at.
    pub fn listed(&self, alloc: Global, topic: &Topic) -> Result<Vec<(Dot, Row)>, AllocError>
        ensures { IfOk result (λ v. ListsPlaced self.now topic.now v.items) }
    {
        list_topic(alloc, &self.rows, Holder::Room, topic)
    }
}
