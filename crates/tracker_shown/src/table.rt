//! The rows by where they are kept.
use crate::stand::Stand;
use presence_base::{Replica, Row};
use std::alloc::Global;
use std::collections::BTreeMap;

/// The rows that are shown, by topic, key and dot, and a shard's own ones by session too.
#[derive(Drop)]
pub(crate) struct Table {
    pub own: Replica,
    pub rows: BTreeMap<Stand, Row>,
}

impl Table {
    ghost use Rattle.std.specs.Prelude.{◌≡◌};
    ghost use Rattle.tracker_shown.specs.Kept.{IsNothing};

    /// Where nothing is shown yet.
    pub(crate) fn new(alloc: Global, own: Replica) -> Table
        ensures own { result.own ≡ own }
        ensures rows { IsNothing result.rows }
    {
        Table {
            own,
            rows: BTreeMap::new(alloc),
        }
    }
}
