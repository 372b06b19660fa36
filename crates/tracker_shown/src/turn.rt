//! The rows that join and leave with an entry.
use presence_base::{Dot, Row};

/// What an entry changes of the rows that are shown: those that are shown from then on, and those that no longer are.
#[derive(Drop)]
pub struct Turn {
    pub joins: Vec<(Dot, Row)>,
    pub leaves: Vec<(Dot, Row)>,
}
