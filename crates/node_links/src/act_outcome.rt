//! What the actions of a line come to.
use link_lines::Line;

/// What the actions of a line come to: the line that is answered, where one is; whether this node's own
/// incarnation is gone at the other end; and the shard of which the other end wanted what no line takes.
#[derive(Drop)]
pub struct Act {
    pub answer: Option<Line>,
    pub given_up: bool,
    pub untold: Option<u32>,
}
