//! What the queue holds.
ghost use Rattle.std.specs.Prelude.{◌≤◌};
ghost use Rattle.node_threads.specs.declared.numbered.TheConstants.{LAST_NUMBER};

/// The last number that a connection may have, as the highest pid.
pub const LAST_NUMBER: u64 = 4_611_686_018_427_387_904;

/// A connection under its number, which a session may have as its pid.
#[derive(Drop)]
pub struct Numbered<S> {
    pub number: u64,
    pub stream: S,
    ghost within: { number ≤ LAST_NUMBER },
}
