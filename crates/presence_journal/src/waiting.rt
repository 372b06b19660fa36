//! How many items may wait.
/// How many items may wait for a subscriber. One more makes it behind.
pub const MAX_WAITING: usize = 256;
