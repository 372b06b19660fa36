//! Where a run writes.

/// Where what is said goes: the texts to the client, and the notices, a line each.
#[derive(Drop)]
pub struct Outlets<W, N> {
    pub texts: W,
    pub notes: N,
}
