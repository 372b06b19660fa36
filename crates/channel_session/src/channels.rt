//! The channels of a server.
use hook_registry::Routes;

/// The channels of a server: which topics can be joined, and what is added to what they tell.
#[derive_where(Clone, Copy)]
pub struct Channels<'a, H> {
    pub routes: &'a Routes,
    pub hooks: &'a H,
}
