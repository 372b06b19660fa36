//! This node, as the threads of its links have it.
use crate::links::{Links, Place, Wakes};
use link_pool_port::PoolLinkPort;
use link_rules::LinkWarning;
use presence_base::Replica;
use shard_pool::{Gate, Lanes, Pool};
use std::sync::Wait;
use std::time::Clock;

/// What each thread of links is lent.
#[derive_where(Clone, Copy)]
pub(crate) struct Node<'a, R, G: Gate, L: Lanes, W> {
    pub(crate) rt: &'a R,
    pub(crate) links: &'a Links,
    pub(crate) pool: &'a Pool<G, L>,
    pub(crate) wakes: &'a W,
}

impl<R, G: Gate, L: Lanes, W> Node<'_, R, G, L, W> {
    /// What came of a link's exchange beside its answer: clients are looked at, it is counted, and what is odd about the link is
    /// told. The replica is the node as it said hello.
    pub(crate) fn notes(self, port: &PoolLinkPort<'_, R, G, L>, place: Place<'_>, own: &Replica)
    where
        R: Wait + Clock + Eprint,
        W: Wakes,
    {
        if port.has_changed() {
            self.wakes.look();
        }
        if port.has_told() {
            self.links.tallies.count_want();
        }
        if port.has_own_counts() {
            self.links.tell_odd(self.rt, place, LinkWarning::OwnCounts);
        }
        self.links.hears_of(self.rt, own, port.own_life());
    }
}
