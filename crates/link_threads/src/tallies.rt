//! How often the links came and went, and what went over them.
use std::sync::atomic::{AtomicU64, Ordering};

/// How often the links of a node came and went since it started, and what went over them.
#[derive(Clone, Copy)]
pub struct LinkTallies {
    /// How many links are up now: those that were dialled and those that came in, each behind its hello.
    pub up: u64,
    /// How many links came up.
    pub came_up: u64,
    /// How many of these went down.
    pub went_down: u64,
    /// How many beats went out over links that were dialled, one for each shard, period and node.
    pub beats: u64,
    /// How often another node asked to be told what it lacks, at either end. Each such exchange counts once, whether the
    /// answer went out or not.
    pub wants: u64,
    /// How many links were refused for the address that they came from.
    pub refused: u64,
    /// How many nodes are dialled.
    pub peers: u64,
    /// How many of the links to them are up now.
    pub peers_up: u64,
    /// How often the node went on under a higher incarnation.
    pub rebirths: u64,
}

/// What is counted of the links.
pub(crate) struct Tallies {
    came_up: AtomicU64,
    went_down: AtomicU64,
    beats: AtomicU64,
    wants: AtomicU64,
    refused: AtomicU64,
    peers_came: AtomicU64,
    peers_went: AtomicU64,
    rebirths: AtomicU64,
}

impl Drop for Tallies {
    fn drop(self) {
        let Tallies {
            came_up,
            went_down,
            beats,
            wants,
            refused,
            peers_came,
            peers_went,
            rebirths,
        } = self;
        drop(came_up);
        drop(went_down);
        drop(beats);
        drop(wants);
        drop(refused);
        drop(peers_came);
        drop(peers_went);
        drop(rebirths);
    }
}

fn count(tally: &AtomicU64) {
    let _before = tally.fetch_add(1, Ordering::SeqCst);
}

impl Tallies {
    pub(crate) fn new() -> Tallies {
        Tallies {
            came_up: AtomicU64::new(0),
            went_down: AtomicU64::new(0),
            beats: AtomicU64::new(0),
            wants: AtomicU64::new(0),
            refused: AtomicU64::new(0),
            peers_came: AtomicU64::new(0),
            peers_went: AtomicU64::new(0),
            rebirths: AtomicU64::new(0),
        }
    }

    pub(crate) fn count_up(&self) {
        count(&self.came_up);
    }

    pub(crate) fn count_down(&self) {
        count(&self.went_down);
    }

    /// A link to a node that is dialled came up.
    pub(crate) fn count_peer_up(&self) {
        count(&self.peers_came);
        self.count_up();
    }

    /// A link to a node that is dialled went down.
    pub(crate) fn count_peer_down(&self) {
        count(&self.peers_went);
        self.count_down();
    }

    pub(crate) fn count_rebirth(&self) {
        count(&self.rebirths);
    }

    pub(crate) fn count_beat(&self) {
        count(&self.beats);
    }

    pub(crate) fn count_want(&self) {
        count(&self.wants);
    }

    pub(crate) fn count_refused(&self) {
        count(&self.refused);
    }

    /// What was counted so far, where so many nodes are dialled. What went down is read first, so that no link is missed among
    /// those that are up.
    pub(crate) fn read(&self, peers: u64) -> LinkTallies {
        let peers_went = self.peers_went.load(Ordering::SeqCst);
        let went_down = self.went_down.load(Ordering::SeqCst);
        let came_up = self.came_up.load(Ordering::SeqCst);
        LinkTallies {
            up: came_up.saturating_sub(went_down),
            came_up,
            went_down,
            beats: self.beats.load(Ordering::SeqCst),
            wants: self.wants.load(Ordering::SeqCst),
            refused: self.refused.load(Ordering::SeqCst),
            peers,
            peers_up: self
                .peers_came
                .load(Ordering::SeqCst)
                .saturating_sub(peers_went),
            rebirths: self.rebirths.load(Ordering::SeqCst),
        }
    }
}
