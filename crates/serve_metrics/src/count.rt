//! One count, which threads share.
use std::sync::atomic::{AtomicU64, Ordering};

/// One count. No contract speaks of it, since threads share it.
#[derive(Drop)]
pub(crate) struct Count {
    value: AtomicU64,
}

impl Count {
    pub fn new() -> Count {
        Count {
            value: AtomicU64::new(0),
        }
    }

    pub fn add_one(&self) {
        self.add(1);
    }

    pub fn add(&self, more: u64) {
        if more > 0 {
            let _before = self.value.fetch_add(more, Ordering::SeqCst);
        }
    }

    pub fn set(&self, value: u64) {
        self.value.store(value, Ordering::SeqCst);
    }

    pub fn get(&self) -> u64 {
        self.value.load(Ordering::SeqCst)
    }
}
