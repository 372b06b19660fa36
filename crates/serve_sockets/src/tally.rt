//! How many there are of something that comes and goes.
use std::alloc::{AllocError, Global};
use std::sync::Arc;
use std::sync::atomic::{AtomicU64, Ordering};

/// How many tickets there are. What several threads hold is counted too, so no contract says how many.
#[derive(Drop)]
pub struct TicketCount {
    count: Arc<AtomicU64>,
}

/// One that a tally counts, until it is dropped.
pub struct Ticket {
    count: Arc<AtomicU64>,
}

impl Drop for Ticket {
    fn drop(self) {
        let Ticket { count } = self;
        let _before = count.fetch_sub(1, Ordering::SeqCst);
        drop(count);
    }
}

impl TicketCount {
    /// There is none.
    pub fn new(alloc: Global) -> Result<TicketCount, AllocError> {
        Ok(TicketCount {
            count: Arc::new(alloc, AtomicU64::new(0))?,
        })
    }

    /// How many there are.
    pub fn count(&self) -> u64 {
        self.count.load(Ordering::SeqCst)
    }

    /// One more.
    pub fn ticket(&self) -> Result<Ticket, AllocError> {
        let count = Arc::try_clone(&self.count)?;
        let _before = count.fetch_add(1, Ordering::SeqCst);
        Ok(Ticket { count })
    }
}
