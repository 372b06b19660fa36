//! How the lock of a shard is had.
use crate::lane::Lane;
use crate::locked::Locked;
use std::hint::spin_loop;
use std::sync::{Mutex, MutexGuard, Wait};

/// How often a lock that another thread holds is looked at before the thread that wants it sleeps.
const LOOKS: u32 = 200;

/// How many of the processor's pauses lie between two looks.
const PAUSES: u32 = 16;

// Lets the processor pause between two looks.
fn pause() {
    for _ in 0..PAUSES {
        spin_loop();
    }
}

/// The lock of a shard. A call holds it for a few microseconds, less than it costs to sleep and to be woken: so it is looked
/// at for a while before the thread sleeps. A checkpoint, a merge and a long list hold it longer.
pub(crate) fn lock_of<'a, L: Lane, R: Wait>(
    rt: &R,
    shard: &'a Mutex<Locked<L>>,
) -> MutexGuard<'a, Locked<L>> {
    for _ in 0..LOOKS {
        if let Some(guard) = shard.try_lock() {
            return guard;
        }
        pause();
    }
    shard.lock(rt)
}
