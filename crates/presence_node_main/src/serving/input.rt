//! Standard input, looked at without waiting for it.
use super::orders::{Order, Typed};
use node_system::Watch;
use std::alloc::Global;
use std::io::Read;
use std::net::Net;
use std::os::fd::{AsRawFd, RawFd};

/// Its number among what is watched.
const INPUT: u64 = 0;

/// How many bytes one look reads at most.
const MAX_LOOK: usize = 64;

// Standard input, as the system knows it.
struct StandardInput;

impl AsRawFd for StandardInput {
    fn as_raw_fd(&self) -> RawFd {
        0
    }
}

// Whether a byte of it can be read without waiting. What can't be watched, as a file, has none.
fn is_ready(watch: &mut Watch) -> bool {
    let _unwatched = watch.remove(&StandardInput);
    if watch.add(&StandardInput, INPUT).is_err() || watch.wait(0).is_err() {
        return false;
    }
    watch.events().any(|event| event.is_readable())
}

/// Standard input that is looked at from time to time, and the line of which some bytes have come.
#[derive(Drop)]
pub(crate) struct Looked<I: Drop> {
    reader: I,
    watch: Option<Watch>,
    typed: Typed,
}

impl<I: Read + Drop> Looked<I> {
    /// What is read by this reader. Where the system gives nothing to watch it by, it is never read.
    pub fn new<R: Net>(net: &R, alloc: Global, reader: I) -> Looked<I> {
        Looked {
            reader,
            watch: Watch::new(net, alloc).ok(),
            typed: Typed::new(alloc),
        }
    }

    // The next byte, if one is there.
    fn next_byte(&mut self) -> Option<u8> {
        let Some(watch) = &mut self.watch else {
            return None;
        };
        if !is_ready(watch) {
            return None;
        }
        let mut byte = [0u8; 1];
        match self.reader.read(&mut byte) {
            Ok(1) => Some(byte[0]),
            _ => None,
        }
    }

    /// What a line asks for that has come, if one has.
    pub fn order(&mut self) -> Option<Order> {
        for _ in 0..MAX_LOOK {
            let byte = self.next_byte()?;
            let order = self.typed.take(byte);
            if order.is_some() {
                return order;
            }
        }
        None
    }
}
