//! What a server needs of the system.
use link_threads::LinkRuntime;
use std::rt::Files;
use std::thread::Threads;

/// What a server needs of the system: what its links do, threads, the line that stops it, and what the system says of its memory.
pub trait ServeRuntime: LinkRuntime
    + Threads
    + Input
    + Files<File: Send + Sync, Dir: Send + Sync>
    + Sync {}

impl<R> ServeRuntime for R
where
    R: LinkRuntime + Threads + Input + Files<File: Send + Sync, Dir: Send + Sync> + Sync,
{}
