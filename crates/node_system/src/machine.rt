//! How much memory there is for the process.
use crate::reading::text_at;
use crate::said::{group_in, total_in};
use std::alloc::{AllocError, Global};
use std::rt::Files;

// The path of the file with the most memory that the group of this path may have.
fn path_of(alloc: Global, group: &str) -> Result<String, AllocError> {
    format!(in alloc; "/sys/fs/cgroup{group}/memory.max")
}

// How many bytes the group of the process may have, if it is limited: cgroup v2, as systemd and containers set it.
fn group_bytes<R: Files>(rt: &R, alloc: Global) -> Option<u64> {
    let groups = text_at(rt, alloc, "/proc/self/cgroup")?;
    let path = path_of(alloc, group_in(groups.as_str())?).ok()?;
    let most = text_at(rt, alloc, path.as_str())?;
    match most.as_str().trim().parse::<u64>() {
        Ok(bytes) => Some(bytes),
        Err(_) => None,
    }
}

// How many bytes the machine has.
fn machine_bytes<R: Files>(rt: &R, alloc: Global) -> Option<u64> {
    total_in(text_at(rt, alloc, "/proc/meminfo")?.as_str())
}

/// How many bytes of memory there are for the process: those of the machine, or those that its group may have where that
/// is limited to fewer. It is none where the system says of neither.
pub fn memory_there<R: Files>(rt: &R, alloc: Global) -> Option<u64> {
    match (machine_bytes(rt, alloc), group_bytes(rt, alloc)) {
        (Some(machine), Some(group)) => Some(machine.min(group)),
        (Some(bytes), None) | (None, Some(bytes)) => Some(bytes),
        (None, None) => None,
    }
}
