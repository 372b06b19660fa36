//! What stands in the system's files.

/// What the line of the limit of files begins with.
const FILES: &str = "Max open files";

// The number that stands in a text behind so many words.
fn number_behind(text: &str, words: usize) -> Option<u64> {
    match text.split_whitespace().nth(words)?.parse::<u64>() {
        Ok(number) => Some(number),
        Err(_) => None,
    }
}

/// How many pages of memory a process has, by its `statm`: the second number (proc(5)).
pub fn pages_in(statm: &str) -> Option<u64> {
    number_behind(statm, 1)
}

// What the line of the group of a process begins with (cgroups(7), version 2).
const GROUP: &str = "0::";

// How many bytes a kilobyte of `meminfo` has.
const KILOBYTE: u64 = 1_024;

/// The path of the group of a process, by its `cgroup`; that of the root is empty.
pub fn group_in(groups: &str) -> Option<&str> {
    for line in groups.lines() {
        if let Some(path) = line.strip_prefix(GROUP) {
            return Some(if path == "/" { "" } else { path });
        }
    }
    None
}

/// How many bytes a machine has, by its `meminfo`.
pub fn total_in(meminfo: &str) -> Option<u64> {
    for line in meminfo.lines() {
        if let Some(numbers) = line.strip_prefix("MemTotal:") {
            return Some(number_behind(numbers, 0)?.saturating_mul(KILOBYTE));
        }
    }
    None
}

/// How many files a process may have open, by its `limits`: the soft limit, which comes first.
pub fn limit_in(limits: &str) -> Option<u64> {
    for line in limits.lines() {
        if let Some(numbers) = line.strip_prefix(FILES) {
            return number_behind(numbers, 0);
        }
    }
    None
}
