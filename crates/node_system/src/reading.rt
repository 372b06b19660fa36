//! The system's files of this process.
ghost use Rattle.std.specs.Prelude.{◌≤◌, IfOk, IfSome};
ghost use Rattle.node_system.specs.declared.reading.TheConstants.{MAX_BYTES};

use crate::said::{limit_in, pages_in};
use std::alloc::Global;
use std::fs::File;
use std::io::Read;
use std::rt::Files;
use std::{io, str};

/// How many bytes are looked at of a file.
const MAX_BYTES: usize = 4_096;

/// How many bytes a page of memory has on x86-64.
const PAGE_BYTES: u64 = 4_096;

/// How many bytes of names one read of a folder asks for.
const NAMES_BYTES: usize = 1_024;

/// How many names a folder of open files has that stand for none that is counted: itself, the one above it, and the file by
/// which it is read.
const OTHER_NAMES: u64 = 3;

// What is read of a file, as far as it fits: how many bytes.
fn read_into(file: &mut impl Read, bytes: &mut [u8; MAX_BYTES]) -> io::Result<usize>
    ensures { IfOk result (λ len. len ≤ MAX_BYTES) }
{
    let mut len = 0;
    for _ in 0..MAX_BYTES {
        let count = file.read(&mut bytes[len..])?;
        if count == 0 {
            break;
        }
        len += count;
    }
    Ok(len)
}

// The same of the file at a path.
fn read_at<R: Files>(rt: &R, path: &str, bytes: &mut [u8; MAX_BYTES]) -> Option<usize>
    ensures { IfSome result (λ len. len ≤ MAX_BYTES) }
{
    let Ok(mut file) = File::open(rt, path) else {
        return None;
    };
    match read_into(&mut file, bytes) {
        Ok(len) => Some(len),
        Err(_) => None,
    }
}

/// The text of the file at a path, as far as it is looked at, if it is one.
pub(crate) fn text_at<R: Files>(rt: &R, alloc: Global, path: &str) -> Option<String> {
    let mut bytes = [0; MAX_BYTES];
    let len = read_at(rt, path, &mut bytes)?;
    match str::from_utf8(&bytes[..len]) {
        Ok(text) => String::from_str(alloc, text).ok(),
        Err(_) => None,
    }
}

/// How many bytes of memory the process has.
pub fn resident_bytes<R: Files>(rt: &R) -> Option<u64> {
    let mut bytes = [0; MAX_BYTES];
    let len = read_at(rt, "/proc/self/statm", &mut bytes)?;
    match str::from_utf8(&bytes[..len]) {
        Ok(statm) => Some(pages_in(statm)?.saturating_mul(PAGE_BYTES)),
        Err(_) => None,
    }
}

/// How many files it may have open.
pub fn max_files<R: Files>(rt: &R) -> Option<u64> {
    let mut bytes = [0; MAX_BYTES];
    let len = read_at(rt, "/proc/self/limits", &mut bytes)?;
    match str::from_utf8(&bytes[..len]) {
        Ok(limits) => limit_in(limits),
        Err(_) => None,
    }
}

// How many names a folder has: each ends with a zero.
fn names_in(folder: &mut impl Read) -> io::Result<u64> {
    let mut names = 0u64;
    let mut piece = [0; NAMES_BYTES];
    for _ in 0..u64::MAX {
        let count = folder.read(&mut piece)?;
        if count == 0 {
            break;
        }
        for byte in &piece[..count] {
            names = names.saturating_add(u64::from(*byte == 0));
        }
    }
    Ok(names)
}

/// How many files it has open, but for the folder that is looked into.
pub fn open_files<R: Files>(rt: &R) -> Option<u64> {
    let Ok(mut folder) = rt.open_dir("/proc/self/fd/") else {
        return None;
    };
    match names_in(&mut folder) {
        Ok(names) => Some(names.saturating_sub(OTHER_NAMES)),
        Err(_) => None,
    }
}
