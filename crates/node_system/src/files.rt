//! What the system says of files.
use std::io;

// What it answers where the program, or the machine, has as many files open as it may.
const NO_FILE_HERE: i32 = 24;

const NO_FILE_ANYWHERE: i32 = 23;

/// Whether an error says that no further file can be opened, and so no socket either.
pub fn is_no_file(error: &io::Error) -> bool {
    matches!(error.raw_os_error(), Some(NO_FILE_HERE | NO_FILE_ANYWHERE))
}
