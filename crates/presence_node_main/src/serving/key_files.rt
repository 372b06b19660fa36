//! Files of keys.
ghost use Rattle.std.specs.Prelude.{string_bytes};
ghost use Rattle.hmac_keys.specs.Lines.{keys_with};
ghost use Rattle.presence_node_main.specs.KeyFiles.{GivesKeys};

use hmac_keys::{Keys, KeysFault};
use std::alloc::{AllocError, Global};
use std::fs::File;
use std::io;
use std::io::{ErrorKind, Read};
use std::rt::Files;
use std::sync::Arc;

/// How many bytes a file has at most.
const MAX_BYTES: u64 = 1_048_576;

/// Why a file gives no keys.
#[derive(Clone, Copy, PartialEq, Eq, Debug)]
pub(crate) enum NoKeys {
    /// There is no such file, or none that may be read, or it is no text.
    Unread,
    TooLong,
    /// What is wrong in it.
    Wrong(KeysFault),
    Memory,
}

/// A file of keys: the option that names it, and where it is.
#[derive(Clone, Copy)]
pub(crate) struct KeyFile<'a> {
    pub option: &'static str,
    pub path: &'a str,
}

// The text of a file.
fn text_of<R: Files>(rt: &R, alloc: Global, path: &str) -> Result<String, NoKeys> {
    let text = match File::open(rt, path) {
        Ok(file) => io::read_to_string(alloc, file.take(MAX_BYTES + 1)),
        Err(error) => Err(error),
    };
    match text {
        Ok(text) if text.len() as u64 > MAX_BYTES => Err(NoKeys::TooLong),
        Ok(text) => Ok(text),
        Err(error) if error.kind() == ErrorKind::OutOfMemory => Err(NoKeys::Memory),
        Err(_) => Err(NoKeys::Unread),
    }
}

// The keys of a file with this text.
fn keys_of(alloc: Global, text: String) -> Result<Arc<Keys, Global>, NoKeys>
    ensures { GivesKeys result (keys_with (string_bytes text)) }
{
    let keys = match Keys::read(alloc, text) {
        Ok(keys) => keys,
        Err(KeysFault::OutOfMemory) => return Err(NoKeys::Memory),
        Err(fault) => return Err(NoKeys::Wrong(fault)),
    };
    match Arc::new(alloc, keys) {
        Ok(keys) => Ok(keys),
        Err(_) => Err(NoKeys::Memory),
    }
}

impl KeyFile<'_> {
    /// The keys that it has.
    pub fn read<R: Files>(self, rt: &R, alloc: Global) -> Result<Arc<Keys, Global>, NoKeys> {
        let text = text_of(rt, alloc, self.path)?;
        keys_of(alloc, text)
    }

    /// The keys that it has; or why there are none, in words, where there is memory for these.
    pub fn keys<R: Files>(
        self,
        rt: &R,
        alloc: Global,
    ) -> Result<Arc<Keys, Global>, Result<String, AllocError>> {
        match self.read(rt, alloc) {
            Ok(keys) => Ok(keys),
            Err(why) => Err(self.words(alloc, why)),
        }
    }

    /// Why it gives none, in words.
    pub fn words(self, alloc: Global, why: NoKeys) -> Result<String, AllocError> {
        let (option, path) = (self.option, self.path);
        match why {
            NoKeys::Unread => {
                format!(in alloc; "--{option} '{path}': the file can't be read as a text")
            }
            NoKeys::TooLong => {
                format!(in alloc; "--{option} '{path}': the file has more than {MAX_BYTES} bytes")
            }
            NoKeys::Wrong(fault) => format!(in alloc; "--{option} '{path}': {fault}"),
            NoKeys::Memory => Err(AllocError),
        }
    }
}
