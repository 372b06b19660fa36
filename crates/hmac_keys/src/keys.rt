//! The keys of a file.
ghost use Rattle.std.specs.Prelude.{◌≡◌, string_bytes};
ghost use Rattle.hmac_keys.specs.Lines.{AreKeysOf, GivesKeys, added, bytes_of, keys_in, line_fault, some_keys};

use crate::fault::{KeyFault, KeysFault};
use crate::line::key_of;
use std::alloc::Global;

// Why a text is no file of keys, where this line of it is no key.
fn at_line(line: usize, fault: KeyFault) -> KeysFault
    ensures { result ≡ line_fault line fault }
{
    match fault {
        KeyFault::OutOfMemory => KeysFault::OutOfMemory,
        _ => KeysFault::Line { line, fault },
    }
}

// Adds the key of the next line: each line before it has one.
fn add(alloc: Global, keys: &mut Vec<Vec<u8>>, line: &str) -> Result<(), KeysFault>
    ensures { GivesKeys (λ _. bytes_of keys.new) result (added (bytes_of keys.old) line.now) }
{
    match key_of(alloc, line.as_bytes()) {
        Ok(key) => match keys.push(key) {
            Ok(()) => Ok(()),
            Err(_) => Err(KeysFault::OutOfMemory),
        },
        Err(fault) => Err(at_line(keys.len() + 1, fault)),
    }
}

// The keys, where there is one.
fn some_of(keys: Vec<Vec<u8>>) -> Result<Vec<Vec<u8>>, KeysFault>
    ensures { GivesKeys bytes_of result (some_keys (bytes_of keys)) }
{
    if keys.is_empty() {
        return Err(KeysFault::NoKey);
    }
    Ok(keys)
}

// The keys of a file's text: of each line one.
fn keys_of(alloc: Global, text: &str) -> Result<Vec<Vec<u8>>, KeysFault>
    ensures { GivesKeys bytes_of result (keys_in text.now) }
{
    let mut keys = Vec::new(alloc);
    for line in text.lines() {
        add(alloc, &mut keys, line)?;
    }
    some_of(keys)
}

/// The keys of a file, with the file's text: one at least, each as its line has it.
pub struct Keys {
    pub(crate) text: String,
    pub(crate) keys: Vec<Vec<u8>>,
    ghost read: { AreKeysOf (string_bytes text) keys },
}

impl Drop for Keys {
    fn drop(self) {
        let Keys { text, keys } = self;
        drop(text);
        drop(keys);
    }
}

impl Keys {
    ghost use Rattle.std.specs.Prelude.{◌≡◌, ℕ, List, ◌∷◌, Ok, map, string_bytes};
    ghost use Rattle.hmac_keys.specs.Lines.{GivesKeys, keys_in, keys_with};
    ghost use Rattle.hmac_keys.specs.Keys.{key_bytes, key_text};

    /// The keys of a file with this text, or the first thing that is wrong with it.
    pub fn read(alloc: Global, text: String) -> Result<Keys, KeysFault>
        ensures { GivesKeys (λ k. (key_text k, key_bytes k)) result (keys_with (string_bytes text)) }
    {
        let keys = keys_of(alloc, text.as_str())?;
        Ok(Keys { text, keys })
    }

    /// The keys, in the order of their lines. They are those of the file's text, whatever was done with them.
    pub fn as_slice(&self) -> &[Vec<u8>]
        ensures keys { map (λ k. k.items) result.now ≡ key_bytes self.now }
        ensures file { keys_in (key_text self.now) ≡ Ok (key_bytes self.now) }
    {
        self.keys.as_slice()
    }
    /// The key of the first line: that under which something new is signed.
    pub fn first(&self) -> &[u8]
        ensures { (rest : List (List ℕ)) × (key_bytes self.now ≡ result.now ∷ rest) }
    {
        self.keys[0].as_slice()
    }
}
