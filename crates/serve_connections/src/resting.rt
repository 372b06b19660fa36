//! Which connections have nothing to do.
ghost use Rattle.std.specs.Prelude.{◌≡◌, [], false, true, slice_set};
ghost use Rattle.serve_connections.specs.Resting.{HasRoom, is_noted};

use std::alloc::Global;

/// The connections that have nothing to do, as far as it was noted, by their keys. Of a key that has no note yet nothing is
/// known.
#[derive(Drop)]
pub(crate) struct Resting {
    notes: Vec<bool>,
}

impl Resting {
    /// No key has a note.
    pub(crate) fn new(alloc: Global) -> Resting
        ensures { result.notes.items ≡ [] }
    {
        Resting {
            notes: Vec::new(alloc),
        }
    }

    /// Whether it was noted that the connection at this key has nothing to do.
    pub(crate) fn is_noted(&self, key: usize) -> bool
        ensures { result ≡ is_noted self.now.notes.items key }
    {
        match self.notes.get(key) {
            Some(note) => *note,
            None => false,
        }
    }

    /// The connection at this key has nothing to do, if there is room for the note.
    pub(crate) fn settle(&mut self, key: usize)
        ensures { self.new.notes.items ≡ slice_set self.old.notes.items key true }
    {
        if let Some(note) = self.notes.get_mut(key) {
            *note = true;
        }
    }

    /// The connection at this key has something to do.
    pub(crate) fn wake(&mut self, key: usize)
        ensures { self.new.notes.items ≡ slice_set self.old.notes.items key false }
    {
        if let Some(note) = self.notes.get_mut(key) {
            *note = false;
        }
    }

    /// Makes room for a note of this key, the first that has none, as far as there is memory.
    pub(crate) fn make_room(&mut self, key: usize)
        ensures { HasRoom self.old.notes.items self.new.notes.items }
    {
        if self.notes.len() <= key {
            let _lost = self.notes.push(false);
        }
    }
}
