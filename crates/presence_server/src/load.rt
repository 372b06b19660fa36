//! From when on a journal is due for a checkpoint.
ghost use Rattle.std.specs.Prelude.{◌≡◌};
ghost use Rattle.presence_server.specs.Due.{due_bytes as due_bytes_in, due_entries as due_entries_in, is_due as is_due_in};

use shard_pool::DueFrom;

/// A journal with so many entries is due for a checkpoint: three quarters of those that it may have.
const DUE_ENTRIES: u64 = 196_608;

/// Where memory is tight one with so many is, once in a while, so that what is gone is given back.
const TIGHT_ENTRIES: u64 = 64;

/// A journal with so many entries is due where nobody follows a topic of its shard, so that nobody is told anything by it.
const DUE_ENTRIES_AT_REST: u64 = 8_192;

/// A journal whose entries keep so many bytes of texts and of dots that lists showed is due too: three quarters of 64 MiB.
const DUE_TEXT_BYTES: u64 = 50_331_648;

/// What a shard's journal holds, as the pool told it.
#[derive(Clone, Copy)]
pub(crate) struct Load {
    /// How many entries, its Start counted.
    pub entries: u64,
    /// How many bytes these keep beside themselves.
    pub kept_bytes: u64,
    /// How many bytes lists took for dots, which count as theirs.
    pub list_bytes: u64,
    /// How many topics of the shard have a subscriber.
    pub topics: u64,
}

impl Load {
    // With how many entries the journal is due.
    fn due_entries(self, is_tight: bool) -> u64
        ensures { result ≡ due_entries_in self is_tight }
    {
        if is_tight {
            TIGHT_ENTRIES
        } else if self.topics > 0 {
            DUE_ENTRIES
        } else {
            DUE_ENTRIES_AT_REST
        }
    }

    /// From when on the journal is due, where memory is tight or isn't.
    pub fn due_from(self, is_tight: bool) -> DueFrom
        ensures entries { result.entries ≡ due_entries_in self is_tight }
        ensures bytes { result.kept_bytes ≡ due_bytes_in self }
    {
        DueFrom {
            entries: self.due_entries(is_tight),
            kept_bytes: DUE_TEXT_BYTES.saturating_sub(self.list_bytes),
        }
    }

    /// Whether it is due.
    pub fn is_due(self, is_tight: bool) -> bool
        ensures { result ≡ is_due_in self is_tight }
    {
        let from = self.due_from(is_tight);
        self.entries >= from.entries || self.kept_bytes >= from.kept_bytes
    }
}
