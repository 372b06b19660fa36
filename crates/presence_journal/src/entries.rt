// The entries of a journal, with the bytes that they keep beside themselves.
use crate::entry::Entry;
use crate::kept_bytes::count_kept_bytes;
use std::alloc::{AllocError, Global};
use std::marker::Model;

pub(crate) struct Entries {
    entries: Vec<Entry>,
    kept_bytes: u64,
}

impl Drop for Entries {
    fn drop(self) {
        let Entries {
            entries,
            kept_bytes: _,
        } = self;
        drop(entries);
    }
}

impl Model for Entries {
    ghost use Rattle.std.specs.Prelude.{◌≡◌, ◌-◌, ◌^◌, List, min};
    ghost use Rattle.std.specs.Coded.{coded_list};
    ghost use Rattle.presence_journal.specs.contracts.entry.Entry as one_entry;
    ghost use Rattle.presence_journal.specs.Steps.{Entry};
    ghost use Rattle.presence_journal.specs.KeptBytes.{entries_bytes};

    ghost Value = { List Entry };

    ghost coded = { coded_list one_entry.the_row.coded };

    ghost view = { λ es. es.entries.items };

    ghost invariant = { λ es. es.kept_bytes ≡ min (entries_bytes es.entries.items) (2 ^ 64 - 1) };
}

impl Clone for Entries {
    ghost use Rattle.std.specs.Prelude.{◌≡◌};

    ghost is_clone = { λ a b. b ≡ a };

    fn clone(&self) -> Result<Entries, AllocError> {
        let entries = self.entries.clone()?;
        Ok(Entries {
            entries,
            kept_bytes: self.kept_bytes,
        })
    }
}

impl Entries {
    ghost use Rattle.std.specs.Prelude.{◌≡◌, ◌++◌, ◌∷◌, [], ◌-◌, ◌^◌, length, min, OnOk, OnErr};
    ghost use Rattle.presence_journal.specs.KeptBytes.{entries_bytes};

    pub(crate) fn new(alloc: Global) -> Entries
        ensures { result ≡ [] }
    {
        Entries {
            entries: Vec::new(alloc),
            kept_bytes: 0,
        }
    }

    pub(crate) fn as_slice(&self) -> &[Entry]
        ensures value { result.now ≡ self.now }
    {
        self.entries.as_slice()
    }

    pub(crate) fn len(&self) -> usize
        ensures { result ≡ length self.now }
    {
        self.entries.len()
    }

    // The bytes that all of them keep, or the most that a count of 64 bits tells.
    pub(crate) fn kept_bytes(&self) -> u64
        ensures { result ≡ min (entries_bytes self.now) (2 ^ 64 - 1) }
    {
        self.kept_bytes
    }

    // Makes room for so many more at once. No memory is touched before they come.
    pub(crate) fn reserve(&mut self, more: usize) -> Result<(), AllocError>
        ensures { self.new ≡ self.old }
    {
        self.entries.reserve_exact(more)
    }

    // Puts an entry at the end.
    #[tactic(auto, using(crate::proofs::KeptBytes::pushed_bytes))]
    pub(crate) fn push(&mut self, entry: Entry) -> Result<(), AllocError>
        ensures ok { OnOk result (self.new ≡ self.old ++ entry ∷ []) }
        ensures err { OnErr result (self.new ≡ self.old) }
    {
        let kept_bytes = self
            .kept_bytes
            .saturating_add(count_kept_bytes(&entry.step, &entry.outcome));
        self.entries.push(entry)?;
        self.kept_bytes = kept_bytes;
        Ok(())
    }
}
