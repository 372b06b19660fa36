//! The last value of each shard.
ghost use Rattle.std.specs.Prelude.{◌≡◌, ◌==◌, ◌++◌, ◌∷◌, [], vec_len, OnOk, OnErr};
ghost use Rattle.node_threads.specs.Latest.{others};

use std::alloc::{AllocError, Global};
use std::mem;

/// The last value of each shard that has one, the one that came last at the end.
#[derive(Drop)]
pub struct Latest<T> {
    kept: Vec<(u32, T)>,
}

impl<T: Drop> Latest<T> {
    /// No shard has a value.
    pub fn new(alloc: Global) -> Latest<T>
        ensures { result.kept.items ≡ [] }
    {
        Latest {
            kept: Vec::new(alloc),
        }
    }

    /// Whether no shard has a value.
    pub fn is_empty(&self) -> bool
        ensures { result ≡ (vec_len self.now.kept == 0) }
    {
        self.kept.is_empty()
    }

    // Drops the value of a shard.
    fn forget(&mut self, shard: u32)
        ensures { self.new.kept.items ≡ others shard self.old.kept.items }
    {
        self.kept.retain(|kept| kept.0 != shard);
    }

    /// A shard's value, in the place of the one before. Where there is no memory the shard has none.
    pub fn put(&mut self, shard: u32, value: T) -> Result<(), AllocError>
        ensures ok { OnOk result (self.new.kept.items ≡ others shard self.old.kept.items ++ (shard, value) ∷ []) }
        ensures err { OnErr result (self.new.kept.items ≡ others shard self.old.kept.items) }
    {
        self.forget(shard);
        self.kept.push((shard, value))?;
        Ok(())
    }

    /// All values, with their shards. None is kept.
    pub fn take(&mut self, alloc: Global) -> Vec<(u32, T)>
        ensures taken { result.items ≡ self.old.kept.items }
        ensures none { self.new.kept.items ≡ [] }
    {
        mem::replace(&mut self.kept, Vec::new(alloc))
    }
}
