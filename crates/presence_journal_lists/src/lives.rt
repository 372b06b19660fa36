//! The incarnations of one name.
use std::alloc::{AllocError, Global};
use std::marker::Model;

/// Incarnations of one name, rising, each once: 8 bytes each, and as many again at most for those to come.
#[derive(Debug)]
pub struct Lives {
    numbers: Vec<u64>,
}

impl Drop for Lives {
    fn drop(self) {
        let Lives { numbers } = self;
        drop(numbers);
    }
}

impl Model for Lives {
    ghost use Rattle.std.specs.Prelude.{ℕ, List};
    ghost use Rattle.std.specs.Coded.{coded_list, coded_ℕ};
    ghost use Rattle.presence_journal_lists.specs.Lives.{Rise};

    ghost Value = { List ℕ };

    ghost coded = { coded_list coded_ℕ };

    ghost view = { λ l. l.numbers.items };

    ghost invariant = { λ l. Rise l.numbers.items };
}

impl Clone for Lives {
    ghost use Rattle.std.specs.Prelude.{◌≡◌};

    ghost is_clone = { λ l m. m ≡ l };

    fn clone(&self) -> Result<Lives, AllocError> {
        let numbers = self.numbers.clone()?;
        Ok(Lives { numbers })
    }
}

impl Lives {
    ghost use Rattle.std.specs.Prelude.{◌≡◌, ◌||◌, ◌&&◌, not, [], ◌∷◌, IfOk, IfErr, OnOk, OnErr, ℕ};
    ghost use Rattle.presence_journal_lists.specs.Lives.{IsAt, IsGapFor, is_one_of, same_number};

    /// One incarnation.
    pub fn only(alloc: Global, number: u64) -> Result<Lives, AllocError>
        ensures { IfOk result (λ l. l ≡ number ∷ []) }
    {
        let mut numbers = Vec::with_capacity(alloc, 1)?;
        numbers.push(number)?;
        Ok(Lives { numbers })
    }

    /// The incarnations.
    pub fn as_slice(&self) -> &[u64]
        ensures { result.now ≡ self.now }
    {
        self.numbers.as_slice()
    }

    // Where the incarnation is, or where it would go.
    fn search(&self, number: u64) -> Result<usize, usize>
        ensures found { IfOk result (IsAt self.now number) }
        ensures absent { IfErr result (IsGapFor self.now number) }
    {
        self.numbers.binary_search(&number)
    }

    /// Whether the incarnation is one of these.
    pub fn contains(&self, number: u64) -> bool
        ensures { result ≡ is_one_of self.now number }
    {
        self.search(number).is_ok()
    }

    /// The incarnation too.
    pub fn insert(&mut self, number: u64) -> Result<(), AllocError>
        ensures ok { OnOk result ((n : ℕ) → is_one_of self.new n ≡ (same_number number n || is_one_of self.old n)) }
        ensures err { OnErr result (self.new ≡ self.old) }
    {
        match self.search(number) {
            Ok(_) => Ok(()),
            Err(at) => Ok(self.numbers.insert(at, number)?),
        }
    }

    /// Without the incarnation.
    pub fn remove(&mut self, number: u64)
        ensures { (n : ℕ) → is_one_of self.new n ≡ (not (same_number number n) && is_one_of self.old n) }
    {
        match self.search(number) {
            Ok(at) => {
                self.numbers.remove(at);
            }
            Err(_) => {}
        }
    }
}
