//! Runs, chains and subscribers of a Start, and the numbers of subscribers.
use presence_base::Topic;
use std::alloc::AllocError;
use std::marker::Model;

/// Counts as runs: each is the count below its first one and its last one.
#[derive(Debug)]
pub struct Runs {
    items: Vec<(u64, u64)>,
}

impl Drop for Runs {
    fn drop(self) {
        let Runs { items } = self;
        drop(items);
    }
}

impl Model for Runs {
    ghost use Rattle.std.specs.Prelude.{ℕ, List};
    ghost use Rattle.std.specs.Coded.{coded_list, coded×, coded_ℕ};

    ghost Value = { List (ℕ × ℕ) };

    ghost coded = { coded_list (coded× coded_ℕ coded_ℕ) };

    ghost view = { λ r. r.items.items };
}

impl Clone for Runs {
    ghost use Rattle.std.specs.Prelude.{◌≡◌};

    ghost is_clone = { λ r s. s ≡ r };

    fn clone(&self) -> Result<Runs, AllocError> {
        let items = self.items.clone()?;
        Ok(Runs { items })
    }
}

impl Runs {
    ghost use Rattle.std.specs.Prelude.{◌≡◌};

    pub fn new(items: Vec<(u64, u64)>) -> Runs
        ensures { result ≡ items.items }
    {
        Runs { items }
    }

    pub fn as_slice(&self) -> &[(u64, u64)]
        ensures { result.now ≡ self.now }
    {
        self.items.as_slice()
    }
}

/// For the count of a row, the counts of the rows that it replaced in turn.
#[derive(Debug)]
pub struct Chains {
    items: Vec<(u64, Runs)>,
}

impl Drop for Chains {
    fn drop(self) {
        let Chains { items } = self;
        drop(items);
    }
}

impl Model for Chains {
    ghost use Rattle.std.specs.Prelude.{ℕ, List};
    ghost use Rattle.std.specs.Coded.{coded_list, coded×, coded_ℕ};

    ghost Value = { List (ℕ × List (ℕ × ℕ)) };

    ghost coded = { coded_list (coded× coded_ℕ (coded_list (coded× coded_ℕ coded_ℕ))) };

    ghost view = { λ c. c.items.items };
}

impl Clone for Chains {
    ghost use Rattle.std.specs.Prelude.{◌≡◌};

    ghost is_clone = { λ c d. d ≡ c };

    fn clone(&self) -> Result<Chains, AllocError> {
        let items = self.items.clone()?;
        Ok(Chains { items })
    }
}

impl Chains {
    ghost use Rattle.std.specs.Prelude.{◌≡◌};

    pub fn new(items: Vec<(u64, Runs)>) -> Chains
        ensures { result ≡ items.items }
    {
        Chains { items }
    }

    pub fn as_slice(&self) -> &[(u64, Runs)]
        ensures { result.now ≡ self.now }
    {
        self.items.as_slice()
    }
}

/// The numbers of subscribers, each with its topic.
#[derive(Debug)]
pub struct Subscribers {
    items: Vec<(u64, Topic)>,
}

impl Drop for Subscribers {
    fn drop(self) {
        let Subscribers { items } = self;
        drop(items);
    }
}

impl Model for Subscribers {
    ghost use Rattle.std.specs.Prelude.{ℕ, List};
    ghost use Rattle.std.specs.Coded.{coded_list, coded×, coded_ℕ};

    ghost Value = { List (ℕ × List ℕ) };

    ghost coded = { coded_list (coded× coded_ℕ (coded_list coded_ℕ)) };

    ghost view = { λ s. s.items.items };
}

impl Clone for Subscribers {
    ghost use Rattle.std.specs.Prelude.{◌≡◌};

    ghost is_clone = { λ s t. t ≡ s };

    fn clone(&self) -> Result<Subscribers, AllocError> {
        let items = self.items.clone()?;
        Ok(Subscribers { items })
    }
}

impl Subscribers {
    ghost use Rattle.std.specs.Prelude.{◌≡◌};

    pub fn new(items: Vec<(u64, Topic)>) -> Subscribers
        ensures { result ≡ items.items }
    {
        Subscribers { items }
    }

    pub fn as_slice(&self) -> &[(u64, Topic)]
        ensures { result.now ≡ self.now }
    {
        self.items.as_slice()
    }
}

/// Numbers of subscribers.
#[derive(Debug)]
pub struct Numbers {
    items: Vec<u64>,
}

impl Drop for Numbers {
    fn drop(self) {
        let Numbers { items } = self;
        drop(items);
    }
}

impl Model for Numbers {
    ghost use Rattle.std.specs.Prelude.{ℕ, List};
    ghost use Rattle.std.specs.Coded.{coded_list, coded_ℕ};

    ghost Value = { List ℕ };

    ghost coded = { coded_list coded_ℕ };

    ghost view = { λ n. n.items.items };
}

impl Clone for Numbers {
    ghost use Rattle.std.specs.Prelude.{◌≡◌};

    ghost is_clone = { λ n m. m ≡ n };

    fn clone(&self) -> Result<Numbers, AllocError> {
        let items = self.items.clone()?;
        Ok(Numbers { items })
    }
}

impl Numbers {
    ghost use Rattle.std.specs.Prelude.{◌≡◌};

    pub fn new(items: Vec<u64>) -> Numbers
        ensures { result ≡ items.items }
    {
        Numbers { items }
    }

    pub fn as_slice(&self) -> &[u64]
        ensures { result.now ≡ self.now }
    {
        self.items.as_slice()
    }
}
