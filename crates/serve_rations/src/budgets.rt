//! What the rows of this node take of each topic, and how much they may.
ghost use Rattle.std.specs.Prelude.{◌≡◌};
ghost use Rattle.serve_rations.specs.Ledgers.{Charges, Releases, ChargesSome, ReleasesSome, taken_at};

use crate::amount::Amount;
use crate::ledger::Ledger;
use presence_base::Topic;
use std::alloc::{AllocError, Global};
use std::sync::{Mutex, Wait};

/// What rows are charged to, topic by topic.
pub trait Budgets {
    ghost use Rattle.std.specs.Prelude.{Result, Bool, List, ℕ};
    ghost use Rattle.std.specs.declared.alloc.AllocError.{AllocError};
    ghost use Rattle.serve_rations.specs.declared.amount.Amount.{Amount};

    /// From the one to the other so much more was asked for at a topic, and this answered.
    ghost charged: { Self → List ℕ → Amount → Result Bool AllocError → Self → Type 0 };

    /// From the one to the other so much of a topic was given back.
    ghost released: { Self → List ℕ → Amount → Self → Type 0 };

    /// Takes so much more of the topic, if there is room: whether there is.
    fn charge(&mut self, topic: &Topic, more: Amount) -> Result<bool, AllocError>
        ensures { charged self.old topic.now more result self.new };

    /// Gives so much of the topic back.
    fn release(&mut self, topic: &Topic, less: Amount)
        ensures { released self.old topic.now less self.new };
}

/// A ledger of one's own, each of whose topics has this budget.
#[derive(Drop)]
pub struct OwnBudgets {
    budget: Amount,
    ledger: Ledger,
}

impl OwnBudgets {
    /// Nothing is taken of any topic.
    pub fn new(alloc: Global, budget: Amount) -> OwnBudgets
        ensures { result.budget ≡ budget }
    {
        OwnBudgets {
            budget,
            ledger: Ledger::new(alloc),
        }
    }

    /// What is taken of a topic.
    pub fn taken(&self, topic: &Topic) -> Amount
        ensures { result ≡ taken_at self.now.ledger topic.now }
    {
        self.ledger.taken(topic)
    }
}

impl Budgets for OwnBudgets {
    ghost charged = { λ old topic more answer new. (new.budget ≡ old.budget) × Charges old.budget old.ledger topic more answer new.ledger };

    ghost released = { λ old topic less new. (new.budget ≡ old.budget) × Releases old.ledger topic less new.ledger };

    fn charge(&mut self, topic: &Topic, more: Amount) -> Result<bool, AllocError> {
        self.ledger.charge(self.budget, topic, more)
    }

    fn release(&mut self, topic: &Topic, less: Amount) {
        self.ledger.release(topic, less);
    }
}

/// What the rows of all connections of a node take of each topic. It holds an entry for each topic of which some row of
/// the node's own stands.
pub struct TopicBudgets {
    budget: Amount,
    ledger: Mutex<Ledger>,
}

impl Drop for TopicBudgets {
    fn drop(self) {
        let TopicBudgets { budget: _, ledger } = self;
        drop(ledger);
    }
}

impl TopicBudgets {
    /// Nothing is taken of any topic, each of which has this budget.
    pub fn new(alloc: Global, budget: Amount) -> TopicBudgets
        ensures { result.budget ≡ budget }
    {
        TopicBudgets {
            budget,
            ledger: Mutex::new(Ledger::new(alloc)),
        }
    }

    /// What is taken of a topic.
    pub fn taken<R: Wait>(&self, rt: &R, topic: &Topic) -> Amount {
        let ledger = self.ledger.lock(rt);
        ledger.taken(topic)
    }
}

/// The budgets of a node, as one of its threads uses them. Their lock is held for one charge, and never while a shard is
/// asked.
#[derive(Drop)]
pub struct SharedBudgets<'a, R: Wait> {
    rt: &'a R,
    shared: &'a TopicBudgets,
}

impl<'a, R: Wait> SharedBudgets<'a, R> {
    /// These budgets.
    pub fn new(rt: &'a R, shared: &'a TopicBudgets) -> SharedBudgets<'a, R>
        ensures { result.shared.now ≡ shared.now }
    {
        SharedBudgets { rt, shared }
    }
}

impl<R: Wait> Budgets for SharedBudgets<'_, R> {
    ghost charged = { λ old topic more answer new. (new.shared ≡ old.shared) × ChargesSome old.shared.now.budget topic more answer };

    ghost released = { λ old topic less new. (new.shared ≡ old.shared) × ReleasesSome topic less };

    fn charge(&mut self, topic: &Topic, more: Amount) -> Result<bool, AllocError> {
        let mut ledger = self.shared.ledger.lock(self.rt);
        ledger.charge(self.shared.budget, topic, more)
    }

    fn release(&mut self, topic: &Topic, less: Amount) {
        let mut ledger = self.shared.ledger.lock(self.rt);
        ledger.release(topic, less);
    }
}
