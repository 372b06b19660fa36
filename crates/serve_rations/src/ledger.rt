//! What the rows of each topic take together.
ghost use Rattle.std.specs.Prelude.{◌≡◌, [], None};
ghost use Rattle.std.specs.BTreeMap.{get};
ghost use Rattle.presence_base.specs.Order.{text_cmp};
ghost use Rattle.serve_rations.specs.Amounts.{nothing};
ghost use Rattle.serve_rations.specs.Ledgers.{Charges, Releases, SetsIf, taken_at, left_at};

use crate::amount::Amount;
use presence_base::Topic;
use std::alloc::{AllocError, Global};
use std::collections::BTreeMap;

/// What the rows of each topic take together. A topic of which nothing is taken isn't kept.
#[derive(Drop)]
pub struct Ledger {
    topics: BTreeMap<Topic, Amount>,
}

impl Ledger {
    /// Nothing is taken.
    pub fn new(alloc: Global) -> Ledger
        ensures { result.topics.entries ≡ [] }
    {
        Ledger {
            topics: BTreeMap::new(alloc),
        }
    }

    /// What is taken of a topic.
    pub fn taken(&self, topic: &Topic) -> Amount
        ensures { result ≡ taken_at self.now topic.now }
    {
        match self.topics.get(topic) {
            Some(taken) => *taken,
            None => Amount::NOTHING,
        }
    }

    // So much is taken of the topic from now on, where it is kept: whether it is.
    fn set(&mut self, topic: &Topic, amount: Amount) -> bool
        ensures { SetsIf result self.old topic.now amount self.new }
    {
        match self.topics.get_mut(topic) {
            Some(taken) => {
                *taken = amount;
                true
            }
            None => false,
        }
    }

    /// Takes so much more of a topic where its budget has room for it: whether it has.
    pub fn charge(
        &mut self,
        budget: Amount,
        topic: &Topic,
        more: Amount,
    ) -> Result<bool, AllocError>
        ensures { Charges budget self.old topic.now more result self.new }
    {
        let taken = self.taken(topic);
        if !budget.has_room(taken, more) {
            return Ok(false);
        }
        let all = taken.plus(more);
        if !self.set(topic, all) {
            self.topics.insert(topic.clone()?, all)?;
        }
        Ok(true)
    }

    /// Gives so much of a topic back.
    pub fn release(&mut self, topic: &Topic, less: Amount)
        ensures released { Releases self.old topic.now less self.new }
        ensures gone { left_at self.old topic.now less ≡ nothing → get text_cmp self.new.topics topic.now ≡ None }
    {
        let left = self.taken(topic).without(less);
        if left.is_nothing() {
            self.topics.remove(topic);
        } else {
            self.set(topic, left);
        }
    }
}
