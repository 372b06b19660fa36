//! Outcomes, entries, a Start.
use crate::listed_dots::ListedDots;
use crate::shared_values::SharedDot;
use crate::step::Step;
use delta_range::Generations;
use orswot_core::Told;
use presence_base::{Dot, Replica};
use presence_journal_lists::{Chains, Numbers, Runs, Standings, Subscribers};
use std::alloc::{AllocError, Global};
use std::marker::Model;
use std::sync::Arc;

// Where the dots of a list lie.
#[derive(Debug, Drop)]
enum HeldDots {
    Nowhere,
    Shared(Arc<Vec<Dot>, Global>),
}

/// A list of dots, shared by its clones.
#[derive(Debug)]
pub struct Dots {
    held: HeldDots,
}

impl Drop for Dots {
    fn drop(self) {
        let Dots { held } = self;
        drop(held);
    }
}

impl Model for Dots {
    ghost use Rattle.std.specs.Prelude.{List};
    ghost use Rattle.std.specs.Coded.{coded_list};
    ghost use Rattle.presence_base.specs.declared.dots.Dot.{Dot};
    ghost use Rattle.presence_base.specs.Codes.{dot_code};
    ghost use Rattle.presence_journal.specs.HeldDots.{held_dots};

    ghost Value = { List Dot };

    ghost coded = { coded_list dot_code };

    ghost view = { λ d. held_dots d.held };
}

impl Dots {
    ghost use Rattle.std.specs.Prelude.{◌≡◌, IfOk};

    /// The list. An empty one takes no memory.
    pub fn new(alloc: Global, items: Vec<Dot>) -> Result<Dots, AllocError>
        ensures { IfOk result (λ d. d ≡ items.items) }
    {
        let held = if items.is_empty() {
            HeldDots::Nowhere
        } else {
            HeldDots::Shared(Arc::new(alloc, items)?)
        };
        Ok(Dots { held })
    }

    pub fn as_slice(&self) -> &[Dot]
        ensures { result.now ≡ self.now }
    {
        match &self.held {
            HeldDots::Nowhere => &[],
            HeldDots::Shared(items) => items.as_slice(),
        }
    }
}

/// Dots that came in the place of others: each new one with the old one. Its clones share them.
#[derive(Debug)]
pub struct Pairs {
    items: Arc<Vec<(Dot, Dot)>, Global>,
}

impl Drop for Pairs {
    fn drop(self) {
        let Pairs { items } = self;
        drop(items);
    }
}

impl Model for Pairs {
    ghost use Rattle.std.specs.Prelude.{List};
    ghost use Rattle.std.specs.Arc.{arc_value};
    ghost use Rattle.std.specs.Coded.{coded_list, coded×};
    ghost use Rattle.presence_base.specs.declared.dots.Dot.{Dot};
    ghost use Rattle.presence_base.specs.Codes.{dot_code};

    ghost Value = { List (Dot × Dot) };

    ghost coded = { coded_list (coded× dot_code dot_code) };

    ghost view = { λ p. (arc_value p.items).items };
}

impl Clone for Pairs {
    ghost use Rattle.std.specs.Prelude.{◌≡◌};

    ghost is_clone = { λ p q. q ≡ p };

    fn clone(&self) -> Result<Pairs, AllocError> {
        let items = Arc::try_clone(&self.items)?;
        Ok(Pairs { items })
    }
}

impl Pairs {
    ghost use Rattle.std.specs.Prelude.{◌≡◌, IfOk};

    pub fn new(alloc: Global, items: Vec<(Dot, Dot)>) -> Result<Pairs, AllocError>
        ensures { IfOk result (λ p. p ≡ items.items) }
    {
        let items = Arc::new(alloc, items)?;
        Ok(Pairs { items })
    }

    pub fn as_slice(&self) -> &[(Dot, Dot)]
        ensures { result.now ≡ self.now }
    {
        self.items.as_slice()
    }
}

/// What a step came to.
#[derive(Debug, Drop)]
pub enum Outcome {
    /// A track added a row under this dot.
    Added(SharedDot),
    /// A track whose pid has a row under the topic and key.
    AlreadyTracked,
    /// An update put a row under the first dot in the place of the row under the second.
    Replaced(SharedDot, SharedDot),
    /// An update whose pid has no row under the topic and key.
    NoPresence,
    /// An untrack took out the rows under these dots.
    Removed(Dots),
    /// A list or a get answered the rows under these dots.
    Shown(ListedDots),
    /// The subscriber's number.
    Subscribed(u64),
    /// Whether the take gave a state, and how many items it gave in all.
    Taken(bool, u64),
    Ended,
    Sent,
    /// A replica was heard or put down, or time passed.
    Noted,
    /// A cut told the counts above the first up to the second.
    CutAt(u64, u64),
    /// What was told is taken in.
    Merged,
    /// A rebirth put the own rows under new dots.
    Reborn(Pairs),
}

/// One step of a shard, with what it came to.
#[derive(Debug, Drop)]
pub struct Entry {
    pub number: u64,
    /// The caller's seat, where the step was made through one.
    pub seat: Option<u32>,
    pub step: Step,
    pub outcome: Outcome,
}

// What a journal keeps of each step.
const _: () = prove!(size_of::<Entry>() <= 136);

/// What a journal begins with, and what came before it as far as later entries still depend on it.
#[derive(Debug, Drop)]
pub struct Start {
    /// The number of this first entry.
    pub number: u64,
    /// The replica that the shard is.
    pub own: Replica,
    /// How many counts the replica has used.
    pub count: u64,
    /// The dots that are covered, and the rows that are live.
    pub content: Told,
    /// The other replicas.
    pub standings: Standings,
    /// The greatest time that was handed in, in milliseconds.
    pub time: u64,
    /// The count up to which the last cut told.
    pub last_cut: u64,
    /// The own counts at or below it that went since.
    pub older: Runs,
    /// For the count of an own live row, the counts that it stands for.
    pub chains: Chains,
    /// The kept deltas: what the cuts so far told, joined.
    pub kept: Generations,
    /// The subscribers that are present.
    pub subscribers: Subscribers,
    /// Those of them that are current: they have the state of their topic, and nothing waits for them. Each other is behind.
    pub current: Numbers,
    /// How many entries that came before were made through seats.
    pub seated: u64,
}

impl Clone for Dots {
    ghost use Rattle.std.specs.Prelude.{◌≡◌};

    ghost is_clone = { λ d e. e ≡ d };

    fn clone(&self) -> Result<Dots, AllocError> {
        let held = match &self.held {
            HeldDots::Nowhere => HeldDots::Nowhere,
            HeldDots::Shared(items) => HeldDots::Shared(Arc::try_clone(items)?),
        };
        Ok(Dots { held })
    }
}

impl Clone for Outcome {
    ghost use Rattle.std.specs.Prelude.{◌≡◌};

    ghost is_clone = { λ o p. p ≡ o };

    fn clone(&self) -> Result<Outcome, AllocError> {
        match self {
            Outcome::Added(dot) => Ok(Outcome::Added(dot.clone()?)),
            Outcome::AlreadyTracked => Ok(Outcome::AlreadyTracked),
            Outcome::Replaced(dot, old) => Ok(Outcome::Replaced(dot.clone()?, old.clone()?)),
            Outcome::NoPresence => Ok(Outcome::NoPresence),
            Outcome::Removed(dots) => Ok(Outcome::Removed(dots.clone()?)),
            Outcome::Shown(dots) => Ok(Outcome::Shown(dots.clone()?)),
            Outcome::Subscribed(number) => Ok(Outcome::Subscribed(*number)),
            Outcome::Taken(state, items) => Ok(Outcome::Taken(*state, *items)),
            Outcome::Ended => Ok(Outcome::Ended),
            Outcome::Sent => Ok(Outcome::Sent),
            Outcome::Noted => Ok(Outcome::Noted),
            Outcome::CutAt(from, to) => Ok(Outcome::CutAt(*from, *to)),
            Outcome::Merged => Ok(Outcome::Merged),
            Outcome::Reborn(pairs) => Ok(Outcome::Reborn(pairs.clone()?)),
        }
    }
}

impl Clone for Entry {
    ghost use Rattle.std.specs.Prelude.{◌≡◌};

    ghost is_clone = { λ e f. f ≡ e };

    fn clone(&self) -> Result<Entry, AllocError> {
        let step = self.step.clone()?;
        let outcome = self.outcome.clone()?;
        Ok(Entry {
            number: self.number,
            seat: self.seat,
            step,
            outcome,
        })
    }
}

impl Clone for Start {
    ghost use Rattle.std.specs.Prelude.{◌≡◌};

    ghost is_clone = { λ s t. t ≡ s };

    fn clone(&self) -> Result<Start, AllocError> {
        let content = self.content.clone()?;
        let standings = self.standings.clone()?;
        let older = self.older.clone()?;
        let chains = self.chains.clone()?;
        let kept = self.kept.clone()?;
        let subscribers = self.subscribers.clone()?;
        let current = self.current.clone()?;
        Ok(Start {
            number: self.number,
            own: self.own,
            count: self.count,
            content,
            standings,
            time: self.time,
            last_cut: self.last_cut,
            older,
            chains,
            kept,
            subscribers,
            current,
            seated: self.seated,
        })
    }
}
