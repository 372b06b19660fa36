//! What is counted of calls.
ghost use Rattle.std.specs.Prelude.{◌≡◌};
ghost use Rattle.channel_rules.specs.Questions.{asks};
ghost use Rattle.serve_ports.specs.Counting.{accepted, called, counted_as, one_more, refusing, with_item, with_items};

use channel_rules::{Question, Refusal};
use presence_journal::Item;
use tracker_shard::ShardFault;

// What a call asks for.
#[derive(Clone, Copy, PartialEq, Eq, Debug)]
pub(crate) enum Kind {
    Join,
    Leave,
    Track,
    Update,
    Untrack,
    List,
    Get,
    Shout,
}

/// How many calls of each kind were accepted, how many were refused, and why, and how many items were taken. A count of 2^64
/// is 0 again.
#[derive(Clone, Copy, PartialEq, Eq, Debug)]
pub struct Tally {
    pub joins: u64,
    pub leaves: u64,
    pub tracks: u64,
    pub updates: u64,
    pub untracks: u64,
    pub lists: u64,
    pub gets: u64,
    pub shouts: u64,
    /// How many were refused in all.
    pub refused: u64,
    pub already_tracked: u64,
    pub no_presence: u64,
    /// For want of a count, or since a bound of rows is reached.
    pub full: u64,
    pub journal_full: u64,
    pub no_memory: u64,
    /// For another reason, which no client's message has.
    pub others: u64,
    pub states: u64,
    pub diffs: u64,
    pub shouts_told: u64,
}

impl Tally {
    /// Nothing is counted yet.
    pub const NOTHING: Tally = Tally {
        joins: 0,
        leaves: 0,
        tracks: 0,
        updates: 0,
        untracks: 0,
        lists: 0,
        gets: 0,
        shouts: 0,
        refused: 0,
        already_tracked: 0,
        no_presence: 0,
        full: 0,
        journal_full: 0,
        no_memory: 0,
        others: 0,
        states: 0,
        diffs: 0,
        shouts_told: 0,
    };
}

// One more.
fn add_one(count: &mut u64)
    ensures { count.new ≡ one_more count.old }
{
    *count = count.wrapping_add(1);
}

impl Tally {
    // A call was refused for this.
    fn add_refused(&mut self, refusal: Refusal)
        ensures { self.new ≡ refusing self.old refusal }
    {
        add_one(&mut self.refused);
        match refusal {
            Refusal::OverRation | Refusal::Table(ShardFault::ClockFull) => add_one(&mut self.full),
            Refusal::Table(ShardFault::AlreadyTracked) => add_one(&mut self.already_tracked),
            Refusal::Table(ShardFault::NoPresence) => add_one(&mut self.no_presence),
            Refusal::Table(ShardFault::JournalFull) => add_one(&mut self.journal_full),
            Refusal::Table(ShardFault::OutOfMemory) => add_one(&mut self.no_memory),
            Refusal::NotGranted | Refusal::Table(ShardFault::NoSub | ShardFault::BadIncarnation) =>
                { add_one(&mut self.others) }
        }
    }

    // A call of this kind was accepted.
    fn add_accepted(&mut self, kind: Kind)
        ensures { self.new ≡ accepted self.old kind }
    {
        match kind {
            Kind::Join => add_one(&mut self.joins),
            Kind::Leave => add_one(&mut self.leaves),
            Kind::Track => add_one(&mut self.tracks),
            Kind::Update => add_one(&mut self.updates),
            Kind::Untrack => add_one(&mut self.untracks),
            Kind::List => add_one(&mut self.lists),
            Kind::Get => add_one(&mut self.gets),
            Kind::Shout => add_one(&mut self.shouts),
        }
    }

    // A call of this kind was accepted, or refused for this.
    fn add_call(&mut self, kind: Kind, refusal: Option<Refusal>)
        ensures { self.new ≡ called self.old kind refusal }
    {
        match refusal {
            None => self.add_accepted(kind),
            Some(refusal) => self.add_refused(refusal),
        }
    }

    // What asks so was accepted, or refused for this. Takes are counted by their items.
    pub(crate) fn add(&mut self, question: Question<'_>, refusal: Option<Refusal>)
        ensures { self.new ≡ counted_as self.old (asks question.entry) refusal }
    {
        match question {
            Question::Track(_) => self.add_call(Kind::Track, refusal),
            Question::Update(_) => self.add_call(Kind::Update, refusal),
            Question::Untrack(_) => self.add_call(Kind::Untrack, refusal),
            Question::UntrackAll(_) => {
                if let Some(refusal) = refusal {
                    self.add_refused(refusal);
                }
            }
            Question::List(_) => self.add_call(Kind::List, refusal),
            Question::Get(_) => self.add_call(Kind::Get, refusal),
            Question::Subscribe(_) => self.add_call(Kind::Join, refusal),
            Question::Unsubscribe(_) => self.add_call(Kind::Leave, refusal),
            Question::Shout(_) => self.add_call(Kind::Shout, refusal),
            Question::Take(_) | Question::Waits(_) => (),
        }
    }

    // This item was taken.
    fn add_item(&mut self, item: &Item)
        ensures { self.new ≡ with_item self.old item.now }
    {
        match item {
            Item::State(_) => add_one(&mut self.states),
            Item::Diff(_) => add_one(&mut self.diffs),
            Item::Shout(_) => add_one(&mut self.shouts_told),
        }
    }

    // These items were taken.
    pub(crate) fn add_items(&mut self, items: &[Item])
        ensures { self.new ≡ with_items self.old items.now }
    {
        for item in items {
            self.add_item(item);
        }
    }
}
