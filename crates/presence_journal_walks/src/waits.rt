// What waits for a subscriber, counted entry by entry.
ghost use Rattle.std.specs.Prelude.{◌≡◌, option_map, option_copied};
ghost use Rattle.presence_journal.specs.History.{Begin, onto};
ghost use Rattle.presence_journal.specs.Queue.{is_current, first_waiting, topic_of, queue, is_waiting};
ghost use Rattle.presence_journal_walks.specs.Waits.{makes_on, makes_one, tally_of, tally_pushed, tally_left, tally_after, tally_waits};

use crate::again::any_again;
use crate::changing::changes_topic;
use crate::steps::{is_callers, is_news, is_on};
use crate::topics::{is_listed, listed_topic, topic_after_entry};
use presence_base::Topic;
use presence_journal::{Entry, Journal, MAX_WAITING, Outcome, Start, Step};

// What waits for a subscriber, counted.
#[derive(Clone, Copy)]
enum Tally {
    Behind,
    Items(u64),
}

impl Tally {
    // One item more where an entry makes one.
    fn pushed(self, makes: bool) -> Tally
        ensures { result ≡ tally_pushed makes self }
    {
        match self {
            Tally::Behind => Tally::Behind,
            Tally::Items(count) => {
                if !makes {
                    Tally::Items(count)
                } else if count < MAX_WAITING as u64 {
                    Tally::Items(count + 1)
                } else {
                    Tally::Behind
                }
            }
        }
    }

    // What a take of at most so many items leaves.
    fn left(self, max: u64) -> Tally
        ensures { result ≡ tally_left max self }
    {
        match self {
            Tally::Behind => Tally::Items(0),
            Tally::Items(count) => Tally::Items(count.saturating_sub(max)),
        }
    }

    // Whether the subscriber is behind or has something waiting.
    fn waits(self) -> bool
        ensures { result ≡ tally_waits self }
    {
        match self {
            Tally::Behind => true,
            Tally::Items(count) => count > 0,
        }
    }
}

// What the entries say of a subscriber: its topic while it is present, and what waits for it.
#[derive(Drop)]
struct Followed<'a> {
    topic: Option<&'a Topic>,
    tally: Tally,
}

// Whether an entry makes an item on the topic. One of the own replica alone says so by its outcome;
// any other is compared with what was shown before it.
fn makes_on(start: &Start, before: &[Entry], after: &[Entry], entry: &Entry, topic: &Topic) -> bool
    ensures { result ≡ makes_on (onto (Begin start.now) before.now)
        (onto (Begin start.now) after.now) entry.now topic.now }
{
    if is_callers(&entry.step) {
        return is_news(&entry.outcome) && is_on(&entry.step, topic);
    }
    match &entry.outcome {
        Outcome::Reborn(pairs) => any_again(start, before, topic, pairs.as_slice()),
        _ => changes_topic(start, before, after, topic),
    }
}

// Whether an entry makes an item for a subscriber of the topic.
fn makes_one(
    start: &Start,
    before: &[Entry],
    after: &[Entry],
    entry: &Entry,
    topic: Option<&Topic>,
) -> bool
    ensures { result ≡ makes_one (onto (Begin start.now) before.now)
        (onto (Begin start.now) after.now) entry.now (option_copied topic.entry) }
{
    match topic {
        Some(topic) => makes_on(start, before, after, entry, topic),
        None => false,
    }
}

// What waits for a subscriber after an entry.
fn next_tally(entry: &Entry, subscriber: u64, makes: bool, tally: Tally) -> Tally
    ensures { result ≡ tally_after entry.now.step entry.now.number subscriber makes tally }
{
    match &entry.step {
        Step::Subscribe { .. } if entry.number == subscriber => Tally::Behind,
        Step::Take {
            subscriber: taker,
            max,
        } if *taker == subscriber => tally.left(u64::from(max.get())),
        _ => tally.pushed(makes),
    }
}

// What waits for a subscriber behind a Start.
fn first_tally(start: &Start, subscriber: u64) -> Tally
    ensures { result ≡ tally_of (first_waiting (is_current start.now.current subscriber)) }
{
    if is_listed(start.current.as_slice(), subscriber) {
        Tally::Items(0)
    } else {
        Tally::Behind
    }
}

// Goes over the entries for one subscriber.
fn follow(journal: &Journal, subscriber: u64) -> Followed<'_>
    ensures topic { option_copied result.topic ≡ topic_of journal.now subscriber }
    ensures tally { result.tally ≡ tally_of (queue journal.now subscriber) }
{
    let start = journal.start();
    let entries = journal.entries();
    let mut topic = listed_topic(start.subscribers.as_slice(), subscriber);
    let mut tally = first_tally(start, subscriber);
    for (place, entry) in entries.iter().enumerate() {
        let makes = makes_one(
            start,
            &entries[..place],
            &entries[..place + 1],
            entry,
            topic,
        );
        tally = next_tally(entry, subscriber, makes, tally);
        topic = topic_after_entry(entry, subscriber, topic);
    }
    Followed { topic, tally }
}

/// Whether a present subscriber is behind or has something waiting, or `None` where no present
/// subscriber has the number. Takes no memory.
pub fn walk_waits(journal: &Journal, subscriber: u64) -> Option<bool>
    ensures { result ≡ option_map (λ _. is_waiting (queue journal.now subscriber)) (topic_of journal.now subscriber) }
{
    let followed = follow(journal, subscriber);
    match followed.topic {
        Some(_) => Some(followed.tally.waits()),
        None => None,
    }
}
