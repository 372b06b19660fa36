//! A subscriber's topic.
ghost use Rattle.std.specs.Prelude.{◌≡◌, option_copied};
ghost use Rattle.presence_journal.specs.Queue.{topic_at, is_current, topic_of, topic_after};

use presence_base::Topic;
use presence_journal::{Entry, Journal, Step};

// The topic of a subscriber after an entry.
pub fn topic_after_entry<'a>(
    entry: &'a Entry,
    number: u64,
    before: Option<&'a Topic>,
) -> Option<&'a Topic>
    ensures { option_copied result ≡ topic_after entry.now.step entry.now.number number (option_copied before.entry) }
{
    match &entry.step {
        Step::Subscribe { topic } => {
            if entry.number == number {
                Some(topic)
            } else {
                before
            }
        }
        Step::Unsubscribe { subscriber } => { if *subscriber == number { None } else { before } }
        _ => before,
    }
}

// The topic of a subscriber that is listed.
pub fn listed_topic(subscribers: &[(u64, Topic)], number: u64) -> Option<&Topic>
    ensures { option_copied result ≡ topic_at subscribers.now number }
{
    for listed in subscribers {
        if number == listed.0 {
            return Some(&listed.1);
        }
    }
    None
}

// Whether a number is listed.
pub fn is_listed(numbers: &[u64], number: u64) -> bool
    ensures { result ≡ is_current numbers.now number }
{
    for listed in numbers {
        if number == *listed {
            return true;
        }
    }
    false
}

/// The topic of a present subscriber.
pub fn walk_topic(journal: &Journal, number: u64) -> Option<&Topic>
    ensures { option_copied result ≡ topic_of journal.now number }
{
    let start = journal.start();
    let entries = journal.entries();
    let mut topic = listed_topic(start.subscribers.as_slice(), number);
    for entry in entries {
        topic = topic_after_entry(entry, number, topic);
    }
    topic
}
