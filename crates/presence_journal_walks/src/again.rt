// Whether a rebirth puts a row of a topic under a new dot. What rows these are its entry doesn't say: each is found from the
// newest entry back, as one that an entry added or the Start has.
ghost use Rattle.std.specs.Prelude.{◌≡◌, cond, None, option_copied};
ghost use Rattle.std.specs.Map.{lookup};
ghost use Rattle.presence_base.specs.Order.{same_dot};
ghost use Rattle.presence_journal.specs.History.{Begin, onto, row_added};
ghost use Rattle.presence_journal_walks.specs.Changes.{topic_in, is_topic, topic_made, dot_before, topic_back, any_again};

use crate::changing::is_topic;
use crate::told::live_topic;
use presence_base::{Dot, Topic};
use presence_journal::{Entry, Outcome, Start, Step};

// The topic of the row that a step makes, where it is asked for.
fn made_topic(is_it: bool, step: &Step) -> Option<&Topic>
    ensures { option_copied result ≡ cond is_it (topic_made step.now) None }
{
    if !is_it {
        return None;
    }
    match step {
        Step::Track { topic, .. } | Step::Update { topic, .. } => Some(topic),
        _ => None,
    }
}

// The topic of the row that an entry adds under the dot.
fn added_topic<'a>(step: &'a Step, outcome: &Outcome, dot: &Dot) -> Option<&'a Topic>
    ensures { option_copied result ≡ topic_in (row_added step.now outcome.now dot.now) }
{
    match outcome {
        Outcome::Added(new) => made_topic(dot.cmp(new.get()).is_eq(), step),
        Outcome::Replaced(new, _) => made_topic(dot.cmp(new.get()).is_eq(), step),
        _ => None,
    }
}

// The old dot of a new one.
fn old_of(pairs: &[(Dot, Dot)], dot: &Dot) -> Option<Dot>
    ensures { result ≡ lookup (same_dot dot.now) pairs.now }
{
    for pair in pairs {
        if dot.cmp(&pair.0).is_eq() {
            return Some(pair.1);
        }
    }
    None
}

// The dot before an entry with this outcome, where the row stood under one.
fn dot_before(outcome: &Outcome, dot: &Dot) -> Option<Dot>
    ensures { result ≡ dot_before outcome.now dot.now }
{
    match outcome {
        Outcome::Reborn(pairs) => old_of(pairs.as_slice(), dot),
        _ => Some(*dot),
    }
}

// The topic of an own row, from the newest entry back.
fn topic_back<'a>(start: &'a Start, entries: &'a [Entry], dot: &Dot) -> Option<&'a Topic>
    ensures { option_copied result ≡ topic_back (onto (Begin start.now) entries.now) dot.now }
{
    let mut at = *dot;
    let mut place = entries.len();
    while place > 0 {
        let entry = &entries[place - 1];
        let added = added_topic(&entry.step, &entry.outcome, &at);
        if added.is_some() {
            return added;
        }
        let Some(before) = dot_before(&entry.outcome, &at) else {
            return None;
        };
        at = before;
        place -= 1;
    }
    live_topic(&start.content, &at)
}

// Whether the row of the old dot is of the topic.
fn is_again(start: &Start, entries: &[Entry], topic: &Topic, pair: &(Dot, Dot)) -> bool
    ensures { result ≡ is_topic topic.now (topic_back (onto (Begin start.now) entries.now) pair.now.1) }
{
    is_topic(topic, topic_back(start, entries, &pair.1))
}

// Whether a row of the topic goes on under a new dot.
pub(crate) fn any_again(
    start: &Start,
    entries: &[Entry],
    topic: &Topic,
    pairs: &[(Dot, Dot)],
) -> bool
    ensures { result ≡ any_again (onto (Begin start.now) entries.now) topic.now pairs.now }
{
    pairs
        .iter()
        .any(|pair| is_again(start, entries, topic, pair))
}
