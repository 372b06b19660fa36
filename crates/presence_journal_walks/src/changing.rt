// Whether an entry that is not of the own replica alone changes which rows are shown on a topic: it
// can show and hide rows of other replicas, which were told or are kept by the Start, and no others.
ghost use Rattle.std.specs.Prelude.{◌≡◌, option_copied};
ghost use Rattle.presence_journal.specs.History.{Begin, onto};
ghost use Rattle.presence_journal_walks.specs.Changes.{topic_in, row_kept, first_told, was_told_removed, is_topic, shows_told, differs, any_of, any_differs, changes_on};

use crate::steps::is_up;
use crate::told::{live_topic, removes, rows_told, tells_removed, told_topic};
use presence_base::{Dot, Row, Topic};
use presence_journal::{Entry, Start, Step};
use presence_journal_known::status_after;

// The topic of the row that a Start has of a dot of another replica.
fn kept_topic<'a>(start: &'a Start, dot: &Dot) -> Option<&'a Topic>
    ensures { option_copied result ≡ topic_in (row_kept start.now dot.now) }
{
    if dot.replica.cmp(&start.own).is_eq() {
        return None;
    }
    live_topic(&start.content, dot)
}

// The topic of the row that was told first of the dot, up to these entries.
fn first_topic<'a>(start: &'a Start, entries: &'a [Entry], dot: &Dot) -> Option<&'a Topic>
    ensures { option_copied result ≡ topic_in (first_told (onto (Begin start.now) entries.now) dot.now) }
{
    let mut first = kept_topic(start, dot);
    for (place, entry) in entries.iter().enumerate() {
        first = first.or(told_topic(start, &entries[..place], &entry.step, dot));
    }
    first
}

// Whether it was told up to these entries that the dot was removed.
fn was_told_removed(start: &Start, entries: &[Entry], dot: &Dot) -> bool
    ensures { result ≡ was_told_removed (onto (Begin start.now) entries.now) dot.now }
{
    let mut removed = removes(&start.content, dot);
    for (place, entry) in entries.iter().enumerate() {
        removed = removed || tells_removed(start, &entries[..place], &entry.step, dot);
    }
    removed
}

// Whether the topic that was found is this one.
pub(crate) fn is_topic(topic: &Topic, found: Option<&Topic>) -> bool
    ensures { result ≡ is_topic topic.now (option_copied found.entry) }
{
    match found {
        Some(found) => found.cmp(topic).is_eq(),
        None => false,
    }
}

// Whether a row that was told of the dot is shown on the topic after these entries.
fn shows_told(start: &Start, entries: &[Entry], topic: &Topic, dot: &Dot) -> bool
    ensures { result ≡ shows_told (onto (Begin start.now) entries.now) topic.now dot.now }
{
    if !is_topic(topic, first_topic(start, entries, dot)) {
        return false;
    }
    if !is_up(status_after(start, entries, &dot.replica)) {
        return false;
    }
    !was_told_removed(start, entries, dot)
}

// Whether it is so either before or after alone.
fn differs(start: &Start, before: &[Entry], after: &[Entry], topic: &Topic, dot: &Dot) -> bool
    ensures { result ≡ differs (onto (Begin start.now) before.now)
        (onto (Begin start.now) after.now) topic.now dot.now }
{
    let is_shown = shows_told(start, after, topic, dot);
    if shows_told(start, before, topic, dot) {
        !is_shown
    } else {
        is_shown
    }
}

// Whether a dot of one of these rows differs.
fn any_of(
    start: &Start,
    before: &[Entry],
    after: &[Entry],
    topic: &Topic,
    rows: &[(Dot, Row)],
) -> bool
    ensures { result ≡ any_of (differs (onto (Begin start.now) before.now)
        (onto (Begin start.now) after.now) topic.now) rows.now }
{
    rows.iter()
        .any(|row| differs(start, before, after, topic, &row.0))
}

// Whether a dot of which the step tells a row differs.
fn any_differs(start: &Start, before: &[Entry], after: &[Entry], topic: &Topic, step: &Step) -> bool
    ensures { result ≡ any_differs (onto (Begin start.now) before.now)
        (onto (Begin start.now) after.now) topic.now step.now }
{
    any_of(start, before, after, topic, rows_told(step))
}

// Whether any dot of which a row was told differs.
pub(crate) fn changes_topic(start: &Start, before: &[Entry], after: &[Entry], topic: &Topic) -> bool
    ensures { result ≡ changes_on (onto (Begin start.now) before.now)
        (onto (Begin start.now) after.now) topic.now }
{
    let mut changes = any_of(start, before, after, topic, start.content.live());
    for entry in after {
        changes = changes || any_differs(start, before, after, topic, &entry.step);
    }
    changes
}
