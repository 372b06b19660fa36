// What a step tells of a dot of another replica.
ghost use Rattle.std.specs.Prelude.{◌≡◌, option_copied};
ghost use Rattle.orswot_core.specs.Telling.{range_has, lies_in, is_among, covers, live_row, tells_removed};
ghost use Rattle.presence_journal.specs.History.{Begin, onto, told_row, told_removed};
ghost use Rattle.presence_journal_walks.specs.Changes.{topic_in, rows_told};

use orswot_core::Told;
use presence_base::{Dot, Replica, Row, Topic};
use presence_journal::{Entry, Start, Step};
use presence_journal_known::hears_after;

// Whether the range has the dot.
fn is_in_range(dot: &Dot, range: &(Replica, u64, u64)) -> bool
    ensures { result ≡ range_has dot.now range.now }
{
    dot.replica.cmp(&range.0).is_eq() && (range.1 < dot.count && dot.count <= range.2)
}

// Whether one of the ranges has the dot.
fn is_in_ranges(dot: &Dot, ranges: &[(Replica, u64, u64)]) -> bool
    ensures { result ≡ lies_in ranges.now dot.now }
{
    ranges.iter().any(|range| is_in_range(dot, range))
}

// Whether the dot is one of these.
fn is_among(dot: &Dot, dots: &[Dot]) -> bool
    ensures { result ≡ is_among dots.now dot.now }
{
    dots.iter().any(|other| dot.cmp(other).is_eq())
}

// Whether a told value covers the dot.
fn covers(told: &Told, dot: &Dot) -> bool
    ensures { result ≡ covers told.now dot.now }
{
    is_in_ranges(dot, told.ranges()) || is_among(dot, told.extras())
}

// The topic of the row that a told value has at the dot.
pub(crate) fn live_topic<'a>(told: &'a Told, dot: &Dot) -> Option<&'a Topic>
    ensures { option_copied result ≡ topic_in (live_row told.now dot.now) }
{
    let live = told.live();
    for row in live {
        if dot.cmp(&row.0).is_eq() {
            return Some(&row.1.topic);
        }
    }
    None
}

// Whether a told value tells that the dot was removed.
pub(crate) fn removes(told: &Told, dot: &Dot) -> bool
    ensures { result ≡ tells_removed told.now dot.now }
{
    covers(told, dot) && live_topic(told, dot).is_none()
}

// The topic of the row that a step tells of the dot after these entries.
pub(crate) fn told_topic<'a>(
    start: &Start,
    entries: &[Entry],
    step: &'a Step,
    dot: &Dot,
) -> Option<&'a Topic>
    ensures { option_copied result ≡ topic_in (told_row (onto (Begin start.now) entries.now) step.now dot.now) }
{
    match step {
        Step::Merge { told } => {
            if hears_after(start, entries, &dot.replica) {
                live_topic(told.get(), dot)
            } else {
                None
            }
        }
        _ => None,
    }
}

// Whether a step tells after these entries that the dot was removed.
pub(crate) fn tells_removed(start: &Start, entries: &[Entry], step: &Step, dot: &Dot) -> bool
    ensures { result ≡ told_removed (onto (Begin start.now) entries.now) step.now dot.now }
{
    match step {
        Step::Merge { told } => {
            hears_after(start, entries, &dot.replica) && removes(told.get(), dot)
        }
        _ => false,
    }
}

// The rows that a step tells.
pub(crate) fn rows_told(step: &Step) -> &[(Dot, Row)]
    ensures { result.now ≡ rows_told step.now }
{
    match step {
        Step::Merge { told } => told.get().live(),
        _ => &[],
    }
}
