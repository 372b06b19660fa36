// Whether a dot is known, without memory.
ghost use Rattle.std.specs.Prelude.{◌≡◌, ◌||◌};
ghost use Rattle.orswot_core.specs.Telling.{lies_in, is_among, covers};
ghost use Rattle.presence_journal.specs.History.{Begin, onto, is_counted, told_covers, known};
ghost use Rattle.presence_journal.specs.Table.{IsLegal};

use crate::counts::used_after;
use crate::statuses::{hears_after, is_same};
use orswot_core::Told;
use presence_base::{Dot, Replica};
use presence_journal::{Entry, Start, Step, own_after};

// Whether one of the ranges has the dot.
fn lies_in(ranges: &[(Replica, u64, u64)], dot: &Dot) -> bool
    ensures { result ≡ lies_in ranges.now dot.now }
{
    ranges.iter().any(|range| is_same(&dot.replica, &range.0)
        && (range.1 < dot.count && dot.count <= range.2))
}

// Whether the dot is one of these.
fn is_among(dots: &[Dot], dot: &Dot) -> bool
    ensures { result ≡ is_among dots.now dot.now }
{
    dots.iter().any(|other| dot.cmp(other).is_eq())
}

// Whether what is told covers the dot.
fn covers(told: &Told, dot: &Dot) -> bool
    ensures { result ≡ covers told.now dot.now }
{
    lies_in(told.ranges(), dot) || is_among(told.extras(), dot)
}

// Whether a step after these entries tells of the dot. What is told is looked at first, since hearing
// goes over the entries.
fn told_covers(start: &Start, entries: &[Entry], step: &Step, dot: &Dot) -> bool
    ensures { result ≡ told_covers (onto (Begin start.now) entries.now) step.now dot.now }
{
    match step {
        Step::Merge { told } => {
            covers(told.get(), dot) && hears_after(start, entries, &dot.replica)
        }
        _ => false,
    }
}

// Whether the dot is one of the first counts of the replica.
fn is_counted(own: &Replica, used: u64, dot: &Dot) -> bool
    ensures { result ≡ is_counted own.now used dot.now }
{
    is_same(&dot.replica, own) && (dot.count > 0 && dot.count <= used)
}

// Whether an entry behind these makes the dot known: the own replica used so many counts with it.
fn makes_known(
    start: &Start,
    entries: &[Entry],
    entry: &Entry,
    own: &Replica,
    used: u64,
    dot: &Dot,
) -> bool
    ensures { result
        ≡ (is_counted own.now used dot.now
        || told_covers (onto (Begin start.now) entries.now) entry.now.step dot.now) }
{
    is_counted(own, used, dot) || told_covers(start, entries, &entry.step, dot)
}

// Whether the dot is known after these entries.
pub(crate) fn is_known_after(start: &Start, entries: &[Entry], dot: &Dot) -> bool
    requires { IsLegal (onto (Begin start.now) entries.now) }
    ensures { result ≡ known (onto (Begin start.now) entries.now) dot.now }
{
    let mut own = start.own;
    let mut used = start.count;
    let mut is_known = covers(&start.content, dot);
    for (place, entry) in entries.iter().enumerate() {
        own = own_after(&entry.step, own);
        used = used_after(&entry.outcome, used);
        is_known = is_known || makes_known(start, &entries[..place], entry, &own, used, dot);
    }
    is_known
}
