// How far the known dots of a replica go on from a count, without memory: from range to range.
ghost use Rattle.std.specs.Prelude.{◌≡◌};
ghost use Rattle.orswot_core.specs.Telling.{range_has, lies_in, is_among, covers};
ghost use Rattle.presence_base.specs.Order.{same_dot};
ghost use Rattle.presence_journal.specs.History.{Begin, onto, is_counted, told_covers, known};
ghost use Rattle.presence_journal.specs.Table.{IsLegal};
ghost use Rattle.presence_journal_known.specs.Reaching.{counts_of, Reaches};

use crate::counts::used_after;
use crate::statuses::{hears_after, is_same};
use orswot_core::Told;
use presence_base::{Dot, Replica};
use presence_journal::{Entry, Start, Step, own_after};

// How far a range goes on.
fn reach_by_range(range: &(Replica, u64, u64), replica: &Replica, from: u64) -> u64
    ensures { Reaches (counts_of (λ d. range_has d range.now) replica.now) from result }
{
    if is_same(replica, &range.0) && (range.1 <= from && from < range.2) {
        range.2
    } else {
        from
    }
}

// How far ranges go on, in their order.
fn reach_by_ranges(ranges: &[(Replica, u64, u64)], replica: &Replica, from: u64) -> u64
    ensures { Reaches (counts_of (lies_in ranges.now) replica.now) from result }
{
    let mut reach = from;
    for range in ranges {
        reach = reach_by_range(range, replica, reach);
    }
    reach
}

// How far one dot goes on.
fn reach_by_dot(dot: &Dot, replica: &Replica, from: u64) -> u64
    ensures { Reaches (counts_of (λ d. same_dot d dot.now) replica.now) from result }
{
    if is_same(replica, &dot.replica) && (from < dot.count && dot.count - from == 1) {
        dot.count
    } else {
        from
    }
}

// How far dots go on, in their order.
fn reach_by_dots(dots: &[Dot], replica: &Replica, from: u64) -> u64
    ensures { Reaches (counts_of (is_among dots.now) replica.now) from result }
{
    let mut reach = from;
    for dot in dots {
        reach = reach_by_dot(dot, replica, reach);
    }
    reach
}

// How far what is told goes on.
fn reach_by_told(told: &Told, replica: &Replica, from: u64) -> u64
    ensures { Reaches (counts_of (covers told.now) replica.now) from result }
{
    let reach = reach_by_ranges(told.ranges(), replica, from);
    reach_by_dots(told.extras(), replica, reach)
}

// How far the first counts of the own replica go on.
fn reach_by_count(own: &Replica, used: u64, replica: &Replica, from: u64) -> u64
    ensures { Reaches (counts_of (is_counted own.now used) replica.now) from result }
{
    if is_same(replica, own) && from < used {
        used
    } else {
        from
    }
}

// How far what a step after these entries tells goes on. What is told is looked at first, since hearing
// goes over the entries.
fn reach_by_step(start: &Start, entries: &[Entry], step: &Step, replica: &Replica, from: u64) -> u64
    ensures { Reaches (counts_of (told_covers (onto (Begin start.now) entries.now) step.now) replica.now) from result }
{
    let Step::Merge { told } = step else {
        return from;
    };
    let reach = reach_by_told(told.get(), replica, from);
    if from < reach && hears_after(start, entries, replica) {
        reach
    } else {
        from
    }
}

// How far what is known after these entries goes on, by one walk. A range that stands before the one that it goes on
// from is taken by the next walk.
pub(crate) fn reach_after(start: &Start, entries: &[Entry], replica: &Replica, from: u64) -> u64
    requires { IsLegal (onto (Begin start.now) entries.now) }
    ensures { Reaches (counts_of (known (onto (Begin start.now) entries.now)) replica.now) from result }
{
    let mut own = start.own;
    let mut used = start.count;
    let mut reach = reach_by_told(&start.content, replica, from);
    for (place, entry) in entries.iter().enumerate() {
        own = own_after(&entry.step, own);
        used = used_after(&entry.outcome, used);
        reach = reach_by_count(&own, used, replica, reach);
        reach = reach_by_step(start, &entries[..place], &entry.step, replica, reach);
    }
    reach
}
