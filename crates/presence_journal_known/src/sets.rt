//! Covered dots and tops.
ghost use Rattle.std.specs.Prelude.{◌≡◌};
ghost use Rattle.presence_journal.specs.History.{Begin, onto, covered, IsTop};
ghost use Rattle.presence_journal.specs.Table.{IsLegal};

use crate::known::is_known_after;
use crate::reaching::reach_after;
use crate::statuses::{is_gone, status_after};
use presence_base::{Dot, MAX_COUNT, Replica};
use presence_journal::{Entry, Journal, Start};

// Whether the dot is covered after these entries.
fn covers_after(start: &Start, entries: &[Entry], dot: &Dot) -> bool
    requires { IsLegal (onto (Begin start.now) entries.now) }
    ensures { result ≡ covered (onto (Begin start.now) entries.now) dot.now }
{
    let status = status_after(start, entries, &dot.replica);
    is_known_after(start, entries, dot) && !is_gone(status)
}

// The count up to which all of the replica's dots are covered after these entries.
fn top_after(start: &Start, entries: &[Entry], replica: &Replica) -> u64
    requires { IsLegal (onto (Begin start.now) entries.now) }
    ensures { IsTop (onto (Begin start.now) entries.now) replica.now result }
{
    let status = status_after(start, entries, replica);
    if is_gone(status) {
        return 0;
    }
    let mut top = 0;
    while top < MAX_COUNT {
        let reach = reach_after(start, entries, replica, top);
        if reach == top {
            return top;
        }
        top = reach;
    }
    MAX_COUNT
}

/// Whether the dot is covered: counted here or told, of a replica that is not gone. Takes no memory.
pub fn walk_covers(journal: &Journal, dot: &Dot) -> bool
    ensures { result ≡ covered journal.now dot.now }
{
    covers_after(journal.start(), journal.entries(), dot)
}

/// The count up to which all of a replica's dots are covered. Takes no memory.
///
/// It goes from range to range: a walk over the entries takes every range and every dot that goes on from what the ones
/// before it reached, however long they are. One walk and a last one are enough where what was told grew in order; at
/// worst each told range or dot takes a walk of its own.
pub fn walk_top(journal: &Journal, replica: &Replica) -> u64
    ensures { IsTop journal.now replica.now result }
{
    top_after(journal.start(), journal.entries(), replica)
}
