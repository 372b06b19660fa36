//! The status of a replica.
ghost use Rattle.std.specs.Prelude.{◌≡◌, cond};
ghost use Rattle.presence_base.specs.Order.{same_replica};
ghost use Rattle.replica_status.specs.Table.{heard_at, put_down};
ghost use Rattle.presence_journal.specs.History.{Begin, onto, time_of, standing_after, standing, status, is_gone, hears};

use presence_base::Replica;
use presence_journal::{Entry, Journal, Start, Step, own_after, own_of};
use replica_status::{Standing, Status};

// Whether the two are one replica.
pub(crate) fn is_same(replica: &Replica, other: &Replica) -> bool
    ensures { result ≡ same_replica replica.now other.now }
{
    replica.cmp(other).is_eq()
}

// The time that a step hands in.
fn time_of_step(step: &Step) -> u64
    ensures { result ≡ time_of step.now }
{
    match step {
        Step::Heard { now, .. } | Step::Tick { now } => *now,
        _ => 0,
    }
}

// What hearing one replica makes of the standing of another or the same.
fn heard_standing(is_heard: bool, time: u64, standing: Standing) -> Standing
    ensures { result ≡ cond is_heard (heard_at time standing) standing }
{
    if is_heard {
        standing.heard_at(time)
    } else {
        standing
    }
}

// What putting one replica down makes of the standing of another or the same.
fn gone_standing(is_gone: bool, standing: Standing) -> Standing
    ensures { result ≡ cond is_gone (put_down standing) standing }
{
    if is_gone { Standing::Gone } else { standing }
}

// What a step at a time makes of the standing of a replica.
fn next_standing(
    own: &Replica,
    step: &Step,
    time: u64,
    replica: &Replica,
    standing: Standing,
) -> Standing
    ensures { result ≡ standing_after own.now step.now time replica.now standing }
{
    match step {
        Step::Heard { replica: heard, .. } => {
            heard_standing(is_same(replica, heard.get()), time, standing)
        }
        Step::Tick { .. } => standing.ticked_at(time),
        Step::PermDown { replica: gone } => {
            gone_standing(is_same(replica, gone.get()), standing)
        }
        Step::Rebirth { .. } => gone_standing(is_same(replica, own), standing),
        _ => standing,
    }
}

// The standing of another replica after these entries.
fn standing_after(start: &Start, entries: &[Entry], replica: &Replica) -> Standing
    ensures { result ≡ standing (onto (Begin start.now) entries.now) replica.now }
{
    let mut own = start.own;
    let mut time = start.time;
    let mut standing = start.standings.standing(replica);
    for entry in entries {
        time = time.max(time_of_step(&entry.step));
        standing = next_standing(&own, &entry.step, time, replica, standing);
        own = own_after(&entry.step, own);
    }
    standing
}

// The status of a replica after these entries.
pub fn status_after(start: &Start, entries: &[Entry], replica: &Replica) -> Status
    ensures { result ≡ status (onto (Begin start.now) entries.now) replica.now }
{
    let own = own_of(start, entries);
    if is_same(replica, &own) {
        return Status::Up;
    }
    standing_after(start, entries, replica).status()
}

// Whether the status is that of a replica that is gone.
pub(crate) fn is_gone(status: Status) -> bool
    ensures { result ≡ is_gone status }
{
    match status {
        Status::Gone => true,
        _ => false,
    }
}

// Whether what is told of a replica is heard after these entries.
pub fn hears_after(start: &Start, entries: &[Entry], replica: &Replica) -> bool
    ensures { result ≡ hears (onto (Begin start.now) entries.now) replica.now }
{
    let own = own_of(start, entries);
    if is_same(replica, &own) {
        return false;
    }
    let status = status_after(start, entries, replica);
    !is_gone(status)
}

/// The status of a replica. Takes no memory.
pub fn walk_status(journal: &Journal, replica: &Replica) -> Status
    ensures { result ≡ status journal.now replica.now }
{
    status_after(journal.start(), journal.entries(), replica)
}
