// The standings of the other replicas, found by replica.
ghost use Rattle.std.specs.Prelude.{◌≡◌, OnOk, OnErr};
ghost use Rattle.presence_base.specs.Order.{same_replica};
ghost use Rattle.presence_journal.specs.History.{begun, reborn, is_gone as is_gone_status, is_up as is_up_status};
ghost use Rattle.tracker_known.specs.Standings.{status_at, hears_at, AreOthersOf, OthersFollow, OthersStay, OthersReborn};

use presence_base::Replica;
use presence_journal::Step;
use presence_journal_lists::Standings;
use replica_status::Status;
use std::alloc::{AllocError, Global};

/// What is held of the other replicas: the standing of each that was heard or put down, and the greatest
/// time that was handed in, in milliseconds.
#[derive(Drop)]
pub struct Others {
    pub own: Replica,
    pub time: u64,
    pub standings: Standings,
}

/// Whether the two are one replica.
pub fn is_same(replica: &Replica, other: &Replica) -> bool
    ensures { result ≡ same_replica replica.now other.now }
{
    replica.cmp(other).is_eq()
}

/// Whether the status is that of a replica that is gone.
pub fn is_gone(status: Status) -> bool
    ensures { result ≡ is_gone_status status }
{
    match status {
        Status::Gone => true,
        _ => false,
    }
}

/// Whether rows of a replica of this status are shown.
pub fn is_up(status: Status) -> bool
    ensures { result ≡ is_up_status status }
{
    match status {
        Status::Up => true,
        _ => false,
    }
}

/// The replica under another incarnation.
pub fn reborn(own: &Replica, incarnation: u64) -> Replica
    ensures { result ≡ reborn own.now incarnation }
{
    Replica {
        name: own.name,
        incarnation,
    }
}

impl Others {
    /// Those of a new shard, which has heard of none.
    pub fn new(alloc: Global, own: Replica) -> Others
        ensures { AreOthersOf (begun own) result }
    {
        Others {
            own,
            time: 0,
            standings: Standings::new(alloc),
        }
    }

    /// The status of a replica.
    pub fn status(&self, replica: &Replica) -> Status
        ensures { result ≡ status_at self.now replica.now }
    {
        if is_same(replica, &self.own) {
            return Status::Up;
        }
        self.standings.standing(replica).status()
    }

    /// Whether what is told of a replica is heard.
    pub fn hears(&self, replica: &Replica) -> bool
        ensures { result ≡ hears_at self.now replica.now }
    {
        !is_same(replica, &self.own) && !is_gone(self.status(replica))
    }

    /// A replica was heard.
    pub fn heard(&mut self, replica: Replica, now: u64) -> Result<(), AllocError>
        ensures ok { OnOk result (OthersFollow self.old (Step.Heard replica now) self.new) }
        ensures err { OnErr result (OthersStay self.old self.new) }
    {
        let time = self.time.max(now);
        if is_same(&replica, &self.own) {
            self.time = time;
            return Ok(());
        }
        self.standings.heard(replica, time)?;
        self.time = time;
        Ok(())
    }

    /// Time passed. Needs no memory.
    pub fn tick(&mut self, alloc: Global, now: u64)
        ensures { OthersFollow self.old (Step.Tick now) self.new }
    {
        let time = self.time.max(now);
        self.standings.tick(alloc, time);
        self.time = time;
    }

    /// The own replica goes on under another incarnation: the old one is put down.
    pub fn reborn(&mut self, alloc: Global, incarnation: u64) -> Result<(), AllocError>
        ensures ok { OnOk result (OthersReborn self.old incarnation self.new) }
        ensures err { OnErr result (OthersStay self.old self.new) }
    {
        let next = reborn(&self.own, incarnation);
        self.standings.put_down(alloc, &self.own)?;
        self.own = next;
        Ok(())
    }

    /// A replica is gone for good.
    pub fn permdown(&mut self, alloc: Global, replica: &Replica) -> Result<(), AllocError>
        ensures own { self.new.own ≡ self.old.own }
        ensures ok { OnOk result (OthersFollow self.old (Step.PermDown replica.now) self.new) }
        ensures err { OnErr result (OthersStay self.old self.new) }
    {
        if is_same(replica, &self.own) {
            return Ok(());
        }
        self.standings.put_down(alloc, replica)
    }
}
