//! The board.
ghost use Rattle.std.specs.Prelude.{◌≡◌, ◌≤◌, [], IfOk, OnOk, OnErr, length, map, true};
ghost use Rattle.replica_status.specs.declared.status.Status.TheVariants.{Unheard};
ghost use Rattle.replica_status.specs.Table.{ticked_at};
ghost use Rattle.replica_status.specs.Boards.{standing_in, with_standing, status, after_heard, after_tick, after_permdown, after_reborn, changes_in, changes};

use crate::change::{Change, change_between};
use crate::listed::Listed;
use crate::standing::Standing;
use crate::status::Status;
use indexmap::IndexMap;
use presence_base::Replica;
use std::alloc::{AllocError, Global};
use std::marker::Model;

/// What a node knows of the other replicas, in the order in which they came to the board.
///
/// Its time is the greatest that was handed in so far, in milliseconds, so a clock that goes back counts as no time passed.
/// A replica is found by hash; a tick goes over all that are listed. Of a replica that is gone only its name is kept.
pub struct Board {
    own: Replica,
    time: u64,
    standings: IndexMap<Listed, Standing>,
}

impl Drop for Board {
    fn drop(self) {
        let Board {
            own: _,
            time: _,
            standings,
        } = self;
        drop(standings);
    }
}

impl Model for Board {
    ghost use Rattle.replica_status.specs.Boards.{BoardValue};

    ghost Value = { BoardValue };

    ghost view = { λ b. record { own = b.own; time = b.time; standings = b.standings.entries } };
}

impl Board {
    /// The board of a replica, which is up, and has heard of no other.
    pub fn new(alloc: Global, own: Replica) -> Board
        ensures { result ≡ record { own = own; time = 0; standings = [] } }
    {
        Board {
            own,
            time: 0,
            standings: IndexMap::new(alloc),
        }
    }

    /// Notes that the replica was heard. Memory may be wanted where it is unheard, and only there.
    pub fn heard(&mut self, _alloc: Global, replica: Replica, now: u64) -> Result<(), AllocError>
        ensures ok { OnOk result (self.new ≡ after_heard self.old replica now) }
        ensures err { OnErr result (self.new ≡ self.old) }
        ensures cause { OnErr result (status self.old replica ≡ Unheard) }
    {
        let time = self.time.max(now);
        if !replica.cmp(&self.own).is_eq() {
            let standing = standing_in(&self.standings, &replica).heard_at(time);
            put(&mut self.standings, replica, standing)?;
        }
        self.time = time;
        Ok(())
    }

    /// Lets time pass, and answers whose status changed, in the order in which they came to the board. Memory may be wanted
    /// where a status changes, and only there.
    pub fn tick(&mut self, alloc: Global, now: u64) -> Result<Vec<Change>, AllocError>
        ensures changes { IfOk result (λ v. v.items ≡ changes self.old now) }
        ensures ok { OnOk result (self.new ≡ after_tick self.old now) }
        ensures err { OnErr result (self.new ≡ self.old) }
        ensures cause { OnErr result (1 ≤ length (changes self.old now)) }
    {
        let time = self.time.max(now);
        let changes = changes_in(alloc, &self.standings, time)?;
        tick_all(&mut self.standings, time);
        self.time = time;
        Ok(changes)
    }

    /// Notes that the replica is gone for good. Memory may be wanted where it is unheard, and only there.
    pub fn permdown(&mut self, _alloc: Global, replica: Replica) -> Result<(), AllocError>
        ensures ok { OnOk result (self.new ≡ after_permdown self.old replica) }
        ensures err { OnErr result (self.new ≡ self.old) }
        ensures cause { OnErr result (status self.old replica ≡ Unheard) }
    {
        if replica.cmp(&self.own).is_eq() {
            return Ok(());
        }
        put(&mut self.standings, replica, Standing::Gone)
    }

    /// From now on the replica is the own one, which is up, and the one that was the own one is gone. A replica that was heard
    /// or put down, or that is the own one already, changes nothing. Memory may be wanted where the replica is unheard, and
    /// only there.
    #[tactic(auto, using(crate::proofs::TableFacts::as_it_was, crate::proofs::TableFacts::goes_on, crate::proofs::TableFacts::only_unheard))]
    pub fn reborn(&mut self, _alloc: Global, replica: Replica) -> Result<(), AllocError>
        ensures ok { OnOk result (self.new ≡ after_reborn self.old replica) }
        ensures err { OnErr result (self.new ≡ self.old) }
        ensures cause { OnErr result (status self.old replica ≡ Unheard) }
    {
        if self.status(&replica).is_unheard() {
            put(&mut self.standings, self.own, Standing::Gone)?;
            self.own = replica;
        }
        Ok(())
    }

    /// The status of a replica. Takes no memory.
    pub fn status(&self, replica: &Replica) -> Status
        ensures { result ≡ status self.now replica.now }
    {
        if replica.cmp(&self.own).is_eq() {
            return Status::Up;
        }
        standing_in(&self.standings, replica).status()
    }
}

fn standing_in(standings: &IndexMap<Listed, Standing>, replica: &Replica) -> Standing
    ensures { result ≡ standing_in standings.now.entries replica.now }
{
    let listed = Listed { replica: *replica };
    match standings.get(&listed) {
        Some(standing) => *standing,
        None => Standing::Unheard,
    }
}

// Lists the standing, in the place of the one before it.
fn put(
    standings: &mut IndexMap<Listed, Standing>,
    replica: Replica,
    standing: Standing,
) -> Result<(), AllocError>
    ensures ok { OnOk result (standings.new.entries ≡ with_standing standings.old.entries replica standing) }
    ensures err { OnErr result (standings.new.entries ≡ standings.old.entries) }
    ensures cause { OnErr result (standing_in standings.old.entries replica ≡ Standing.Unheard) }
{
    match standings.insert(Listed { replica }, standing) {
        Ok(_) => Ok(()),
        Err(_) => Err(AllocError),
    }
}

fn changes_in(
    alloc: Global,
    standings: &IndexMap<Listed, Standing>,
    time: u64,
) -> Result<Vec<Change>, AllocError>
    ensures ok { IfOk result (λ v. v.items ≡ changes_in standings.now.entries time) }
    ensures cause { OnErr result (1 ≤ length (changes_in standings.now.entries time)) }
{
    let mut changes = Vec::new(alloc);
    for (listed, standing) in standings {
        if let Some(change) = change_between(listed.replica, *standing, standing.ticked_at(time)) {
            changes.push(change)?;
        }
    }
    Ok(changes)
}

fn tick_all(standings: &mut IndexMap<Listed, Standing>, time: u64)
    ensures { standings.new.entries ≡ map (λ e. (e.0, ticked_at time e.1)) standings.old.entries }
{
    standings.retain(
        |_listed: &Listed, standing: &mut Standing| -> bool
            ensures { (result ≡ true) × (standing.new ≡ ticked_at time standing.old) }
        {
            *standing = standing.ticked_at(time);
            true
        },
    );
}
