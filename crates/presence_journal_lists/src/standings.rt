//! The standings of replicas.
ghost use Rattle.std.specs.Prelude.{◌≡◌, ◌++◌, [], ◌∷◌, cond, map, true, IfOk, OnOk, OnErr};
ghost use Rattle.std.specs.List.{AllByRecursion};
ghost use Rattle.replica_status.specs.Boards.{standing_in};
ghost use Rattle.replica_status.specs.Table.{heard_at, ticked_at};
ghost use Rattle.presence_journal_lists.specs.Standings.{all_of, standing_at, is_gone, AllStay, IsGoneAt, Puts, TellsOthers, Ticks};

use crate::gone::{GoneReplicas, add, is_among, take_out};
use presence_base::Replica;
use replica_status::Standing;
use std::alloc::{AllocError, Global};
use std::collections::BTreeMap;
use std::marker::Model;

/// Replicas with their standings, each replica once. One that is not listed is unheard.
///
/// Of a replica that is gone only its name and its incarnation are kept: under 100 bytes for the first incarnation of a
/// name, and 8 to 16 bytes for each beyond the second.
#[derive(Debug)]
pub struct Standings {
    gone: GoneReplicas,
    others: BTreeMap<Replica, Standing>,
}

impl Drop for Standings {
    fn drop(self) {
        let Standings { gone, others } = self;
        drop(gone);
        drop(others);
    }
}

impl Model for Standings {
    ghost use Rattle.std.specs.Prelude.{List};
    ghost use Rattle.std.specs.Coded.{coded_list, coded×};
    ghost use Rattle.presence_base.specs.declared.dots.Replica.{Replica};
    ghost use Rattle.presence_base.specs.Codes.{replica_code};
    ghost use Rattle.replica_status.specs.declared.standing.Standing.{Standing};
    ghost use Rattle.replica_status.specs.contracts.standing.Standing as one_standing;
    ghost use Rattle.presence_journal_lists.specs.Standings.{all_of, AreKept};

    ghost Value = { List (Replica × Standing) };

    ghost coded = { coded_list (coded× replica_code one_standing.the_row.coded) };

    ghost view = { λ s. all_of s.gone s.others };

    ghost invariant = { λ s. AreKept s.gone s.others };
}

impl Clone for Standings {
    ghost use Rattle.std.specs.Prelude.{◌≡◌};

    ghost is_clone = { λ s t. t ≡ s };

    fn clone(&self) -> Result<Standings, AllocError> {
        let gone = self.gone.clone()?;
        let others = self.others.clone()?;
        Ok(Standings { gone, others })
    }
}

// Whether the standing is that of a replica that is gone.
fn is_gone(standing: Standing) -> bool
    ensures { result ≡ is_gone standing }
{
    match standing {
        Standing::Gone => true,
        _ => false,
    }
}

// The standing that is kept, or that of a replica that was never heard.
fn standing_among(others: &BTreeMap<Replica, Standing>, replica: &Replica) -> Standing
    ensures { result ≡ standing_at others.now replica.now }
{
    match others.get(replica) {
        Some(standing) => *standing,
        None => Standing::Unheard,
    }
}

// Lets time pass for each.
fn tick_all(others: &mut BTreeMap<Replica, Standing>, time: u64)
    ensures { others.new.entries ≡ map (λ e. (e.0, ticked_at time e.1)) others.old.entries }
{
    others.retain(
        |_replica: &Replica, standing: &mut Standing| -> bool
            ensures { (result ≡ true) × (standing.new ≡ ticked_at time standing.old) }
        {
            *standing = standing.ticked_at(time);
            true
        },
    );
}

// Adds the replica, if it is gone.
fn push_if_gone(
    list: &mut Vec<Replica>,
    replica: &Replica,
    standing: Standing,
) -> Result<(), AllocError>
    ensures { OnOk result (list.new.items ≡ list.old.items ++ cond (is_gone standing) (replica.now ∷ []) []) }
{
    if is_gone(standing) {
        list.push(*replica)?;
    }
    Ok(())
}

// Those that are gone.
fn gone_among(
    alloc: Global,
    others: &BTreeMap<Replica, Standing>,
) -> Result<Vec<Replica>, AllocError>
    ensures { IfOk result (λ v. AllByRecursion (IsGoneAt others.now) v.items) }
{
    let mut list = Vec::new(alloc);
    for (replica, standing) in others.iter() {
        push_if_gone(&mut list, replica, *standing)?;
    }
    Ok(list)
}

impl Standings {
    /// No replica was heard.
    pub fn new(alloc: Global) -> Standings
        ensures { result ≡ [] }
    {
        Standings {
            gone: GoneReplicas {
                first: BTreeMap::new(alloc),
                further: BTreeMap::new(alloc),
            },
            others: BTreeMap::new(alloc),
        }
    }

    /// The standing that is kept, or that of a replica that was never heard. Takes no memory.
    pub fn standing(&self, replica: &Replica) -> Standing
        ensures { result ≡ standing_in self.now replica.now }
    {
        if is_among(&self.gone, replica) {
            return Standing::Gone;
        }
        standing_among(&self.others, replica)
    }

    /// The incarnations that are gone, by name, and the other replicas.
    pub fn parts(&self) -> (&GoneReplicas, &BTreeMap<Replica, Standing>)
        ensures { self.now ≡ all_of result.0.now result.1.now }
    {
        (&self.gone, &self.others)
    }

    /// The replicas that aren't gone, and those that time made gone and that had no room yet among those that are.
    pub fn others(&self) -> &BTreeMap<Replica, Standing>
        ensures { TellsOthers self.now result.now }
    {
        &self.others
    }

    /// The replica was heard at a time.
    pub fn heard(&mut self, replica: Replica, time: u64) -> Result<(), AllocError>
        ensures ok { OnOk result (Puts self.old self.new replica (heard_at time (standing_in self.old replica))) }
        ensures err { OnErr result (AllStay self.old self.new) }
    {
        if is_among(&self.gone, &replica) {
            return Ok(());
        }
        let standing = standing_among(&self.others, &replica).heard_at(time);
        self.others.insert(replica, standing)?;
        Ok(())
    }

    /// The replica is gone for good.
    pub fn put_down(&mut self, alloc: Global, replica: &Replica) -> Result<(), AllocError>
        ensures ok { OnOk result (Puts self.old self.new replica.now Standing.Gone) }
        ensures err { OnErr result (AllStay self.old self.new) }
    {
        add(alloc, &mut self.gone, replica)?;
        self.others.remove(replica);
        Ok(())
    }

    /// Nothing is kept of the replica.
    pub fn forget(&mut self, replica: &Replica)
        ensures { Puts self.old self.new replica.now Standing.Unheard }
    {
        take_out(&mut self.gone, replica);
        self.others.remove(replica);
    }

    /// Time passed. Needs no memory: where it is refused, one that became gone takes what it took before.
    pub fn tick(&mut self, alloc: Global, time: u64)
        ensures { Ticks time self.old self.new }
    {
        tick_all(&mut self.others, time);
        if let Ok(list) = gone_among(alloc, &self.others) {
            self.put_down_all(alloc, &list);
        }
    }

    // Puts those down that are gone already.
    fn put_down_all(&mut self, alloc: Global, list: &[Replica])
        requires { AllByRecursion (λ r. standing_in self.old r ≡ Standing.Gone) list.now }
        ensures { AllStay self.old self.new }
    {
        for replica in list {
            let _is_put = self.put_down(alloc, replica).is_ok();
        }
    }
}
