//! The replicas that are gone, by name.
ghost use Rattle.std.specs.Prelude.{◌≡◌, ◌||◌, ◌&&◌, not, OnOk, OnErr};
ghost use Rattle.std.specs.BTreeMap.{IsOrdered};
ghost use Rattle.presence_base.specs.declared.dots.Replica.{Replica as ReplicaValue};
ghost use Rattle.presence_base.specs.Order.{text_cmp, same_replica};
ghost use Rattle.presence_journal_lists.specs.Standings.{is_first_in, is_further_in, is_gone_in, AreOrdered};

use crate::lives::Lives;
use presence_base::{NodeName, Replica};
use std::alloc::{AllocError, Global};
use std::collections::BTreeMap;

/// The incarnations that are gone, by name. Most names have one, so that it has no list of its own.
#[derive(Debug, Drop)]
pub struct GoneReplicas {
    /// One incarnation of a name.
    pub first: BTreeMap<NodeName, u64>,
    /// The further incarnations of a name.
    pub further: BTreeMap<NodeName, Lives>,
}

impl Clone for GoneReplicas {
    ghost use Rattle.std.specs.Prelude.{◌≡◌};

    ghost is_clone = { λ g h. (h.first.entries ≡ g.first.entries) × (h.further.entries ≡ g.further.entries) };

    fn clone(&self) -> Result<GoneReplicas, AllocError> {
        let first = self.first.clone()?;
        let further = self.further.clone()?;
        Ok(GoneReplicas { first, further })
    }
}

// Whether the replica is the first of its name.
fn is_first(first: &BTreeMap<NodeName, u64>, replica: &Replica) -> bool
    ensures { result ≡ is_first_in first.now replica.now }
{
    match first.get(&replica.name) {
        Some(incarnation) => replica.incarnation == *incarnation,
        None => false,
    }
}

// Whether the replica is among the further ones of its name.
fn is_further(further: &BTreeMap<NodeName, Lives>, replica: &Replica) -> bool
    ensures { result ≡ is_further_in further.now replica.now }
{
    match further.get(&replica.name) {
        Some(lives) => lives.contains(replica.incarnation),
        None => false,
    }
}

// Whether the replica is among them.
pub(crate) fn is_among(gone: &GoneReplicas, replica: &Replica) -> bool
    ensures { result ≡ is_gone_in gone.now replica.now }
{
    is_first(&gone.first, replica) || is_further(&gone.further, replica)
}

// The replica too, among the further ones of its name.
fn add_further(
    alloc: Global,
    further: &mut BTreeMap<NodeName, Lives>,
    replica: &Replica,
) -> Result<(), AllocError>
    ensures ok { OnOk result ((q : ReplicaValue)
        → is_further_in further.new q ≡ (same_replica replica.now q || is_further_in further.old q)) }
    ensures err { OnErr result ((q : ReplicaValue) → is_further_in further.new q ≡ is_further_in further.old q) }
    ensures ordered { IsOrdered text_cmp further.new }
{
    if let Some(lives) = further.get_mut(&replica.name) {
        return lives.insert(replica.incarnation);
    }
    let lives = Lives::only(alloc, replica.incarnation)?;
    match further.insert(replica.name, lives) {
        Ok(_) => Ok(()),
        Err(_) => Err(AllocError),
    }
}

// The replica too.
pub(crate) fn add(
    alloc: Global,
    gone: &mut GoneReplicas,
    replica: &Replica,
) -> Result<(), AllocError>
    requires { AreOrdered gone.old }
    ensures ok { OnOk result ((q : ReplicaValue)
        → is_gone_in gone.new q ≡ (same_replica replica.now q || is_gone_in gone.old q)) }
    ensures err { OnErr result ((q : ReplicaValue) → is_gone_in gone.new q ≡ is_gone_in gone.old q) }
    ensures ordered { AreOrdered gone.new }
{
    if is_among(gone, replica) {
        return Ok(());
    }
    if gone.first.contains_key(&replica.name) {
        return add_further(alloc, &mut gone.further, replica);
    }
    match gone.first.insert(replica.name, replica.incarnation) {
        Ok(_) => Ok(()),
        Err(_) => Err(AllocError),
    }
}

// Without the replica among the further ones of its name.
fn take_out_further(further: &mut BTreeMap<NodeName, Lives>, replica: &Replica)
    ensures out { (q : ReplicaValue)
        → is_further_in further.new q ≡ (not (same_replica replica.now q) && is_further_in further.old q) }
    ensures ordered { IsOrdered text_cmp further.new }
{
    if let Some(lives) = further.get_mut(&replica.name) {
        lives.remove(replica.incarnation);
    }
}

// Without the replica, where it is the first of its name.
fn take_out_first(first: &mut BTreeMap<NodeName, u64>, replica: &Replica)
    requires { IsOrdered text_cmp first.old }
    ensures out { (q : ReplicaValue)
        → is_first_in first.new q ≡ (not (same_replica replica.now q) && is_first_in first.old q) }
    ensures ordered { IsOrdered text_cmp first.new }
{
    if !is_first(first, replica) {
        return;
    }
    first.remove(&replica.name);
}

// Without the replica.
pub(crate) fn take_out(gone: &mut GoneReplicas, replica: &Replica)
    requires { AreOrdered gone.old }
    ensures out { (q : ReplicaValue)
        → is_gone_in gone.new q ≡ (not (same_replica replica.now q) && is_gone_in gone.old q) }
    ensures ordered { AreOrdered gone.new }
{
    take_out_first(&mut gone.first, replica);
    take_out_further(&mut gone.further, replica);
}
