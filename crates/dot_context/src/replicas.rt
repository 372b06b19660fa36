// The runs of each replica, by the replica.
ghost use Rattle.std.specs.Prelude.{◌≡◌, ◌≤◌, ◌<◌, ◌&&◌, ◌+◌, ℕ, true, false, Some, None, is_some, OnOk, OnErr};
ghost use Rattle.std.specs.BTreeMap.{get, IsUnchanged};
ghost use Rattle.presence_base.specs.Order.{replica_cmp, same_replica};
ghost use Rattle.dot_context.specs.Runs.{holds, AreLong};
ghost use Rattle.dot_context.specs.Sets.{in_range, runs_at, IsCompact, HasRoomFor};
ghost use Rattle.dot_context.specs.Changes.{ChangesAt, has_dot, SameDots, AddsDots, AllApart, AllHaveRuns, OthersHaveRuns, NoneHasRuns, held_by, begun_by, held_in, begun_in, HasRoomAt, OpensAll, FillsAll, SweepsAll};

use crate::runs::Runs;
use presence_base::{Dot, Replica};
use std::alloc::{AllocError, Global};
use std::collections::BTreeMap;

pub(crate) fn covers_dot(replicas: &BTreeMap<Replica, Runs>, dot: &Dot) -> bool
    ensures { result ≡ has_dot replicas.now dot.now }
{
    match replicas.get(&dot.replica) {
        Some(runs) => runs.covers(dot.count),
        None => false,
    }
}

pub(crate) fn top_of_replica(replicas: &BTreeMap<Replica, Runs>, replica: &Replica) -> u64
    ensures below { (n : ℕ) → 1 ≤ n → n ≤ result → holds (runs_at replicas.now replica.now) n ≡ true }
    ensures next { holds (runs_at replicas.now replica.now) (result + 1) ≡ false }
{
    match replicas.get(replica) {
        Some(runs) => runs.top(),
        None => 0,
    }
}

// Whether the replica has runs.
pub(crate) fn has_runs(replicas: &BTreeMap<Replica, Runs>, replica: &Replica) -> bool
    ensures { result ≡ is_some (get replica_cmp replicas.now replica.now) }
{
    replicas.get(replica).is_some()
}

fn insert_new(
    replicas: &mut BTreeMap<Replica, Runs>,
    replica: Replica,
    runs: Runs,
) -> Result<(), AllocError>
    ensures ok { OnOk result (ChangesAt replicas.old replicas.new replica (Some runs)) }
    ensures err { OnErr result (IsUnchanged replicas.old replicas.new) }
{
    match replicas.insert(replica, runs) {
        Ok(_) => Ok(()),
        Err(_) => Err(AllocError),
    }
}

pub(crate) fn take_out(replicas: &mut BTreeMap<Replica, Runs>, replica: &Replica)
    ensures { ChangesAt replicas.old replicas.new replica.now None }
{
    replicas.remove(replica);
}

// Adds the counts above `from`, up to `to`.
pub(crate) fn put_range(
    replicas: &mut BTreeMap<Replica, Runs>,
    alloc: Global,
    replica: Replica,
    from: u64,
    to: u64,
) -> Result<(), AllocError>
    requires order { from < to }
    requires compact { IsCompact replicas.old }
    ensures compact { IsCompact replicas.new }
    ensures ok { OnOk result (AddsDots replicas.old replicas.new (in_range replica from to)) }
    ensures err { OnErr result (SameDots replicas.old replicas.new) }
{
    if let Some(runs) = replicas.get_mut(&replica) {
        return runs.add_range(from, to);
    }
    let mut runs = Runs::new(alloc);
    runs.add_range(from, to)?;
    insert_new(replicas, replica, runs)
}

// Makes sure that the runs of a replica need no memory. After a refusal some of the room is there.
fn room_in(
    replicas: &mut BTreeMap<Replica, Runs>,
    alloc: Global,
    replica: &Replica,
    runs: &Runs,
) -> Result<(), AllocError>
    requires apart { AllApart replicas.old }
    requires some { AllHaveRuns replicas.old }
    ensures some { AllHaveRuns replicas.new }
    ensures opens { OpensAll replicas.old replicas.new (begun_by replica.now runs.now) }
    ensures ok { OnOk result (HasRoomAt replicas.new (begun_by replica.now runs.now)) }
{
    if runs.is_empty() {
        return Ok(());
    }
    if let Some(own) = replicas.get_mut(replica) {
        return own.make_room_for(runs);
    }
    let mut own = Runs::new(alloc);
    own.make_room_for(runs)?;
    insert_new(replicas, *replica, own)
}

fn room_for_all(
    replicas: &mut BTreeMap<Replica, Runs>,
    alloc: Global,
    others: &BTreeMap<Replica, Runs>,
) -> Result<(), AllocError>
    requires apart { AllApart replicas.old }
    requires some { AllHaveRuns replicas.old }
    ensures some { AllHaveRuns replicas.new }
    ensures opens { OpensAll replicas.old replicas.new (begun_in others.now) }
    ensures ok { OnOk result (HasRoomAt replicas.new (begun_in others.now)) }
{
    for (replica, runs) in others {
        room_in(replicas, alloc, replica, runs)?;
    }
    Ok(())
}

// Adds the runs of a replica, for which there is room.
fn fill_in(replicas: &mut BTreeMap<Replica, Runs>, replica: &Replica, runs: &Runs)
    requires apart { AllApart replicas.old }
    requires some { AllHaveRuns replicas.old }
    requires long { AreLong runs.now }
    requires room { HasRoomAt replicas.old (begun_by replica.now runs.now) }
    ensures some { AllHaveRuns replicas.new }
    ensures fills { FillsAll replicas.old replicas.new (held_by replica.now runs.now) (begun_by replica.now runs.now) }
{
    if let Some(own) = replicas.get_mut(replica) {
        own.fill_from(runs);
    }
}

fn fill_all(replicas: &mut BTreeMap<Replica, Runs>, others: &BTreeMap<Replica, Runs>)
    requires apart { AllApart replicas.old }
    requires some { AllHaveRuns replicas.old }
    requires others { IsCompact others.now }
    requires room { HasRoomAt replicas.old (begun_in others.now) }
    ensures some { AllHaveRuns replicas.new }
    ensures fills { FillsAll replicas.old replicas.new (held_in others.now) (begun_in others.now) }
{
    for (replica, runs) in others {
        fill_in(replicas, replica, runs);
    }
}

// Takes the hollow runs out, and answers whether none is left.
fn sweep_runs(replicas: &mut BTreeMap<Replica, Runs>, replica: &Replica, runs: &Runs) -> bool
    requires apart { AllApart replicas.old }
    requires some { AllHaveRuns replicas.old }
    ensures some { OthersHaveRuns replicas.new (λ q. result && same_replica replica.now q) }
    ensures none { result ≡ true → NoneHasRuns replicas.new (same_replica replica.now) }
    ensures sweeps { SweepsAll replicas.old replicas.new (begun_by replica.now runs.now) }
{
    match replicas.get_mut(replica) {
        Some(own) => {
            own.sweep_from(runs);
            own.is_empty()
        }
        None => false,
    }
}

// Takes the hollow runs of a replica out, and the replica where none is left.
fn sweep_in(replicas: &mut BTreeMap<Replica, Runs>, replica: &Replica, runs: &Runs)
    requires apart { AllApart replicas.old }
    requires some { AllHaveRuns replicas.old }
    ensures some { AllHaveRuns replicas.new }
    ensures sweeps { SweepsAll replicas.old replicas.new (begun_by replica.now runs.now) }
{
    if sweep_runs(replicas, replica, runs) {
        take_out(replicas, replica);
    }
}

fn sweep_all(replicas: &mut BTreeMap<Replica, Runs>, others: &BTreeMap<Replica, Runs>)
    requires apart { AllApart replicas.old }
    requires some { AllHaveRuns replicas.old }
    ensures some { AllHaveRuns replicas.new }
    ensures sweeps { SweepsAll replicas.old replicas.new (begun_in others.now) }
{
    for (replica, runs) in others {
        sweep_in(replicas, replica, runs);
    }
}

// Makes room for the runs of `others`, or takes out again what room it got.
pub(crate) fn open_all(
    replicas: &mut BTreeMap<Replica, Runs>,
    alloc: Global,
    others: &BTreeMap<Replica, Runs>,
) -> Result<(), AllocError>
    requires compact { IsCompact replicas.old }
    requires others { IsCompact others.now }
    ensures ok { OnOk result (HasRoomFor replicas.new others.now) }
    ensures err { OnErr result (IsCompact replicas.new) }
    ensures same { SameDots replicas.old replicas.new }
{
    match room_for_all(replicas, alloc, others) {
        Ok(()) => Ok(()),
        Err(e) => {
            sweep_all(replicas, others);
            Err(e)
        }
    }
}

// Adds the runs of `others`, for which there is room.
pub(crate) fn fill_room(replicas: &mut BTreeMap<Replica, Runs>, others: &BTreeMap<Replica, Runs>)
    requires { HasRoomFor replicas.old others.now }
    ensures compact { IsCompact replicas.new }
    ensures joined { AddsDots replicas.old replicas.new (has_dot others.now) }
{
    fill_all(replicas, others);
}

// Takes the room for the runs of `others` out.
pub(crate) fn close_room(replicas: &mut BTreeMap<Replica, Runs>, others: &BTreeMap<Replica, Runs>)
    requires { HasRoomFor replicas.old others.now }
    ensures compact { IsCompact replicas.new }
    ensures same { SameDots replicas.old replicas.new }
{
    sweep_all(replicas, others);
}

// Adds the runs of `others`: first the room for all, then the runs.
pub(crate) fn join_all(
    replicas: &mut BTreeMap<Replica, Runs>,
    alloc: Global,
    others: &BTreeMap<Replica, Runs>,
) -> Result<(), AllocError>
    requires compact { IsCompact replicas.old }
    requires others { IsCompact others.now }
    ensures compact { IsCompact replicas.new }
    ensures ok { OnOk result (AddsDots replicas.old replicas.new (has_dot others.now)) }
    ensures err { OnErr result (SameDots replicas.old replicas.new) }
{
    open_all(replicas, alloc, others)?;
    fill_room(replicas, others);
    Ok(())
}
