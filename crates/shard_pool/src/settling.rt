//! `settle`: whether receipts and journals agree.
ghost use Rattle.std.specs.Prelude.{◌≡◌, All, List, [], ◌∷◌, ◌++◌, ℕ, ◌+◌, ◌<◌, ◌≤◌, cond, length, map, take, IfOk, IfErr, OnOk, true, false, ◌⊎◌};
ghost use Rattle.presence_journal.specs.History.{History};
ghost use Rattle.shard_pool_settled.specs.Seated.{one_if};
ghost use Rattle.shard_pool_settled.specs.Settled.{Agree, CountsDiffer, are_told};
ghost use Rattle.shard_pool.specs.Lines.{IsOfLane};
ghost use Rattle.shard_pool.specs.Unseated.{IsOf};
ghost use Rattle.shard_pool.specs.Seats.{IsOfShardAt};
ghost use Rattle.shard_pool.specs.Settling.{has_seat, found, by_number, has_seats, IsMissing, AreOf, ArePlaced};

use crate::gate::Gate;
use crate::lane::Lane;
use crate::lanes::Lanes;
use crate::locked::Locked;
use crate::pool::Pool;
use crate::seat::Seat;
use presence_base::Replica;
use presence_journal::Journal;
use shard_pool_settled::{Receipt, SettleFault, check_receipts};
use std::alloc::Global;
use std::sync::{Mutex, Wait};

// The receipts of the seat of a number.
fn receipts_of_number<L: Lanes>(
    alloc: Global,
    seats: &[Seat<L>],
    number: u32,
) -> Result<Vec<Receipt>, SettleFault>
    ensures found { IfOk result (λ v. v.items ≡ found seats.now number) }
    ensures there { OnOk result (has_seat seats.now number ≡ true) }
    ensures missing { result ≡ Err SettleFault.MissingSeat → has_seat seats.now number ≡ false }
    ensures fault { IfErr result (λ e. (e ≡ SettleFault.MissingSeat) ⊎ (e ≡ SettleFault.OutOfMemory)) }
{
    for seat in seats {
        if seat.number() == number {
            return match seat.receipts(alloc) {
                Ok(receipts) => Ok(receipts),
                Err(_) => Err(SettleFault::OutOfMemory),
            };
        }
    }
    Err(SettleFault::MissingSeat)
}

// The receipts of the seats below a number, in order.
fn receipts_by_number<L: Lanes>(
    alloc: Global,
    seats: &[Seat<L>],
    count: u32,
) -> Result<Vec<Vec<Receipt>>, SettleFault>
    ensures found { IfOk result (λ v. map (λ r. r.items) v.items ≡ by_number seats.now count) }
    ensures there { OnOk result (has_seats seats.now count ≡ true) }
    ensures missing { result ≡ Err SettleFault.MissingSeat → IsMissing seats.now count }
    ensures fault { IfErr result (λ e. (e ≡ SettleFault.MissingSeat) ⊎ (e ≡ SettleFault.OutOfMemory)) }
{
    let mut all = Vec::new(alloc);
    for number in 0..count {
        let receipts = receipts_of_number(alloc, seats, number)?;
        if all.push(receipts).is_err() {
            return Err(SettleFault::OutOfMemory);
        }
    }
    Ok(all)
}

/// Whether so many seats, those numbered from 0, are all here, and agree with the journals.
///
/// It refuses in this order: `MissingSeat`, `NoSuchEntry`, `CountDiffers`; `OutOfMemory` at any point.
pub fn check_seats<L: Lanes>(
    alloc: Global,
    journals: &[Journal],
    count: u32,
    seats: &[Seat<L>],
) -> Result<(), SettleFault>
    ensures there { OnOk result (has_seats seats.now count ≡ true) }
    ensures agree { OnOk result (Agree journals.now (by_number seats.now count)) }
    ensures missing { result ≡ Err SettleFault.MissingSeat → IsMissing seats.now count }
    ensures untold { result ≡ Err SettleFault.NoSuchEntry → are_told journals.now (by_number seats.now count) ≡ false }
    ensures untold_here { result ≡ Err SettleFault.NoSuchEntry → has_seats seats.now count ≡ true }
    ensures differs { result ≡ Err SettleFault.CountDiffers → CountsDiffer journals.now (by_number seats.now count) }
    ensures differs_here { result ≡ Err SettleFault.CountDiffers → has_seats seats.now count ≡ true }
{
    let receipts = receipts_by_number(alloc, seats, count)?;
    check_receipts(alloc, journals, receipts.as_slice())
}

// A journal out of its lock.
fn taken_out<K: Lane>(shard: Mutex<Locked<K>>) -> Journal
    ensures journal { IsOf K.node result }
    ensures lane { IsOfLane K.begins result }
{
    let locked = shard.into_inner();
    let _journal = locked.journal();
    locked.into_journal()
}

// Puts the journal behind the others, where it is of a shard that is used. The replica's name is a proof's.
#[tactic(auto, using(crate::proofs::Settled::settled))]
fn put_if(
    used: bool,
    journals: &mut Vec<Journal>,
    own: &Replica,
    journal: Journal,
) -> Result<(), SettleFault>
    requires before { All (IsOf own.now.name) journals.old.items }
    requires one { IsOf own.now.name journal }
    ensures all { OnOk result (All (IsOf own.now.name) journals.new.items) }
    ensures length { OnOk result (length journals.new.items ≡ length journals.old.items + one_if used) }
    ensures behind { OnOk result (journals.new.items ≡ journals.old.items ++ cond used (journal ∷ []) []) }
    ensures err { IfErr result (λ e. e ≡ SettleFault.OutOfMemory) }
{
    if !used {
        return Ok(());
    }
    match journals.push(journal) {
        Ok(()) => Ok(()),
        Err(_) => Err(SettleFault::OutOfMemory),
    }
}

// The journals of the shards that are used, in order. Their order is a proof's.
#[tactic(auto, using(crate::proofs::Settled::in_order))]
fn journals_of(
    alloc: Global,
    own: &Replica,
    shards: u32,
    first: Journal,
    second: Journal,
    third: Journal,
    fourth: Journal,
) -> Result<Vec<Journal>, SettleFault>
    requires shards { (0 < shards) × (shards ≤ 4) }
    requires first { IsOf own.now.name first }
    requires second { IsOf own.now.name second }
    requires third { IsOf own.now.name third }
    requires fourth { IsOf own.now.name fourth }
    ensures ok { IfOk result (λ js. AreOf own.now.name shards js.items) }
    ensures order { IfOk result (λ js. js.items ≡ take shards (first ∷ second ∷ third ∷ fourth ∷ [])) }
    ensures err { IfErr result (λ e. e ≡ SettleFault.OutOfMemory) }
{
    let mut all = Vec::new(alloc);
    put_if(true, &mut all, own, first)?;
    put_if(shards > 1, &mut all, own, second)?;
    put_if(shards > 2, &mut all, own, third)?;
    put_if(shards > 3, &mut all, own, fourth)?;
    Ok(all)
}

impl<G: Gate + Drop, L: Lanes> Pool<G, L> {
    /// The journals out of their locks, where the seats of the pool are all here and agree with them.
    ///
    /// It refuses as `check_seats` does, and then hands nothing back: of the journals that it found no
    /// more can be said than that they were legal.
    pub fn settle<R: Wait>(
        self,
        _rt: &R,
        alloc: Global,
        seats: Vec<Seat<L>>,
    ) -> Result<Vec<Journal>, SettleFault>
        ensures journals { IfOk result (λ js. AreOf self.own.name self.shards js.items) }
        ensures places { IfOk result (λ js. ArePlaced (IsOfShardAt self.own.name L.begins) 0 js.items) }
        ensures there { OnOk result (has_seats seats.items self.seats ≡ true) }
        ensures agree { IfOk result (λ js. Agree js.items (by_number seats.items self.seats)) }
        ensures missing { result ≡ Err SettleFault.MissingSeat → IsMissing seats.items self.seats }
        ensures untold { result ≡ Err SettleFault.NoSuchEntry → (js : List History)
            × AreOf self.own.name self.shards js × (are_told js (by_number seats.items self.seats) ≡ false) }
        ensures untold_here { result ≡ Err SettleFault.NoSuchEntry → has_seats seats.items self.seats ≡ true }
        ensures differs { result ≡ Err SettleFault.CountDiffers → (js : List History)
            × AreOf self.own.name self.shards js × CountsDiffer js (by_number seats.items self.seats) }
        ensures differs_here { result ≡ Err SettleFault.CountDiffers → has_seats seats.items self.seats ≡ true }
    {
        let Pool {
            own,
            shards,
            seats: count,
            gate: _,
            first,
            second,
            third,
            fourth,
        } = self;
        let first = taken_out(first);
        let second = taken_out(second);
        let third = taken_out(third);
        let fourth = taken_out(fourth);
        let journals = journals_of(alloc, &own, shards, first, second, third, fourth)?;
        check_seats(alloc, journals.as_slice(), count, seats.as_slice())?;
        Ok(journals)
    }
}
