//! `check_receipts`: whether given receipts and journals agree.
ghost use Rattle.std.specs.Prelude.{◌≡◌, ◌≢◌, ◌<◌, ◌^◌, Some, false, length, map, IfOk, OnOk};
ghost use Rattle.shard_pool_settled.specs.Settled.{is_entry, is_told, all_told, seats_told, rises, rises_at, seats_rise, count_at, receipts_at, are_told, are_counted, Agree, CountsDiffer};

use crate::alike_outcomes::are_outcomes_alike;
use crate::alike_steps::are_steps_alike;
use crate::fault::SettleFault;
use crate::receipt::Receipt;
use crate::seated::{numbered_entry, seated_entries};
use presence_journal::{Entry, Journal};
use std::alloc::Global;

// Whether the entry has the seat, and the step and outcome of its receipt.
fn is_its_entry(seat: u64, receipt: &Receipt, entry: &Entry) -> bool
    ensures { result ≡ is_entry seat receipt.now (Some entry.now) }
{
    let Some(by) = entry.seat else {
        return false;
    };
    u64::from(by) == seat
        && are_steps_alike(&receipt.step, &entry.step)
        && are_outcomes_alike(&receipt.outcome, &entry.outcome)
}

// Whether the receipt has its entry.
fn has_entry(journals: &[Journal], seat: u64, receipt: &Receipt) -> bool
    ensures { result ≡ is_told journals.now seat receipt.now }
{
    let Some(journal) = journals.get(receipt.shard as usize) else {
        return false;
    };
    let Some(entry) = numbered_entry(journal, receipt.number) else {
        return false;
    };
    is_its_entry(seat, receipt, entry)
}

// Whether each receipt of a seat has its entry.
fn have_entries(journals: &[Journal], seat: u64, receipts: &[Receipt]) -> bool
    ensures { result ≡ all_told journals.now seat receipts.now }
{
    for receipt in receipts {
        if !has_entry(journals, seat, receipt) {
            return false;
        }
    }
    true
}

// Whether each receipt of each seat has its entry.
fn all_have_entries(journals: &[Journal], receipts: &[Vec<Receipt>]) -> bool
    ensures { result ≡ seats_told journals.now 0 (map (λ v. v.items) receipts.now) }
{
    for (seat, of_seat) in receipts.iter().enumerate() {
        if !have_entries(journals, seat as u64, of_seat.as_slice()) {
            return false;
        }
    }
    true
}

// Whether the numbers at a shard rise.
fn do_rise(shard: usize, receipts: &[Receipt]) -> bool
    ensures { result ≡ rises shard 0 receipts.now }
{
    let mut last = 0;
    for receipt in receipts {
        if receipt.shard as usize == shard {
            if receipt.number <= last {
                return false;
            }
            last = receipt.number;
        }
    }
    true
}

// Whether the numbers rise at each of so many shards.
fn do_rise_at(shards: usize, receipts: &[Receipt]) -> bool
    ensures { result ≡ rises_at shards receipts.now }
{
    let mut all = true;
    for shard in 0..shards {
        all = all && do_rise(shard, receipts);
    }
    all
}

// Whether the numbers of each seat rise at each of so many shards.
fn all_rise(shards: usize, receipts: &[Vec<Receipt>]) -> bool
    ensures { result ≡ seats_rise shards (map (λ v. v.items) receipts.now) }
{
    for of_seat in receipts {
        if !do_rise_at(shards, of_seat.as_slice()) {
            return false;
        }
    }
    true
}

// How many of a seat's receipts are of a shard.
fn number_at(shard: usize, receipts: &[Receipt]) -> u64
    ensures number { result ≡ count_at shard receipts.now }
    ensures few { result < 2 ^ 64 }
{
    let mut count = 0;
    for receipt in receipts {
        if receipt.shard as usize == shard {
            count += 1;
        }
    }
    count
}

// How many receipts of all seats are of a shard.
fn total_at(shard: usize, receipts: &[Vec<Receipt>]) -> u128
    ensures { result ≡ receipts_at shard (map (λ v. v.items) receipts.now) }
{
    let mut total = 0u128;
    for of_seat in receipts {
        total += u128::from(number_at(shard, of_seat.as_slice()));
    }
    total
}

// Whether each shard has as many seated entries as there are receipts of it.
fn all_are_counted(journals: &[Journal], receipts: &[Vec<Receipt>]) -> bool
    ensures { result ≡ are_counted 0 journals.now (map (λ v. v.items) receipts.now) }
{
    for (shard, journal) in journals.iter().enumerate() {
        if u128::from(seated_entries(journal)) != total_at(shard, receipts) {
            return false;
        }
    }
    true
}

/// Whether the receipts, those of seat i at place i, and the journals, that of shard i at place i, agree:
/// each receipt has its entry, the numbers of each seat rise at each shard, and each shard has as many
/// seated entries above its Start as there are receipts of it.
///
/// It refuses in this order: `NoSuchEntry`, `CountDiffers`; it
/// takes no memory. It looks at the lists alone: it is another's to know that no seat is missing.
pub fn check_receipts(
    _alloc: Global,
    journals: &[Journal],
    receipts: &[Vec<Receipt>],
) -> Result<(), SettleFault>
    ensures agree { OnOk result (Agree journals.now (map (λ v. v.items) receipts.now)) }
    ensures untold { result ≡ Err SettleFault.NoSuchEntry
        → are_told journals.now (map (λ v. v.items) receipts.now) ≡ false }
    ensures differs { result ≡ Err SettleFault.CountDiffers
        → CountsDiffer journals.now (map (λ v. v.items) receipts.now) }
    ensures missing { result ≢ Err SettleFault.MissingSeat }
    ensures memory { result ≢ Err SettleFault.OutOfMemory }
{
    if !all_have_entries(journals, receipts) {
        return Err(SettleFault::NoSuchEntry);
    }
    if !all_rise(journals.len(), receipts) {
        return Err(SettleFault::NoSuchEntry);
    }
    if !all_are_counted(journals, receipts) {
        return Err(SettleFault::CountDiffers);
    }
    Ok(())
}
