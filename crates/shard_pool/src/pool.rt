//! The pool and its start.
ghost use Rattle.std.specs.Prelude.{◌≡◌, ◌+◌, ◌<◌, ◌≤◌, IfOk, IfErr};
ghost use Rattle.presence_base.specs.Refs.{IsCount};
ghost use Rattle.presence_journal.specs.History.{begun};
ghost use Rattle.tracker_shard.specs.declared.fault.ShardFault.TheVariants.{OutOfMemory};
ghost use Rattle.shard_pool.specs.Lanes.{AllBegin};
ghost use Rattle.shard_pool.specs.Seats.{new_seat, new_seats};

use crate::blanks::Blanks;
use crate::gate::Gate;
use crate::lane::Lane;
use crate::lanes::Lanes;
use crate::locked::Locked;
use crate::part::Part;
use crate::reply::PoolFault;
use crate::seat::Seat;
use presence_base::Replica;
use std::alloc::Global;
use std::sync::Mutex;
use std::sync::ledger::{Book, Share};

/// One to four shards of a node, each behind a lock of its own. All four are there; no topic is of those
/// that aren't used.
#[derive(Drop)]
pub struct Pool<G: Gate, L: Lanes> {
    pub(crate) own: Replica,
    pub(crate) shards: u32,
    pub(crate) seats: u32,
    pub(crate) gate: G,
    pub(crate) first: Mutex<Locked<L::First>>,
    pub(crate) second: Mutex<Locked<L::Second>>,
    pub(crate) third: Mutex<Locked<L::Third>>,
    pub(crate) fourth: Mutex<Locked<L::Fourth>>,
    ghost some: { (0 < shards) × (shards ≤ 4) },
    ghost few: { seats ≤ 64 },
    ghost one_node: { (L.First.node ≡ own.name) × (L.Second.node ≡ own.name) × (L.Third.node ≡ own.name)
        × (L.Fourth.node ≡ own.name) },
}

// A new shard of the replica, with the book of a new ledger.
fn new_locked<K: Lane>(alloc: Global, own: &Replica, calls: Book<K>) -> Locked<K>
    requires count { IsCount own.now.incarnation }
    requires book { calls.total ≡ 0 }
    requires node { own.now.name ≡ K.node }
    requires begins { K.begins (begun own.now) }
    ensures { result.shard ≡ begun own.now }
{
    Locked::new(alloc, *own, calls)
}

// The next seat, with a part of each ledger.
fn next_seat<L: Lanes>(
    alloc: Global,
    seat: u32,
    a: &mut Share<L::First>,
    b: &mut Share<L::Second>,
    c: &mut Share<L::Third>,
    d: &mut Share<L::Fourth>,
) -> Seat<L>
    requires parts { (0 < a.old.parts) × (0 < b.old.parts) × (0 < c.old.parts) × (0 < d.old.parts) }
    requires amounts { (a.old.amount ≡ 0) × (b.old.amount ≡ 0) × (c.old.amount ≡ 0) × (d.old.amount ≡ 0) }
    ensures seat { result ≡ new_seat seat }
    ensures a { (a.new.parts + 1 ≡ a.old.parts) × (a.new.amount ≡ 0) }
    ensures b { (b.new.parts + 1 ≡ b.old.parts) × (b.new.amount ≡ 0) }
    ensures c { (c.new.parts + 1 ≡ c.old.parts) × (c.new.amount ≡ 0) }
    ensures d { (d.new.parts + 1 ≡ d.old.parts) × (d.new.amount ≡ 0) }
{
    let first = Part::new(seat, 0, Vec::new(alloc), a.split_off(1, 0));
    let second = Part::new(seat, 1, Vec::new(alloc), b.split_off(1, 0));
    let third = Part::new(seat, 2, Vec::new(alloc), c.split_off(1, 0));
    let fourth = Part::new(seat, 3, Vec::new(alloc), d.split_off(1, 0));
    Seat::new(seat, first, second, third, fourth)
}

// A seat for each number from 0, with a part of each ledger.
fn all_seats<L: Lanes>(
    alloc: Global,
    seats: u32,
    a: Share<L::First>,
    b: Share<L::Second>,
    c: Share<L::Third>,
    d: Share<L::Fourth>,
) -> Result<Vec<Seat<L>>, PoolFault>
    requires parts { (a.parts ≡ seats) × (b.parts ≡ seats) × (c.parts ≡ seats) × (d.parts ≡ seats) }
    requires amounts { (a.amount ≡ 0) × (b.amount ≡ 0) × (c.amount ≡ 0) × (d.amount ≡ 0) }
    ensures seats { IfOk result (λ v. v.items ≡ new_seats seats) }
    ensures err { IfErr result (λ e. e ≡ OutOfMemory) }
{
    let (mut a, mut b, mut c, mut d) = (a, b, c, d);
    let mut all = Vec::new(alloc);
    for seat in 0..seats {
        let next = next_seat::<L>(alloc, seat, &mut a, &mut b, &mut c, &mut d);
        if all.push(next).is_err() {
            return Err(PoolFault::OutOfMemory);
        }
    }
    Ok(all)
}

// A pool over these shards, each of which begins with nothing.
fn new_pool<G: Gate, L: Lanes>(
    own: Replica,
    shards: u32,
    seats: u32,
    gate: G,
    first: Locked<L::First>,
    second: Locked<L::Second>,
    third: Locked<L::Third>,
    fourth: Locked<L::Fourth>,
) -> Pool<G, L>
    requires shards { (0 < shards) × (shards ≤ 4) }
    requires seats { seats ≤ 64 }
    requires node { (own.name ≡ L.First.node) × (own.name ≡ L.Second.node) × (own.name ≡ L.Third.node)
        × (own.name ≡ L.Fourth.node) }
    requires begun { (first.shard ≡ begun own) × (second.shard ≡ begun own) × (third.shard ≡ begun own)
        × (fourth.shard ≡ begun own) }
    ensures { (result.own ≡ own) × (result.shards ≡ shards) × (result.seats ≡ seats) }
{
    Pool {
        own,
        shards,
        seats,
        gate,
        first: Mutex::new(first),
        second: Mutex::new(second),
        third: Mutex::new(third),
        fourth: Mutex::new(fourth),
    }
}

impl<G: Gate + Drop, L: Lanes> Pool<G, L> {
    /// So many new shards of the replica, each of which begins with nothing, and a seat for each number from 0.
    ///
    /// Each blank has as many parts as there are seats. It refuses with `OutOfMemory` alone.
    pub fn start(
        alloc: Global,
        own: Replica,
        shards: u32,
        seats: u32,
        gate: G,
        blanks: Blanks,
    ) -> Result<(Self, Vec<Seat<L>>), PoolFault>
        requires shards { (0 < shards) × (shards ≤ 4) }
        requires seats { seats ≤ 64 }
        requires count { IsCount own.incarnation }
        requires first { (blanks.first.name ≡ L.First.name) × (blanks.first.parts ≡ L.First.parts)
            × (blanks.first.parts ≡ seats) × (own.name ≡ L.First.node) }
        requires second { (blanks.second.name ≡ L.Second.name) × (blanks.second.parts ≡ L.Second.parts)
            × (blanks.second.parts ≡ seats) × (own.name ≡ L.Second.node) }
        requires third { (blanks.third.name ≡ L.Third.name) × (blanks.third.parts ≡ L.Third.parts)
            × (blanks.third.parts ≡ seats) × (own.name ≡ L.Third.node) }
        requires fourth { (blanks.fourth.name ≡ L.Fourth.name) × (blanks.fourth.parts ≡ L.Fourth.parts)
            × (blanks.fourth.parts ≡ seats) × (own.name ≡ L.Fourth.node) }
        requires begins { AllBegin L.First.begins L.Second.begins L.Third.begins L.Fourth.begins (begun own) }
        ensures pool { IfOk result (λ r. (r.0.own ≡ own) × (r.0.shards ≡ shards) × (r.0.seats ≡ seats)) }
        ensures seats { IfOk result (λ r. r.1.items ≡ new_seats seats) }
        ensures err { IfErr result (λ e. e ≡ OutOfMemory) }
    {
        let Blanks {
            first,
            second,
            third,
            fourth,
        } = blanks;
        let (first, a) = first.open::<L::First>();
        let (second, b) = second.open::<L::Second>();
        let (third, c) = third.open::<L::Third>();
        let (fourth, d) = fourth.open::<L::Fourth>();
        let all = all_seats::<L>(alloc, seats, a, b, c, d)?;
        let first = new_locked(alloc, &own, first);
        let second = new_locked(alloc, &own, second);
        let third = new_locked(alloc, &own, third);
        let fourth = new_locked(alloc, &own, fourth);
        Ok((
            new_pool::<G, L>(own, shards, seats, gate, first, second, third, fourth),
            all,
        ))
    }
}
