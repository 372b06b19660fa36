//! What is told of the workers' seats in the end.
ghost use Rattle.std.specs.Prelude.{◌≡◌, IfSome};
ghost use Rattle.presence_node_main.specs.ServeEnds.{Settles, receipts_in};

use crate::end::ServeEnd;
use shard_pool::{Gate, Lanes, Pool, Seat};
use std::alloc::Global;
use std::sync::Wait;

// How many receipts the seats have, or none where there is no memory to count them.
fn receipts_of<L: Lanes>(alloc: Global, seats: &[Seat<L>]) -> Option<u64>
    ensures { IfSome result (λ count. count ≡ receipts_in seats.now) }
{
    let mut count: u64 = 0;
    for seat in seats {
        let receipts = seat.receipts(alloc).ok()?;
        count = count.checked_add(receipts.len() as u64)?;
    }
    Some(count)
}

/// Settles the seats of a pool with its journals. So many receipts are told only where they agree.
pub fn settled<R: Wait, G: Gate + Drop, L: Lanes>(
    rt: &R,
    alloc: Global,
    pool: Pool<G, L>,
    seats: Vec<Seat<L>>,
) -> ServeEnd
    ensures { Settles pool.own.name pool.shards pool.seats seats.items result }
{
    let Some(receipts) = receipts_of(alloc, seats.as_slice()) else {
        return ServeEnd::Memory;
    };
    match pool.settle(rt, alloc, seats) {
        Ok(_) => ServeEnd::Stopped(receipts),
        Err(fault) => ServeEnd::NotSettled(fault),
    }
}
