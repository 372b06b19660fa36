//! The thread that lets time pass at the shards and cuts off what they did.
ghost use Rattle.std.specs.Prelude.{◌≡◌};

use crate::links::{Links, Wakes};
use crate::lives::pass_period;
use link_streams::Ticker;
use shard_pool::{Gate, Lanes, Pool};
use std::sync::Wait;
use std::time::Clock;

/// The period of the beats, in milliseconds.
pub(crate) const PERIOD_MILLISECONDS: u64 = 1_500;

/// Lets time pass at each shard, and posts what each did, once a period, until the links are to end.
pub(crate) fn tick<R, G, L, W>(rt: &R, links: &Links, pool: &Pool<G, L>, wakes: &W)
where
    R: Wait + Clock,
    G: Gate,
    L: Lanes,
    W: Wakes,
    requires { links.now.shards ≡ pool.now.shards }
{
    let mut ticker = Ticker::new(rt, PERIOD_MILLISECONDS);
    for _ in rt.forever() {
        if links.is_stopped() {
            break;
        }
        let now = ticker.next(rt);
        links.set_time(now);
        pass_period(rt, links, pool, wakes, now);
        if links.has_met() {
            wakes.look();
        }
        links.stopping.pause(rt, PERIOD_MILLISECONDS);
    }
}
