//! What a period asks of the shards: time passes, and what they did is cut off.
ghost use Rattle.std.specs.Prelude.{◌≡◌, ◌<◌};

use crate::links::Links;
use delta_range::Delta;
use shard_pool::{Gate, Lanes, Pool};
use std::sync::{Arc, Wait};

// What a shard did since the last cut. What is refused waits for the next.
fn cut<R, G, L>(rt: &R, links: &Links, pool: &Pool<G, L>, shard: u32) -> Option<Arc<Delta>>
where
    R: Wait,
    G: Gate,
    L: Lanes,
    requires { shard < pool.now.shards }
{
    let Ok(cut) = pool.cut(rt, links.alloc, shard) else {
        return None;
    };
    Arc::new(links.alloc, cut).ok()
}

/// What each shard did since the last cut.
pub(crate) fn cut_all<R, G, L>(rt: &R, links: &Links, pool: &Pool<G, L>) -> Vec<(u32, Arc<Delta>)>
where
    R: Wait,
    G: Gate,
    L: Lanes,
    requires { links.now.shards ≡ pool.now.shards }
{
    let mut cuts = Vec::new(links.alloc);
    for shard in 0..links.shards {
        if let Some(cut) = cut(rt, links, pool, shard) {
            let _lost = cuts.push((shard, cut));
        }
    }
    cuts
}

/// Lets time pass at each shard, up to a time in milliseconds. What is refused waits for the next period.
pub(crate) fn pass_all<R, G, L>(rt: &R, links: &Links, pool: &Pool<G, L>, now: u64)
where
    R: Wait,
    G: Gate,
    L: Lanes,
    requires { links.now.shards ≡ pool.now.shards }
{
    for shard in 0..links.shards {
        let _later = pool.tick(rt, links.alloc, shard, now);
    }
}
