//! What is asked.
ghost use Rattle.std.specs.Prelude.{◌≡◌, IfOk, Decides, slice_get, option_copied};
ghost use Rattle.std.specs.FinMap as map;
ghost use Rattle.presence_journal.specs.History.{count};
ghost use Rattle.node_world.specs.Lives.{seen};
ghost use Rattle.node_world.specs.Asked.{life_in, listed_of, CaughtUpBy};
ghost use Rattle.node_world.specs.Claims.{IsCaughtUp};

use crate::life::Life;
use presence_base::{Dot, Replica, Row, Topic};
use presence_journal_walks::walk_list;
use replica_status::Status;
use std::alloc::{AllocError, Global};
use std::collections::BTreeMap;

// Whether a life is caught up with a replica that used so many counts.
#[tactic(auto, using(crate::proofs::Asked::asked))]
fn has_all(life: &Life, replica: &Replica, counts: u64) -> bool
    ensures { Decides result (IsCaughtUp life.now.history replica.now counts) }
{
    if life.status(replica) != Status::Up {
        return false;
    }
    counts <= life.top(replica)
}

// Whether a life is caught up with another one's.
fn is_level(life: &Life, replica: &Replica, owner: &Life) -> bool
    ensures { Decides result (IsCaughtUp life.now.history replica.now (count owner.now.history)) }
{
    has_all(life, replica, owner.count())
}

/// Whether the one life, if there is one, is caught up with the other, if there is one.
pub(crate) fn is_caught_up(life: Option<&Life>, owner: Option<&Life>, replica: &Replica) -> bool
    ensures { Decides result (CaughtUpBy (option_copied life.entry) (option_copied owner.entry) replica.now) }
{
    let Some(life) = life else {
        return false;
    };
    let Some(owner) = owner else {
        return false;
    };
    is_level(life, replica, owner)
}

/// The rows that a life, if there is one, has present on a topic.
pub(crate) fn list_of(
    life: Option<&Life>,
    alloc: Global,
    topic: &Topic,
) -> Result<Vec<(Dot, Row)>, AllocError>
    ensures { IfOk result (λ v. v.items ≡ listed_of (option_copied life.entry) topic.now) }
{
    match life {
        Some(life) => walk_list(alloc, life.journal(), topic),
        None => Ok(Vec::new(alloc)),
    }
}

/// The life of a replica.
#[tactic(auto, using(crate::proofs::WorldLifeFacts::seen_life))]
pub(crate) fn life_of<'a>(lives: &'a BTreeMap<Replica, Life>, replica: &Replica) -> Option<&'a Life>
    ensures { option_copied result ≡ map.get (seen lives.now) replica.now }
{
    lives.get(replica)
}

/// The present life of a node.
pub(crate) fn present_of<'a>(
    lives: &'a BTreeMap<Replica, Life>,
    present: &[Replica],
    node: usize,
) -> Option<&'a Life>
    ensures { option_copied result ≡ life_in (seen lives.now) (slice_get present.now node) }
{
    match present.get(node) {
        Some(own) => life_of(lives, own),
        None => None,
    }
}
