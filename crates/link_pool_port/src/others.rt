//! What is told of other nodes than this one: nobody else tells of its own lives.
ghost use Rattle.std.specs.Prelude.{◌≡◌, IfOk};
ghost use Rattle.link_pool_port.specs.Others.{is_in_dots, is_in_ranges, is_in_rows, is_life_of, highest_in, life_in, of_others, tells_of as has_lives};

use orswot_core::{ReplicaTest, Told};
use presence_base::{Dot, Replica, Row};
use presence_journal::SharedTold;
use std::alloc::{AllocError, Global};

// Whether a replica is a life of this node.
fn is_life(own: &Replica, replica: &Replica) -> bool
    ensures { result ≡ is_life_of own.now replica.now }
{
    replica.name.cmp(&own.name).is_eq()
}

// The lives of other nodes than the one of which this is a life.
#[derive(Clone, Copy)]
struct OtherNodes {
    own: Replica,
}

impl ReplicaTest for OtherNodes {
    ghost use Rattle.link_pool_port.specs.Others.{is_other};

    ghost picks = { λ others. is_other others.own };

    fn takes(&self, replica: &Replica) -> bool {
        !is_life(&self.own, replica)
    }
}

fn in_ranges(own: &Replica, ranges: &[(Replica, u64, u64)]) -> bool
    ensures { result ≡ is_in_ranges own.now ranges.now }
{
    ranges.iter().any(|range| is_life(own, &range.0))
}

fn in_dots(own: &Replica, dots: &[Dot]) -> bool
    ensures { result ≡ is_in_dots own.now dots.now }
{
    dots.iter().any(|dot| is_life(own, &dot.replica))
}

fn in_rows(own: &Replica, rows: &[(Dot, Row)]) -> bool
    ensures { result ≡ is_in_rows own.now rows.now }
{
    rows.iter().any(|row| is_life(own, &row.0.replica))
}

// Whether a life of this node is told of.
fn tells_of(own: &Replica, told: &Told) -> bool
    ensures { result ≡ has_lives own.now told.now }
{
    in_ranges(own, told.ranges()) || in_dots(own, told.extras()) || in_rows(own, told.live())
}

// What is told of other nodes: all of it where nothing else is told, or no node is to be told apart.
#[tactic(auto, using(crate::proofs::OtherLemmas::all_of_others))]
fn cut_to_others(alloc: Global, own: &Option<Replica>, told: Told) -> Result<Told, AllocError>
    ensures { IfOk result (λ cut. cut ≡ of_others own.now told) }
{
    let Some(own) = own else {
        return Ok(told);
    };
    if !tells_of(own, &told) {
        return Ok(told);
    }
    told.cut_to(alloc, &OtherNodes { own: *own })
}

/// What is told of other nodes, as an entry shares it.
pub(crate) fn shared_of_others(
    alloc: Global,
    own: &Option<Replica>,
    told: Told,
) -> Result<SharedTold, AllocError>
    ensures { IfOk result (λ shared. shared ≡ of_others own.now told) }
{
    let others = cut_to_others(alloc, own, told)?;
    SharedTold::new(alloc, others)
}

// The incarnation of a life of this node that is above its own by no more than that, and of any other replica 0.
fn near_life(own: &Replica, most_ahead: u64, replica: &Replica) -> u64
    ensures { result ≡ life_in own.now most_ahead replica.now }
{
    let ahead = replica.incarnation.saturating_sub(own.incarnation);
    if is_life(own, replica) && ahead <= most_ahead {
        replica.incarnation
    } else {
        0
    }
}

/// The highest incarnation of this node's name that is told of, or 0. One that is further ahead of the node's own hides no other.
pub(crate) fn highest_life(own: &Replica, most_ahead: u64, told: &Told) -> u64
    ensures { result ≡ highest_in own.now most_ahead told.now.ranges }
{
    let mut highest = 0;
    for range in told.ranges() {
        highest = near_life(own, most_ahead, &range.0).max(highest);
    }
    highest
}
