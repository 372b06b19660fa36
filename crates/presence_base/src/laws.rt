//! Laws of names, replicas and dots: their limits, and that their order is the definitions'.

ghost use Rattle.std.specs.Prelude.{◌≡◌};
ghost use Rattle.presence_base.specs.Limits.{LimitsAreThese};
ghost use Rattle.presence_base.specs.Order.{text_cmp, replica_cmp, dot_cmp};

use crate::dots::{Dot, Replica};
use crate::names::NodeName;
use std::cmp::Ordering;

/// The limits of names, counts, metas and shards.
pub fn limits_are_these()
    ensures { LimitsAreThese }
{}

/// Names are ordered by their bytes.
pub fn order_of_names(first: &NodeName, second: &NodeName) -> Ordering
    ensures { result ≡ text_cmp first.now second.now }
{
    first.cmp(second)
}

/// Replicas are ordered by name, then by incarnation.
pub fn order_of_replicas(first: &Replica, second: &Replica) -> Ordering
    ensures { result ≡ replica_cmp first.now second.now }
{
    first.cmp(second)
}

/// Dots are ordered by replica, then by count.
pub fn order_of_dots(first: &Dot, second: &Dot) -> Ordering
    ensures { result ≡ dot_cmp first.now second.now }
{
    first.cmp(second)
}
