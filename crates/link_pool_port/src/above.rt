//! Whether counts above one are told of a replica.
ghost use Rattle.std.specs.Prelude.{◌≡◌};
ghost use Rattle.link_pool_port.specs.Asking.{range_above, dot_above, ranges_above, dots_above, tells_above as has_above};

use orswot_core::Told;
use presence_base::{Dot, Replica};

fn is_range_above(replica: &Replica, count: u64, range: &(Replica, u64, u64)) -> bool
    ensures { result ≡ range_above replica.now count range.now }
{
    range.0.cmp(replica).is_eq() && count < range.2
}

fn is_dot_above(replica: &Replica, count: u64, dot: &Dot) -> bool
    ensures { result ≡ dot_above replica.now count dot.now }
{
    dot.replica.cmp(replica).is_eq() && count < dot.count
}

fn are_ranges_above(replica: &Replica, count: u64, ranges: &[(Replica, u64, u64)]) -> bool
    ensures { result ≡ ranges_above replica.now count ranges.now }
{
    ranges
        .iter()
        .any(|range| is_range_above(replica, count, range))
}

fn are_dots_above(replica: &Replica, count: u64, dots: &[Dot]) -> bool
    ensures { result ≡ dots_above replica.now count dots.now }
{
    dots.iter().any(|dot| is_dot_above(replica, count, dot))
}

/// Whether the told value covers any count of this replica above this one.
pub(crate) fn tells_above(replica: &Replica, count: u64, told: &Told) -> bool
    ensures { result ≡ has_above replica.now count told.now }
{
    are_ranges_above(replica, count, told.ranges()) || are_dots_above(replica, count, told.extras())
}
