// The live rows of a range, found by the order of dots.
ghost use Rattle.std.specs.Prelude.{◌≡◌, true};
ghost use Rattle.std.specs.List.{filter};
ghost use Rattle.std.specs.List.Sorted.{IsStrictlySortedBy};
ghost use Rattle.std.specs.Map.{keys_of};
ghost use Rattle.presence_base.specs.Order.{dot_cmp};
ghost use Rattle.orswot_core.specs.Checks.{is_forward};
ghost use Rattle.orswot_core.specs.Telling.{range_has};

use presence_base::{Dot, Replica, Row};
use std::collections::BTreeMap;
use std::collections::btree_map::Range;
use std::ops::Bound;

pub(crate) fn rows_in_range<'a>(
    live: &'a BTreeMap<Dot, Row>,
    range: &(Replica, u64, u64),
) -> Range<'a, Dot, Row>
    requires { is_forward range.now ≡ true }
    ensures rows { result ≡ filter (λ e. range_has e.0 range.now) live.now.entries }
    ensures ordered { IsStrictlySortedBy dot_cmp (keys_of live.now.entries) }
{
    let low = Dot {
        replica: range.0,
        count: range.1,
    };
    let high = Dot {
        replica: range.0,
        count: range.2,
    };
    live.range((Bound::Excluded(low), Bound::Included(high)))
}
