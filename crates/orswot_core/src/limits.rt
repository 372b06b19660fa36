//! Limits of dots, rows and ranges.
ghost use Rattle.std.specs.Prelude.{◌≡◌, Option};
ghost use Rattle.std.specs.List.{list_all};
ghost use Rattle.presence_base.specs.declared.dots.Dot.{Dot as DotValue};
ghost use Rattle.orswot_core.specs.Limits.{is_count, is_dot, is_prev, is_row, is_range};
ghost use Rattle.orswot_core.specs.Checks.{is_forward};

use presence_base::{Dot, MAX_COUNT, Replica, Row};

fn is_count_within(count: u64) -> bool
    ensures { result ≡ is_count count }
{
    count >= 1 && count <= MAX_COUNT
}

pub(crate) fn is_dot_within(dot: &Dot) -> bool
    ensures { result ≡ is_dot dot.now }
{
    is_count_within(dot.replica.incarnation) && is_count_within(dot.count)
}

fn is_prev_within(prev: &Option<Dot>) -> bool
    ensures { result ≡ is_prev prev.now }
{
    match prev {
        Some(dot) => is_dot_within(dot),
        None => true,
    }
}

pub(crate) fn is_row_within(row: &Row) -> bool
    ensures { result ≡ is_row row.now }
{
    row.pid <= MAX_COUNT && is_prev_within(&row.prev)
}

fn is_range_within(range: &(Replica, u64, u64)) -> bool
    ensures { result ≡ is_range range.now }
{
    is_count_within(range.0.incarnation) && range.1 <= MAX_COUNT && range.2 <= MAX_COUNT
}

pub(crate) fn are_ranges_within(ranges: &[(Replica, u64, u64)]) -> bool
    ensures { result ≡ list_all is_range ranges.now }
{
    ranges.iter().all(|range| is_range_within(range))
}

pub(crate) fn are_dots_within(dots: &[Dot]) -> bool
    ensures { result ≡ list_all is_dot dots.now }
{
    dots.iter().all(|dot| is_dot_within(dot))
}

pub(crate) fn are_ranges_forward(ranges: &[(Replica, u64, u64)]) -> bool
    ensures { result ≡ list_all is_forward ranges.now }
{
    ranges.iter().all(|range| range.1 <= range.2)
}
