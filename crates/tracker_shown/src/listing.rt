// The rows that are kept between two ends.
ghost use Rattle.std.specs.Prelude.{◌≡◌, false, IfOk};
ghost use Rattle.std.specs.Ordering.{is_gt};
ghost use Rattle.std.specs.BTreeMap.{IsOrdered};
ghost use Rattle.tracker_shown.specs.Stands.{stand_cmp, topic_ends, key_ends, key_end};
ghost use Rattle.tracker_shown.specs.Listing.{dot_at, rows_between, Lists, everywhere, at_key};

use crate::stand::{Ends, Holder, Mark, Stand};
use presence_base::{Dot, Key, Row, Topic};
use std::alloc::{AllocError, Global};
use std::collections::BTreeMap;
use std::ops::Bound;

fn ends_of_topic(holder: Holder, topic: &Topic) -> Result<Ends, AllocError>
    ensures { IfOk result (λ e. e ≡ topic_ends holder topic.now) }
{
    let from = topic.clone()?;
    let to = topic.clone()?;
    Ok(Ends {
        first: Stand {
            holder,
            topic: from,
            key: Mark::First,
            dot: Mark::First,
        },
        last: Stand {
            holder,
            topic: to,
            key: Mark::Last,
            dot: Mark::Last,
        },
    })
}

fn end_of_key(holder: Holder, topic: &Topic, key: &Key, dot: Mark<Dot>) -> Result<Stand, AllocError>
    ensures { IfOk result (λ s. s ≡ key_end holder topic.now key.now dot) }
{
    let topic = topic.clone()?;
    let key = key.clone()?;
    Ok(Stand {
        holder,
        topic,
        key: Mark::At(key),
        dot,
    })
}

fn ends_of_key(holder: Holder, topic: &Topic, key: &Key) -> Result<Ends, AllocError>
    ensures { IfOk result (λ e. e ≡ key_ends holder topic.now key.now) }
{
    let first = end_of_key(holder, topic, key, Mark::First)?;
    let last = end_of_key(holder, topic, key, Mark::Last)?;
    Ok(Ends { first, last })
}

// The dot of a row that stands there.
fn dot_of(stand: &Stand) -> Option<Dot>
    ensures { result ≡ dot_at stand.now }
{
    match (&stand.key, &stand.dot) {
        (Mark::At(_), Mark::At(dot)) => Some(*dot),
        _ => None,
    }
}

// Copies of the rows between two ends, in order.
fn copy_between(
    alloc: Global,
    rows: &BTreeMap<Stand, Row>,
    ends: &Ends,
) -> Result<Vec<(Dot, Row)>, AllocError>
    requires { is_gt (stand_cmp ends.now.first ends.now.last) ≡ false }
    ensures rows { IfOk result (λ v. v.items ≡ rows_between ends.now rows.now) }
    ensures ordered { IsOrdered stand_cmp rows.now }
{
    let mut copies = Vec::new(alloc);
    for (stand, row) in rows.range((Bound::Included(&ends.first), Bound::Included(&ends.last))) {
        if let Some(dot) = dot_of(stand) {
            let row = row.clone()?;
            copies.push((dot, row))?;
        }
    }
    Ok(copies)
}

// The rows that are kept for a holder on a topic, in order of key and dot.
pub(crate) fn list_topic(
    alloc: Global,
    rows: &BTreeMap<Stand, Row>,
    holder: Holder,
    topic: &Topic,
) -> Result<Vec<(Dot, Row)>, AllocError>
    ensures { IfOk result (λ v. Lists rows.now holder topic.now everywhere v.items) }
{
    let ends = ends_of_topic(holder, topic)?;
    copy_between(alloc, rows, &ends)
}

// Those under one key.
pub(crate) fn list_key(
    alloc: Global,
    rows: &BTreeMap<Stand, Row>,
    holder: Holder,
    topic: &Topic,
    key: &Key,
) -> Result<Vec<(Dot, Row)>, AllocError>
    ensures { IfOk result (λ v. Lists rows.now holder topic.now (at_key key.now) v.items) }
{
    let ends = ends_of_key(holder, topic, key)?;
    copy_between(alloc, rows, &ends)
}
