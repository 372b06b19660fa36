// Rows put to their stands and taken out.
ghost use Rattle.std.specs.Prelude.{◌≡◌, IfOk, OnOk, OnErr, Some, None};
ghost use Rattle.presence_base.specs.Order.{same_replica};
ghost use Rattle.tracker_shown.specs.Stands.{stand, stand_of};
ghost use Rattle.tracker_shown.specs.Kept.{kept_at, IsPut, IsSame, IsSet, IsPartlySet};

use crate::stand::{Holder, Mark, Stand};
use presence_base::{Dot, Key, Replica, Row, Topic};
use std::alloc::AllocError;
use std::collections::BTreeMap;

fn stand_at(holder: Holder, topic: &Topic, key: &Key, dot: &Dot) -> Result<Stand, AllocError>
    ensures { IfOk result (λ s. s ≡ stand holder topic.now (record { key = key.now; dot = dot.now })) }
{
    let topic = topic.clone()?;
    let key = key.clone()?;
    Ok(Stand {
        holder,
        topic,
        key: Mark::At(key),
        dot: Mark::At(*dot),
    })
}

// The row that is kept for a holder under a dot.
pub(crate) fn row_at(
    rows: &BTreeMap<Stand, Row>,
    holder: Holder,
    topic: &Topic,
    key: &Key,
    dot: &Dot,
) -> Result<Option<Row>, AllocError>
    ensures { IfOk result (λ o. o ≡ kept_at rows.now holder topic.now (record { key = key.now; dot = dot.now })) }
{
    let stand = stand_at(holder, topic, key, dot)?;
    match rows.get(&stand) {
        Some(row) => Ok(Some(row.clone()?)),
        None => Ok(None),
    }
}

// Keeps a row for a holder.
pub(crate) fn put_for(
    rows: &mut BTreeMap<Stand, Row>,
    holder: Holder,
    dot: &Dot,
    row: &Row,
) -> Result<(), AllocError>
    ensures ok { OnOk result (IsPut rows.old rows.new (stand_of holder dot.now row.now) (Some row.now)) }
    ensures err { OnErr result (IsSame rows.old rows.new) }
{
    let stand = stand_at(holder, &row.topic, &row.key, dot)?;
    let row = row.clone()?;
    rows.insert(stand, row)?;
    Ok(())
}

// Keeps a row for a holder no longer.
fn take_for(
    rows: &mut BTreeMap<Stand, Row>,
    holder: Holder,
    dot: &Dot,
    row: &Row,
) -> Result<(), AllocError>
    ensures ok { OnOk result (IsPut rows.old rows.new (stand_of holder dot.now row.now) None) }
    ensures err { OnErr result (IsSame rows.old rows.new) }
{
    let stand = stand_at(holder, &row.topic, &row.key, dot)?;
    rows.remove(&stand);
    Ok(())
}

pub(crate) fn is_own(own: &Replica, dot: &Dot) -> bool
    ensures { result ≡ same_replica dot.now.replica own.now }
{
    dot.replica.cmp(own).is_eq()
}

// Keeps a row for all that see its topic, and where it is an own row for its session.
pub(crate) fn put_row(
    rows: &mut BTreeMap<Stand, Row>,
    own: &Replica,
    dot: &Dot,
    row: &Row,
) -> Result<(), AllocError>
    ensures ok { OnOk result (IsSet own.now dot.now row.now (Some row.now) rows.old rows.new) }
    ensures err { OnErr result (IsPartlySet own.now dot.now row.now (Some row.now) rows.old rows.new) }
{
    put_for(rows, Holder::Room, dot, row)?;
    if is_own(own, dot) {
        put_for(rows, Holder::Session(row.pid), dot, row)?;
    }
    Ok(())
}

// Keeps a row no longer.
pub(crate) fn take_row(
    rows: &mut BTreeMap<Stand, Row>,
    own: &Replica,
    dot: &Dot,
    row: &Row,
) -> Result<(), AllocError>
    ensures ok { OnOk result (IsSet own.now dot.now row.now None rows.old rows.new) }
    ensures err { OnErr result (IsPartlySet own.now dot.now row.now None rows.old rows.new) }
{
    take_for(rows, Holder::Room, dot, row)?;
    if is_own(own, dot) {
        take_for(rows, Holder::Session(row.pid), dot, row)?;
    }
    Ok(())
}
