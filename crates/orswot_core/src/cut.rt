// A told value cut down to some replicas.
ghost use Rattle.std.specs.Prelude.{◌≡◌, ◌++◌, ◌∷◌, [], Bool, IfOk, OnOk};
ghost use Rattle.std.specs.List.{filter};
ghost use Rattle.presence_base.specs.declared.dots.Replica.{Replica as ReplicaValue};

use presence_base::{Dot, Replica, Row};
use std::alloc::{AllocError, Global};

/// A test of replicas: those of which a told value is taken in.
pub trait ReplicaTest {
    ghost picks: { Self → ReplicaValue → Bool };

    fn takes(&self, replica: &Replica) -> bool
        ensures { result ≡ picks self.now replica.now };
}

pub(crate) fn cut_ranges<T: ReplicaTest>(
    alloc: Global,
    ranges: &[(Replica, u64, u64)],
    test: &T,
) -> Result<Vec<(Replica, u64, u64)>, AllocError>
    ensures { IfOk result (λ v. v.items ≡ filter (λ g. T.picks test.now g.0) ranges.now) }
{
    let mut kept = Vec::new(alloc);
    for range in ranges {
        if test.takes(&range.0) {
            kept.push(*range)?;
        }
    }
    Ok(kept)
}

pub(crate) fn cut_extras<T: ReplicaTest>(
    alloc: Global,
    extras: &[Dot],
    test: &T,
) -> Result<Vec<Dot>, AllocError>
    ensures { IfOk result (λ v. v.items ≡ filter (λ d. T.picks test.now d.replica) extras.now) }
{
    let mut kept = Vec::new(alloc);
    for dot in extras {
        if test.takes(&dot.replica) {
            kept.push(*dot)?;
        }
    }
    Ok(kept)
}

fn push_clone(rows: &mut Vec<(Dot, Row)>, row: &(Dot, Row)) -> Result<(), AllocError>
    ensures { OnOk result (rows.new.items ≡ rows.old.items ++ row.now ∷ []) }
{
    let row = row.clone()?;
    rows.push(row)?;
    Ok(())
}

pub(crate) fn cut_rows<T: ReplicaTest>(
    alloc: Global,
    rows: &[(Dot, Row)],
    test: &T,
) -> Result<Vec<(Dot, Row)>, AllocError>
    ensures { IfOk result (λ v. v.items ≡ filter (λ x. T.picks test.now x.0.replica) rows.now) }
{
    let mut kept = Vec::new(alloc);
    for row in rows {
        if test.takes(&row.0.replica) {
            push_clone(&mut kept, row)?;
        }
    }
    Ok(kept)
}
