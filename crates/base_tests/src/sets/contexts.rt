//! Sets of dots as their runs.
ghost use Rattle.std.specs.Prelude.{◌≡◌};

use super::rows::replica;
use dot_context::Context;
use presence_base::{Dot, Replica};
use std::alloc::{AllocError, Global};
use std::test::Fail;

fn dot(replica: Replica, count: u64) -> Dot
    ensures { result.count ≡ count }
{
    Dot { replica, count }
}

// The tops, the vector and the runs of the cloud, of one replica.
type Seen = (Vec<u64>, Vec<u64>, Vec<(u64, u64)>);

fn seen(alloc: Global, context: &Context) -> Result<Seen, AllocError> {
    let tops = context.tops().map(|top| top.1).collect(alloc)?;
    let vector = context.ranges().map(|top| top.1).collect(alloc)?;
    let mut cloud = Vec::new(alloc);
    for (_, runs) in context.cloud() {
        for (from, to) in runs {
            cloud.push((*from, *to))?;
        }
    }
    Ok((tops, vector, cloud))
}

fn is_seen(
    alloc: Global,
    context: &Context,
    tops: &[u64],
    vector: &[u64],
    cloud: &[(u64, u64)],
) -> Result<bool, AllocError> {
    let seen = seen(alloc, context)?;
    Ok(seen.0.as_slice() == tops && seen.1.as_slice() == vector && seen.2.as_slice() == cloud)
}

#[test]
fn fills_the_gap(rt: HostRuntime) -> Result<(), Fail> {
    let alloc = rt.alloc();
    let b = replica(alloc)?;
    let mut context = Context::new(alloc);
    context.add(alloc, dot(b, 3))?;
    assert_eq!(rt; context.top(&b), 0);
    assert!(rt; context.covers(&dot(b, 3)));
    assert!(rt; is_seen(alloc, &context, &[0], &[], &[(2, 3)])?);
    context.add_range(alloc, b, 0, 2)?;
    assert_eq!(rt; context.top(&b), 3);
    assert!(rt; is_seen(alloc, &context, &[3], &[3], &[])?);
    context.forget(&b);
    assert_eq!(rt; context.top(&b), 0);
    assert!(rt; is_seen(alloc, &context, &[], &[], &[])?);
    Ok(())
}

#[test]
fn takes_runs_in_falling_order(rt: HostRuntime) -> Result<(), Fail> {
    let alloc = rt.alloc();
    let b = replica(alloc)?;
    let mut context = Context::new(alloc);
    for k in 0..20_000 {
        let count = 100_000 - 2 * k;
        context.add_range(alloc, b, count - 1, count)?;
    }
    assert_eq!(rt; context.top(&b), 0);
    assert!(rt; context.covers(&dot(b, 60_002)));
    assert!(rt; !context.covers(&dot(b, 60_003)));
    context.add_range(alloc, b, 0, 4_611_686_018_427_387_904)?;
    assert_eq!(rt; context.top(&b), 4_611_686_018_427_387_904);
    Ok(())
}

#[test]
fn joins_two_contexts(rt: HostRuntime) -> Result<(), Fail> {
    let alloc = rt.alloc();
    let b = replica(alloc)?;
    let mut first = Context::new(alloc);
    first.add(alloc, dot(b, 1))?;
    let mut second = Context::new(alloc);
    second.add(alloc, dot(b, 2))?;
    second.add(alloc, dot(b, 4))?;
    first.join(alloc, &second)?;
    assert_eq!(rt; first.top(&b), 2);
    assert!(rt; !first.covers(&dot(b, 3)));
    assert!(rt; first.covers(&dot(b, 4)));
    assert!(rt; is_seen(alloc, &first, &[2], &[2], &[(3, 4)])?);
    Ok(())
}
