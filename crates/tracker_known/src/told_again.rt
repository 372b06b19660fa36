// What a rebirth makes of the set.
ghost use Rattle.std.specs.Prelude.{◌≡◌, IfOk, OnOk, OnErr};
ghost use Rattle.std.specs.FinMap as rows_in;
ghost use Rattle.orswot_core.specs.Laws.{TakesIn};
ghost use Rattle.tracker_known.specs.Steps.{CanBeReborn, told_again};

use crate::again::rows_again;
use orswot_core::{Orswot, Told};
use presence_base::{Dot, Replica};
use std::alloc::{AllocError, Global};

// What is told of a rebirth: the new replica's counts, with the rows under them.
fn told_of(
    alloc: Global,
    set: &Orswot,
    new: Replica,
    pairs: &[(Dot, Dot)],
) -> Result<Told, AllocError>
    requires { CanBeReborn set.now new pairs.now }
    ensures { IfOk result (λ t. t ≡ told_again (rows_in.get set.now.live) new pairs.now) }
{
    let live = rows_again(alloc, set, pairs)?;
    let mut ranges = Vec::new(alloc);
    ranges.push((new, 0, pairs.len() as u64))?;
    Ok(Told::new(ranges, Vec::new(alloc), live))
}

/// Takes in the rows of a rebirth, as a join with what is told of it, so that a refusal leaves the set as it was.
pub(crate) fn join_again(
    alloc: Global,
    set: &mut Orswot,
    new: Replica,
    pairs: &[(Dot, Dot)],
) -> Result<(), AllocError>
    requires { CanBeReborn set.old new pairs.now }
    ensures ok { OnOk result (TakesIn set.old (told_again (rows_in.get set.old.live) new pairs.now) set.new) }
    ensures err { OnErr result (set.new ≡ set.old) }
{
    let told = told_of(alloc, set, new, pairs)?;
    set.join(alloc, &told)
}
