// What a Start lists of what is not told yet.
ghost use Rattle.std.specs.Prelude.{◌≡◌, ◌++◌, ◌∷◌, [], ℕ, IfOk, OnOk};
ghost use Rattle.std.specs.List.{AllByRecursion};
ghost use Rattle.std.specs.BTreeMap.{get};
ghost use Rattle.std.specs.Ordering.{nat_cmp};
ghost use Rattle.dot_context.specs.Runs.{AreLong};
ghost use Rattle.presence_journal_cuts.specs.Chains.{AreChains};

use crate::chain::Chain;
use presence_journal_lists::Runs;
use std::alloc::{AllocError, Global};
use std::collections::BTreeMap;

// Adds a copy of the chain of a count at the end.
fn push_chain(
    alloc: Global,
    list: &mut Vec<(u64, Runs)>,
    count: u64,
    chain: &Chain,
) -> Result<(), AllocError>
    ensures { OnOk result (list.new.items ≡ list.old.items ++ (count, chain.now) ∷ []) }
{
    let runs = chain.as_slice().to_vec(alloc)?;
    list.push((count, Runs::new(runs)))?;
    Ok(())
}

/// The chains, in order of count.
pub(crate) fn listed_chains(
    alloc: Global,
    chains: &BTreeMap<u64, Chain>,
) -> Result<Vec<(u64, Runs)>, AllocError>
    ensures chains { IfOk result (λ v. v.items ≡ chains.now.entries) }
    ensures long { IfOk result (λ v. AreChains chains.now → AllByRecursion (λ x. AreLong x.1) v.items) }
{
    let mut list = Vec::new(alloc);
    for (count, chain) in chains.iter() {
        push_chain(alloc, &mut list, *count, chain)?;
    }
    Ok(list)
}
