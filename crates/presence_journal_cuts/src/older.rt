// The older counts that went since the last cut.
ghost use Rattle.std.specs.Prelude.{◌∷◌, [], IfOk, OnOk};
ghost use Rattle.dot_context.specs.Runs.{holds};
ghost use Rattle.presence_journal.specs.History.{last_cut};
ghost use Rattle.presence_journal_cuts.specs.Chains.{AreChains, AreUpTo, Counts, KeptAfter, OlderAfter, TakesIn, TakesInBy};
ghost use Rattle.presence_journal_cuts.specs.Cuts.{older};

use crate::chain::{Chain, hand_on, handed_chain, push_count};
use crate::kept::{kept_chains, kept_runs};
use crate::last::{dots_out, last_after};
use delta_range::push_up_to;
use presence_base::Dot;
use presence_journal::{Journal, Outcome};
use std::alloc::{AllocError, Global};
use std::collections::BTreeMap;

// Adds the count of a dot and its chain, as far as they are at or below the last cut.
fn push_gone(
    alloc: Global,
    runs: &mut Vec<(u64, u64)>,
    chains: &BTreeMap<u64, Chain>,
    last: u64,
    dot: &Dot,
) -> Result<(), AllocError>
    ensures counts { OnOk result (TakesIn last chains.now (dot.now ∷ []) runs.old.items runs.new.items) }
    ensures kept { OnOk result (AreChains chains.now → AreUpTo last runs.old.items → AreUpTo last runs.new.items) }
{
    let mut itself = Vec::new(alloc);
    push_count(&mut itself, dot.count)?;
    push_up_to(runs, &itself, last)?;
    match chains.get(&dot.count) {
        Some(chain) => push_up_to(runs, chain.as_slice(), last),
        None => Ok(()),
    }
}

/// Adds the counts of the dots and their chains, as far as they are at or below the last cut.
pub fn push_all_gone(
    alloc: Global,
    runs: &mut Vec<(u64, u64)>,
    chains: &BTreeMap<u64, Chain>,
    last: u64,
    dots: &[Dot],
) -> Result<(), AllocError>
    ensures counts { OnOk result (TakesIn last chains.now dots.now runs.old.items runs.new.items) }
    ensures kept { OnOk result (AreChains chains.now → AreUpTo last runs.old.items → AreUpTo last runs.new.items) }
{
    for dot in dots {
        push_gone(alloc, runs, chains, last, dot)?;
    }
    Ok(())
}

// Adds what goes with an outcome, as far as it is at or below the last cut.
fn push_gone_by(
    alloc: Global,
    runs: &mut Vec<(u64, u64)>,
    chains: &BTreeMap<u64, Chain>,
    last: u64,
    outcome: &Outcome,
) -> Result<(), AllocError>
    ensures counts { OnOk result (TakesInBy outcome.now last chains.now runs.old.items runs.new.items) }
    ensures kept { OnOk result (AreChains chains.now → AreUpTo last runs.old.items → AreUpTo last runs.new.items) }
{
    match outcome {
        Outcome::Replaced(_, old) => {
            let chain = handed_chain(alloc, chains, old.get().count)?;
            push_up_to(runs, chain.as_slice(), last)
        }
        _ => push_all_gone(alloc, runs, chains, last, dots_out(outcome)),
    }
}

// What an outcome makes of the older counts.
fn go_out(
    alloc: Global,
    runs: &mut Vec<(u64, u64)>,
    chains: &BTreeMap<u64, Chain>,
    last: u64,
    outcome: &Outcome,
) -> Result<(), AllocError>
    ensures counts { OnOk result (OlderAfter outcome.now last chains.now runs.old.items runs.new.items) }
    ensures kept { OnOk result (KeptAfter outcome.now last chains.now runs.old.items runs.new.items) }
{
    match outcome {
        Outcome::CutAt(_, _) | Outcome::Reborn(_) => {
            *runs = Vec::new(alloc);
            Ok(())
        }
        _ => push_gone_by(alloc, runs, chains, last, outcome),
    }
}

// The runs of the older counts that went since the last cut.
pub(crate) fn walk_older(alloc: Global, journal: &Journal) -> Result<Vec<(u64, u64)>, AllocError>
    ensures counts { IfOk result (λ v. Counts (holds v.items) (older journal.now)) }
    ensures kept { IfOk result (λ v. AreUpTo (last_cut journal.now) v.items) }
{
    let start = journal.start();
    let entries = journal.entries();
    let mut last = start.last_cut;
    let mut chains = kept_chains(alloc, start.chains.as_slice())?;
    let mut runs = kept_runs(alloc, &start.older)?;
    for entry in entries {
        go_out(alloc, &mut runs, &chains, last, &entry.outcome)?;
        hand_on(alloc, &mut chains, &entry.outcome)?;
        last = last_after(&entry.outcome, last);
    }
    Ok(runs)
}
