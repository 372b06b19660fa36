// Chains: for the count of a live row, the counts of the rows that were replaced in turn.
ghost use Rattle.std.specs.Prelude.{◌≡◌, ◌<◌, ℕ, IfOk, OnOk};
ghost use Rattle.presence_journal_cuts.specs.Chains.{GrowsLast, PutsChain, kept_chain};
ghost use Rattle.presence_journal_cuts.specs.Cuts.{chain_after, left_at};
ghost use Rattle.presence_journal_cuts.specs.Handing.{grown, handed, run_between};

use presence_journal::Outcome;
use presence_journal_lists::Runs;
use std::alloc::{AllocError, Global};
use std::collections::BTreeMap;
use std::marker::Model;

/// The most runs of a chain. Counts of rows that are updated by turns never join into runs: a longer chain becomes the one run of all
/// counts up to its last.
pub const MAX_CHAIN_RUNS: usize = 64;

/// Counts as runs: each is the count below its first one and its last one.
pub struct Chain {
    runs: Vec<(u64, u64)>,
}

impl Drop for Chain {
    fn drop(self) {
        let Chain { runs } = self;
        drop(runs);
    }
}

impl Model for Chain {
    ghost use Rattle.std.specs.Prelude.{ℕ, List};
    ghost use Rattle.std.specs.Coded.{coded_list, coded×, coded_ℕ};

    ghost Value = { List (ℕ × ℕ) };

    ghost coded = { coded_list (coded× coded_ℕ coded_ℕ) };

    ghost view = { λ c. c.runs.items };
}

impl Clone for Chain {
    ghost use Rattle.std.specs.Prelude.{◌≡◌};

    ghost is_clone = { λ c d. d ≡ c };

    fn clone(&self) -> Result<Chain, AllocError> {
        let runs = self.runs.clone()?;
        Ok(Chain { runs })
    }
}

impl Chain {
    ghost use Rattle.std.specs.Prelude.{◌≡◌, [], IfOk, OnOk};
    ghost use Rattle.presence_journal_cuts.specs.Handing.{handed};

    /// No counts.
    pub fn new(alloc: Global) -> Chain
        ensures { result ≡ [] }
    {
        Chain {
            runs: Vec::new(alloc),
        }
    }

    // The chain that a journal keeps.
    pub(crate) fn kept(alloc: Global, runs: &Runs) -> Result<Chain, AllocError>
        ensures { IfOk result (λ c. c ≡ runs.now) }
    {
        let runs = runs.as_slice().to_vec(alloc)?;
        Ok(Chain { runs })
    }

    /// Its runs.
    pub fn as_slice(&self) -> &[(u64, u64)]
        ensures { result.now ≡ self.now }
    {
        self.runs.as_slice()
    }

    // Adds the count of the row whose chain it is, as an update hands it on.
    #[tactic(auto, unfolding(crate::specs::Handing::handed))]
    fn grow(&mut self, alloc: Global, count: u64) -> Result<(), AllocError>
        ensures { OnOk result (self.new ≡ handed self.old count) }
    {
        push_count(&mut self.runs, count)?;
        if self.runs.len() > MAX_CHAIN_RUNS {
            self.runs = runs_up_to(alloc, count)?;
        }
        Ok(())
    }
}

// The run of all counts up to one.
fn runs_up_to(alloc: Global, count: u64) -> Result<Vec<(u64, u64)>, AllocError>
    ensures { IfOk result (λ v. v.items ≡ run_between 0 count) }
{
    let mut runs = Vec::new(alloc);
    if count > 0 {
        runs.push((0, count))?;
    }
    Ok(runs)
}

// Adds a count, to the last run where it goes on from that.
pub(crate) fn push_count(runs: &mut Vec<(u64, u64)>, count: u64) -> Result<(), AllocError>
    ensures { OnOk result (runs.new.items ≡ grown runs.old.items count) }
{
    if count > 0 && !grow_last(runs, count) {
        runs.push((count - 1, count))?;
    }
    Ok(())
}

// Lets the last run go on to a count, where it ends right below that, and says whether it does.
fn grow_last(runs: &mut [(u64, u64)], count: u64) -> bool
    requires { 0 < count }
    ensures { GrowsLast result runs.old count runs.new }
{
    let Some(last) = runs.last_mut() else {
        return false;
    };
    if last.1 != count - 1 {
        return false;
    }
    last.1 = count;
    true
}

// The chain that is taken out, or none.
fn taken_chain(alloc: Global, chains: &mut BTreeMap<u64, Chain>, count: u64) -> Chain
    ensures chain { result ≡ kept_chain chains.old count }
    ensures rest { (c : ℕ) → kept_chain chains.new c ≡ left_at count (kept_chain chains.old) c }
{
    match chains.remove(&count) {
        Some(chain) => chain,
        None => Chain::new(alloc),
    }
}

// Puts a chain in the place of the one before it.
pub(crate) fn put_chain(
    chains: &mut BTreeMap<u64, Chain>,
    count: u64,
    chain: Chain,
) -> Result<(), AllocError>
    ensures { OnOk result (PutsChain chains.old count chain chains.new) }
{
    chains.insert(count, chain)?;
    Ok(())
}

// A copy of the chain of a count, or none.
fn chain_of(alloc: Global, chains: &BTreeMap<u64, Chain>, count: u64) -> Result<Chain, AllocError>
    ensures { IfOk result (λ c. c ≡ kept_chain chains.now count) }
{
    match chains.get(&count) {
        Some(chain) => chain.clone(),
        None => Ok(Chain::new(alloc)),
    }
}

/// The chain that an update of the row with this count hands on. The row's own stays.
pub fn handed_chain(
    alloc: Global,
    chains: &BTreeMap<u64, Chain>,
    count: u64,
) -> Result<Chain, AllocError>
    ensures { IfOk result (λ c. c ≡ handed (kept_chain chains.now count) count) }
{
    let mut chain = chain_of(alloc, chains, count)?;
    chain.grow(alloc, count)?;
    Ok(chain)
}

// What an outcome makes of the chains.
pub(crate) fn hand_on(
    alloc: Global,
    chains: &mut BTreeMap<u64, Chain>,
    outcome: &Outcome,
) -> Result<(), AllocError>
    ensures { OnOk result ((c : ℕ) → kept_chain chains.new c ≡ chain_after outcome.now (kept_chain chains.old) c) }
{
    if let Outcome::Reborn(_) = outcome {
        *chains = BTreeMap::new(alloc);
        return Ok(());
    }
    if let Outcome::Replaced(new, old) = outcome {
        let (new, old) = (new.get(), old.get());
        let mut chain = taken_chain(alloc, chains, old.count);
        chain.grow(alloc, old.count)?;
        put_chain(chains, new.count, chain)?;
    }
    Ok(())
}
