// What an entry changes of what is untold, made before anything of it is changed.
ghost use Rattle.std.specs.Prelude.{◌≡◌, ◌||◌, [], cond, length, nat_le, nat_lt, IfOk};
ghost use Rattle.delta_range.specs.Longest.{up_to};
ghost use Rattle.presence_journal.specs.Present.{dots_taken};
ghost use Rattle.presence_journal_cuts.specs.Chains.{AreChains, AreUpTo, TakesIn, kept_chain};
ghost use Rattle.presence_journal_cuts.specs.Changes.{told_in, IsLinkOf, IsChange};

use crate::chain::{Chain, handed_chain};
use crate::last::dots_out;
use crate::older::push_all_gone;
use crate::recent::added_row;
use delta_range::push_up_to;
use presence_base::{Dot, Row};
use presence_journal::{Entry, Outcome};
use std::alloc::{AllocError, Global};
use std::collections::BTreeMap;

/// The count of an update's new row has the chain, which is told where it may have a count that was not told as gone.
#[derive(Drop)]
pub(crate) struct Link {
    pub to: u64,
    pub chain: Chain,
    pub is_told: bool,
}

/// The row that an entry adds with its link, and the runs of the older counts that go.
#[derive(Drop)]
pub(crate) struct Change {
    pub row: Option<(Dot, Row)>,
    pub link: Option<Link>,
    pub gone: Vec<(u64, u64)>,
}

// How many runs the chain of a count has.
fn runs_of(chains: &BTreeMap<u64, Chain>, count: u64) -> usize
    ensures { result ≡ length (kept_chain chains.now count) }
{
    match chains.get(&count) {
        Some(chain) => chain.as_slice().len(),
        None => 0,
    }
}

// Whether the chain that an update hands on from the row of this count may have a count that was not told as gone: of a row
// above `unsettled` each was, but where the chain has fewer runs than the row's own it is one run now, with counts of other rows.
fn may_be_untold(chains: &BTreeMap<u64, Chain>, chain: &Chain, count: u64, unsettled: u64) -> bool
    ensures { result
        ≡ (nat_le count unsettled || nat_lt (length chain.now) (length (kept_chain chains.now count))) }
{
    count <= unsettled || chain.as_slice().len() < runs_of(chains, count)
}

// The link of an update.
fn link_of(
    alloc: Global,
    chains: &BTreeMap<u64, Chain>,
    unsettled: u64,
    outcome: &Outcome,
) -> Result<Option<Link>, AllocError>
    requires { AreChains chains.now }
    ensures { IfOk result (IsLinkOf unsettled outcome.now chains.now) }
{
    let Outcome::Replaced(new, old) = outcome else {
        return Ok(None);
    };
    let (new, old) = (new.get(), old.get());
    let chain = handed_chain(alloc, chains, old.count)?;
    let is_told = may_be_untold(chains, &chain, old.count, unsettled);
    Ok(Some(Link {
        to: new.count,
        chain,
        is_told,
    }))
}

// The runs of the counts at or below the last cut that go with an update.
fn gone_with(alloc: Global, link: &Link, last: u64) -> Result<Vec<(u64, u64)>, AllocError>
    ensures { IfOk result (λ v. v.items ≡ cond link.now.is_told (up_to last link.now.chain) []) }
{
    let mut gone = Vec::new(alloc);
    if !link.is_told {
        return Ok(gone);
    }
    push_up_to(&mut gone, link.chain.as_slice(), last)?;
    Ok(gone)
}

// The dots up to a count.
fn told_dots(alloc: Global, dots: &[Dot], unsettled: u64) -> Result<Vec<Dot>, AllocError>
    ensures { IfOk result (λ v. v.items ≡ told_in unsettled dots.now) }
{
    let mut told = Vec::new(alloc);
    for dot in dots {
        if dot.count <= unsettled {
            told.push(*dot)?;
        }
    }
    Ok(told)
}

// The runs of the counts at or below the last cut that go with the dots that an outcome takes out. What the dots above
// `unsettled` stand for went before it.
fn gone_of(
    alloc: Global,
    chains: &BTreeMap<u64, Chain>,
    last: u64,
    unsettled: u64,
    outcome: &Outcome,
) -> Result<Vec<(u64, u64)>, AllocError>
    ensures counts { IfOk result (λ v.
        TakesIn last chains.now (told_in unsettled (dots_taken outcome.now)) [] v.items) }
    ensures kept { IfOk result (λ v. AreChains chains.now → AreUpTo last v.items) }
{
    let told = told_dots(alloc, dots_out(outcome), unsettled)?;
    let mut gone = Vec::new(alloc);
    push_all_gone(alloc, &mut gone, chains, last, &told)?;
    Ok(gone)
}

/// What an entry changes.
pub(crate) fn change_of(
    alloc: Global,
    chains: &BTreeMap<u64, Chain>,
    last: u64,
    unsettled: u64,
    entry: &Entry,
) -> Result<Change, AllocError>
    requires { AreChains chains.now }
    ensures { IfOk result (IsChange last unsettled chains.now entry.now) }
{
    let row = added_row(entry)?;
    let Some(link) = link_of(alloc, chains, unsettled, &entry.outcome)? else {
        let gone = gone_of(alloc, chains, last, unsettled, &entry.outcome)?;
        return Ok(Change {
            row,
            link: None,
            gone,
        });
    };
    let gone = gone_with(alloc, &link, last)?;
    Ok(Change {
        row,
        link: Some(link),
        gone,
    })
}
