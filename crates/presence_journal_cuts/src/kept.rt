// What a journal begins with: the counts that went, the chains, and the own rows above the last cut.
ghost use Rattle.std.specs.Prelude.{◌≡◌, ℕ, nat_eq, Some, IfOk, OnOk};
ghost use Rattle.std.specs.BTreeMap.{get};
ghost use Rattle.std.specs.Map.{lookup};
ghost use Rattle.std.specs.Ordering.{nat_cmp};
ghost use Rattle.presence_base.specs.Order.{dot_cmp};
ghost use Rattle.presence_journal.specs.Walk.{row_at};
ghost use Rattle.presence_journal_known.specs.ByDot.{Alike, over};
ghost use Rattle.presence_journal_cuts.specs.Chains.{KeepsChain, is_recent, row_recent, rows_recent};

use crate::chain::{Chain, put_chain};
use crate::recent::put_row;
use presence_base::{Dot, Row};
use presence_journal::Start;
use presence_journal_lists::Runs;
use std::alloc::{AllocError, Global};
use std::collections::BTreeMap;

/// The runs as a list that can grow.
pub fn kept_runs(alloc: Global, runs: &Runs) -> Result<Vec<(u64, u64)>, AllocError>
    ensures { IfOk result (λ v. v.items ≡ runs.now) }
{
    runs.as_slice().to_vec(alloc)
}

// Puts a chain where its count has none yet.
fn keep_chain(
    alloc: Global,
    chains: &mut BTreeMap<u64, Chain>,
    listed: &(u64, Runs),
) -> Result<(), AllocError>
    ensures { OnOk result (KeepsChain chains.old listed.now chains.new) }
{
    if chains.contains_key(&listed.0) {
        return Ok(());
    }
    let count = listed.0;
    let chain = Chain::kept(alloc, &listed.1)?;
    put_chain(chains, count, chain)
}

/// The chains by their counts, the first of each.
pub fn kept_chains(
    alloc: Global,
    listed: &[(u64, Runs)],
) -> Result<BTreeMap<u64, Chain>, AllocError>
    ensures { IfOk result (λ m. (c : ℕ) → get nat_cmp m c ≡ lookup (nat_eq c) listed.now) }
{
    let mut chains = BTreeMap::new(alloc);
    for chain in listed {
        keep_chain(alloc, &mut chains, chain)?;
    }
    Ok(chains)
}

// Whether the dot is one of the own counts above the last cut.
fn is_recent(start: &Start, dot: &Dot) -> bool
    ensures { result ≡ is_recent start.now dot.now }
{
    dot.replica.cmp(&start.own).is_eq() && (start.last_cut < dot.count && dot.count <= start.count)
}

// Puts a row where its dot has none yet.
fn keep_row(rows: &mut BTreeMap<Dot, Row>, row: &(Dot, Row)) -> Result<(), AllocError>
    ensures { OnOk result (Alike (get dot_cmp rows.new) (over (get dot_cmp rows.old) (row_at (Some row.now)))) }
{
    if rows.contains_key(&row.0) {
        return Ok(());
    }
    let dot = row.0;
    let row = row.1.clone()?;
    put_row(rows, Some((dot, row)))
}

// The same, where it is an own row above the last cut.
fn keep_recent(
    rows: &mut BTreeMap<Dot, Row>,
    start: &Start,
    row: &(Dot, Row),
) -> Result<(), AllocError>
    ensures { OnOk result (Alike (get dot_cmp rows.new) (over (get dot_cmp rows.old) (row_recent start.now row.now))) }
{
    if !is_recent(start, &row.0) {
        return Ok(());
    }
    keep_row(rows, row)
}

/// The own rows above the last cut, by their dots.
pub fn kept_rows(alloc: Global, start: &Start) -> Result<BTreeMap<Dot, Row>, AllocError>
    ensures { IfOk result (λ m. Alike (get dot_cmp m) (rows_recent start.now start.now.content.live)) }
{
    let live = start.content.live();
    let mut rows = BTreeMap::new(alloc);
    for row in live {
        keep_recent(&mut rows, start, row)?;
    }
    Ok(rows)
}
