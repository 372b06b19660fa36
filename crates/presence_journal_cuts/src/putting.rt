// Rows and chains put in, both or neither.
ghost use Rattle.std.specs.Prelude.{◌≡◌, ◌≤◌, ◌+◌, ◌++◌, ℕ, cond, nat_eq, None, length, OnOk, OnErr};
ghost use Rattle.std.specs.BTreeMap.{get};
ghost use Rattle.std.specs.Ordering.{nat_cmp};
ghost use Rattle.std.specs.Vec.{vec_capacity};
ghost use Rattle.presence_base.specs.Order.{dot_cmp};
ghost use Rattle.presence_journal.specs.Walk.{row_at};
ghost use Rattle.presence_journal_known.specs.ByDot.{Alike, over};
ghost use Rattle.presence_journal_cuts.specs.Changes.{SameChains, LosesChains, IsLinked, IsNew, IsWithoutDot, dot_in};

use crate::chain::Chain;
use crate::change::Link;
use crate::recent::put_row;
use presence_base::{Dot, Row};
use std::alloc::AllocError;
use std::collections::BTreeMap;

// Puts the chain of an update's new row in.
fn put_link(chains: &mut BTreeMap<u64, Chain>, link: Option<Link>) -> Result<(), AllocError>
    ensures ok { OnOk result (IsLinked link chains.old chains.new) }
    ensures err { OnErr result (SameChains chains.old chains.new) }
{
    if let Some(link) = link {
        chains.insert(link.to, link.chain)?;
    }
    Ok(())
}

// The dot of a row that is to come.
fn dot_of(row: &Option<(Dot, Row)>) -> Option<Dot>
    ensures { result ≡ dot_in row.now }
{
    match row {
        Some((dot, _)) => Some(*dot),
        None => None,
    }
}

// Takes the row of the dot out again.
fn take_back(rows: &mut BTreeMap<Dot, Row>, dot: Option<Dot>)
    ensures { IsWithoutDot dot rows.old rows.new }
{
    if let Some(dot) = dot {
        rows.remove(&dot);
    }
}

/// Puts a row and a chain in, both or neither.
pub(crate) fn put_both(
    rows: &mut BTreeMap<Dot, Row>,
    chains: &mut BTreeMap<u64, Chain>,
    row: Option<(Dot, Row)>,
    link: Option<Link>,
) -> Result<(), AllocError>
    requires { IsNew row rows.old }
    ensures rows { OnOk result (Alike (get dot_cmp rows.new) (over (row_at row) (get dot_cmp rows.old))) }
    ensures chains { OnOk result (IsLinked link chains.old chains.new) }
    ensures same_rows { OnErr result (Alike (get dot_cmp rows.new) (get dot_cmp rows.old)) }
    ensures same_chains { OnErr result (SameChains chains.old chains.new) }
{
    let dot = dot_of(&row);
    put_row(rows, row)?;
    if let Err(refusal) = put_link(chains, link) {
        take_back(rows, dot);
        return Err(refusal);
    }
    Ok(())
}

// Takes the chain of a dot out.
fn drop_chain(chains: &mut BTreeMap<u64, Chain>, dot: &Dot)
    ensures { (c : ℕ) → get nat_cmp chains.new c ≡ cond (nat_eq c dot.now.count) None (get nat_cmp chains.old c) }
{
    chains.remove(&dot.count);
}

/// Takes the chains of these dots out. Takes no memory.
pub(crate) fn drop_chains(chains: &mut BTreeMap<u64, Chain>, dots: &[Dot])
    ensures { LosesChains dots.now chains.old chains.new }
{
    for dot in dots {
        drop_chain(chains, dot);
    }
}

/// Adds runs for which there is room.
pub(crate) fn add_runs(runs: &mut Vec<(u64, u64)>, more: Vec<(u64, u64)>)
    requires { length runs.old.items + length more.items ≤ vec_capacity runs.old }
    ensures { runs.new.items ≡ runs.old.items ++ more.items }
{
    let mut more = more;
    let _added = runs.append(&mut more);
}
