// What a shard does at an event. Where memory runs out it is as it was.
ghost use Rattle.std.specs.Prelude.{◌≡◌, ◌<◌, ℕ, true, false, Some, None, Err, IfOk, OnOk, OnErr, vec_len, vec_capacity};
ghost use Rattle.presence_journal.specs.History.{History, is_full};
ghost use Rattle.presence_journal.specs.StepLimits.{is_within_limits};
ghost use Rattle.presence_journal_cuts.specs.ToldParts.{IsPart};
ghost use Rattle.presence_journal.specs.Table.{outcome_of, after};
ghost use Rattle.tracker_shard.specs.Steps.{RefusesForRoom};
ghost use Rattle.node_world.specs.Living.{Cuts, BeginsAgain};
ghost use Rattle.node_world.specs.Taken.{Took, AddsRow, RefusesMissing};
ghost use Rattle.node_world.specs.World.{with_row, TellsPartIf, TellsWhole};

use crate::refused::refused;
use crate::row::added_row;
use crate::telling::Telling;
use delta_range::Delta;
use orswot_core::Form;
use presence_base::{Dot, Row};
use presence_journal::{Outcome, Step};
use presence_journal_cuts::up_to;
use std::alloc::{AllocError, Global};
use tracker_shard::{Call, Found, Shard, ShardFault};

// Puts a row behind those that were made, into the room that there is for it.
fn keep_row(made: &mut Vec<(Dot, Row)>, added: Option<(Dot, Row)>)
    requires { vec_len made.old < vec_capacity made.old }
    ensures { made.new.items ≡ with_row made.old.items added }
{
    if let Some(row) = added {
        made.push_reserved(row);
    }
}

// Makes the step that a call was found to come to, and keeps the row that it adds. The shard refuses it for want of memory alone.
#[tactic(auto, using(crate::proofs::Taken::entering))]
fn enter(
    shard: &mut Shard,
    made: &mut Vec<(Dot, Row)>,
    alloc: Global,
    step: Step,
    outcome: Outcome,
) -> Result<(), AllocError>
    requires table { outcome_of shard.old step ≡ Some outcome }
    requires room { is_full shard.old ≡ false }
    requires limits { is_within_limits step ≡ true }
    ensures took { OnOk result (Took shard.old shard.new step true) }
    ensures made { OnOk result (AddsRow shard.old step made.old.items made.new.items) }
    ensures same { OnErr result (shard.new ≡ shard.old) }
    ensures kept { OnErr result (made.new.items ≡ made.old.items) }
{
    let added = added_row(&step, &outcome)?;
    made.reserve(1)?;
    match shard.enter(alloc, None, step, outcome) {
        Ok(()) => {
            keep_row(made, added);
            Ok(())
        }
        Err(_) => Err(AllocError),
    }
}

/// The step of a call, with the row that it adds, or nothing where the call is refused by no entry.
#[tactic(auto, using(crate::proofs::Taken::taking))]
pub(crate) fn take<C: Call>(
    shard: &mut Shard,
    made: &mut Vec<(Dot, Row)>,
    alloc: Global,
    call: &C,
) -> Result<(), AllocError>
    requires { RefusesMissing (C.there call.now shard.old) (outcome_of shard.old (C.step call.now)) }
    ensures history { OnOk result (shard.new ≡ after shard.old (C.step call.now) None) }
    ensures made { OnOk result (AddsRow shard.old (C.step call.now) made.old.items made.new.items) }
    ensures same { OnErr result (shard.new ≡ shard.old) }
    ensures kept { OnErr result (made.new.items ≡ made.old.items) }
{
    match shard.look(alloc, call) {
        Ok(Found { step, outcome, .. }) => enter(shard, made, alloc, step, outcome),
        Err(fault) => refused(fault),
    }
}

// What a shard wanted that refused for want of room: Ok where its journal is full, and else memory ran out.
#[tactic(auto, using(crate::proofs::Wholes::rooms))]
fn full_journal(fault: ShardFault) -> Result<(), AllocError>
    requires { RefusesForRoom {A = Unit {0}} (Err fault) }
    ensures full { OnOk result (fault ≡ ShardFault.JournalFull) }
    ensures memory { OnErr result (fault ≡ ShardFault.OutOfMemory) }
{
    match fault {
        ShardFault::JournalFull => Ok(()),
        _ => Err(AllocError),
    }
}

/// What a shard did since its last cut, in the form, where there is room for the entry.
#[tactic(auto, using(crate::proofs::Wholes::wholes, crate::proofs::Wholes::rooms))]
pub(crate) fn cut(
    shard: &mut Shard,
    alloc: Global,
    form: Form,
) -> Result<Option<Telling>, AllocError>
    ensures cut { IfOk result (Cuts form shard.old shard.new) }
    ensures same { OnErr result (shard.new ≡ shard.old) }
{
    match shard.cut(alloc) {
        Ok(delta) => Ok(Some(Telling::of_cut(delta, form))),
        Err(fault) => {
            full_journal(fault)?;
            Ok(None)
        }
    }
}

/// All that a shard knows, or what a node missed that knows its dots up to a count, in the form.
#[tactic(auto, using(crate::proofs::Wholes::wholes))]
pub(crate) fn told(
    shard: &mut Shard,
    alloc: Global,
    from: Option<u64>,
    form: Form,
) -> Result<Telling, AllocError>
    ensures same { shard.new ≡ shard.old }
    ensures told { IfOk result (TellsWhole form shard.old from) }
{
    match from {
        Some(count) => {
            let told = shard.told_from(alloc, count, form)?;
            Ok(Telling::of_told(told))
        }
        None => {
            let told = shard.full(alloc, form)?;
            Ok(Telling::of_told(told))
        }
    }
}

// A part up to a count, where one is named.
#[tactic(auto, using(crate::proofs::PartFacts::parts))]
fn shortened(alloc: Global, part: Delta, to: Option<u64>) -> Result<Delta, AllocError>
    ensures { (h : History) (n : ℕ) → IsPart h n part → IfOk result (IsPart h n) }
{
    let _live = part.live();
    match to {
        Some(count) => up_to(alloc, &part, count),
        None => Ok(part),
    }
}

/// A part of what a node missed that knows its dots up to a count, in the form: as far as fits a line, or up to a count.
#[tactic(auto, using(crate::proofs::PartFacts::parts))]
pub(crate) fn part(
    shard: &mut Shard,
    alloc: Global,
    from: u64,
    to: Option<u64>,
    form: Form,
) -> Result<Option<Telling>, AllocError>
    ensures same { shard.new ≡ shard.old }
    ensures told { IfOk result (TellsPartIf form shard.old from) }
{
    let Some(part) = shard.part(alloc, from)? else {
        return Ok(None);
    };
    let part = shortened(alloc, part, to)?;
    Ok(Some(Telling::of_cut(part, form)))
}

/// Puts a Start in the place of a shard's journal, where a number is left.
#[tactic(auto, using(crate::proofs::Wholes::wholes, crate::proofs::Wholes::rooms))]
pub(crate) fn checkpoint(shard: &mut Shard, alloc: Global) -> Result<(), AllocError>
    ensures begins { OnOk result (BeginsAgain shard.old shard.new) }
    ensures same { OnErr result (shard.new ≡ shard.old) }
{
    match shard.checkpoint(alloc) {
        Ok(()) => Ok(()),
        Err(fault) => full_journal(fault),
    }
}
