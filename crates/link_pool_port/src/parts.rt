//! What is told in parts where it has more than a line takes.
ghost use Rattle.std.specs.Prelude.{◌≡◌, ◌<◌, ◌||◌, not, false, true, IfOk, IfErr};
ghost use Rattle.presence_base.specs.Names.{guarded};
ghost use Rattle.orswot_core.specs.declared.form.Form.TheVariants.{Two};
ghost use Rattle.delta_range.specs.Deltas.{IsDelta};
ghost use Rattle.shard_pool.specs.Seats.{IsBehindAt};
ghost use Rattle.tracker_shard.specs.declared.fault.ShardFault.TheVariants.{OutOfMemory};
ghost use Rattle.link_pool_port.specs.Parts.{IsLargeIfOk, IsPartUpTo, IsShortened, IsSmallIfOk, IsUpTo, TakesNoMore, TellsPart, is_large as is_larger_than_part, is_long, is_over, shorter as shorter_of, shorter_reply as shorter_reply_of};

use crate::lengths::{line_bytes, row_bytes, rows_bytes};
use delta_range::Delta;
use link_lines::MAX_LINE_BYTES;
use orswot_core::{Form, Told};
use presence_journal_cuts::up_to;
use shard_pool::{Gate, Lanes, Pool, PoolFault};
use std::alloc::{AllocError, Global};
use std::sync::Wait;

/// A part has rows of so many bytes at most, as a line has them, or one count. What is told on no longer a line is told whole.
pub const MAX_PART_BYTES: usize = 262_144;

// Whether a told value of the second form has more bytes than a line may have.
fn is_too_long(shard: u32, told: &Told) -> bool
    ensures { result ≡ is_long shard told.now }
{
    line_bytes(shard, told) > MAX_LINE_BYTES
}

/// Whether a told value of the second form has a longer line than what is told whole.
pub(crate) fn is_large(shard: u32, told: &Told) -> bool
    ensures { result ≡ is_larger_than_part shard told.now }
{
    line_bytes(shard, told) > MAX_PART_BYTES
}

/// Whether a part is looked for in place of this, which no line or only a long one has room for: in the second form alone.
pub(crate) fn is_told_in_parts(
    shard: u32,
    form: Form,
    whole: &Result<Option<Told>, PoolFault>,
) -> bool
    ensures two { result ≡ true → form ≡ Two }
    ensures large { result ≡ true → IsLargeIfOk shard whole.now }
    ensures small { result ≡ false → IsSmallIfOk shard form whole.now }
{
    match form {
        Form::One => false,
        Form::Two => match whole {
            Ok(Some(told)) => is_large(shard, told),
            Ok(None) => true,
            Err(_) => false,
        },
    }
}

// Of a whole and a part of it that which is told: the whole where its line is no longer than the part's, and in the place of no
/// part a whole that has a line.
fn shorter(shard: u32, whole: Option<Told>, part: Option<Told>) -> Option<Told>
    ensures { result ≡ shorter_of shard whole part }
{
    let Some(whole) = whole else {
        return part;
    };
    match part {
        None => on_line(shard, whole),
        Some(part) => {
            if line_bytes(shard, &whole) <= line_bytes(shard, &part) {
                Some(whole)
            } else {
                Some(part)
            }
        }
    }
}

/// Of the replies with a whole and with a part of it that with what is told. A refusal of either is told.
pub(crate) fn shorter_reply(
    shard: u32,
    whole: Result<Option<Told>, PoolFault>,
    part: Result<Option<Told>, PoolFault>,
) -> Result<Option<Told>, PoolFault>
    ensures { result ≡ shorter_reply_of shard whole part }
{
    match (whole, part) {
        (Ok(whole), Ok(part)) => Ok(shorter(shard, whole, part)),
        (Ok(_), Err(fault)) => Err(fault),
        (Err(fault), _) => Err(fault),
    }
}

/// Whether there is a part.
pub(crate) fn is_there(part: &Result<Option<Told>, PoolFault>) -> bool {
    matches!(part, Ok(Some(_)))
}

// The count up to which a part's rows are no more than a part has.
#[tactic(auto, using(crate::proofs::PartRows::row_past_at, crate::proofs::PartRows::row_more_at))]
fn end_of_part(part: &Delta) -> u64
    ensures sound { IsDelta part.now }
    ensures end { TakesNoMore result part.now }
{
    let mut left = MAX_PART_BYTES;
    let mut last: u64 = 0;
    for row in part.live() {
        last = last.max(row.0.count);
        let bytes = row_bytes(row);
        if left < bytes {
            return last.saturating_sub(1);
        }
        left -= bytes;
    }
    part.to()
}

// The told value, where its line is no longer than a line may be.
fn on_line(shard: u32, told: Told) -> Option<Told>
    ensures { result ≡ guarded (not (is_long shard told)) told }
{
    if is_too_long(shard, &told) {
        None
    } else {
        Some(told)
    }
}

// The part up to a count, where a line takes it.
#[tactic(auto, using(crate::proofs::PartLemmas::guarded_short))]
fn part_up_to(alloc: Global, shard: u32, part: &Delta, to: u64) -> Result<Option<Told>, AllocError>
    ensures { IfOk result (IsUpTo shard to part.now) }
{
    let told = up_to(alloc, part, to)?.told(alloc, Form::Two)?;
    Ok(on_line(shard, told))
}

// Whether it is no part: its line is too long, or its rows are more than a part has.
fn is_no_part(shard: u32, told: &Told) -> bool
    ensures { result ≡ (is_long shard told.now || is_over told.now.live) }
{
    is_too_long(shard, told) || rows_bytes(told.live()) > MAX_PART_BYTES
}

// The part up to a count, where its rows are no more than a part has, and a line takes it.
fn full_part_up_to(
    alloc: Global,
    shard: u32,
    part: &Delta,
    to: u64,
) -> Result<Option<Told>, AllocError>
    ensures { IfOk result (IsPartUpTo shard to part.now) }
{
    let told = up_to(alloc, part, to)?.told(alloc, Form::Two)?;
    if is_no_part(shard, &told) {
        return Ok(None);
    }
    Ok(Some(told))
}

// The part with as many rows as a part has, or by one count where it has room for none or no line has, where a line takes that.
#[tactic(auto, using(crate::proofs::PartLemmas::shortening))]
fn shortened(alloc: Global, shard: u32, part: &Delta) -> Result<Option<Told>, AllocError>
    ensures { IfOk result (IsShortened shard part.now) }
{
    if part.to() <= part.from() {
        return Ok(None);
    }
    let next = part.from() + 1;
    let to = end_of_part(part);
    if next < to {
        let told = full_part_up_to(alloc, shard, part, to)?;
        if told.is_some() {
            return Ok(told);
        }
    }
    part_up_to(alloc, shard, part, next)
}

/// A part of the shard's own rows, for a node that knows its dots up to a count, on a line of the second form. None where a line
/// has no room for one more count beside the runs of older ones, or there is none. It refuses with `OutOfMemory` alone.
#[tactic(auto, using(crate::proofs::PartLemmas::none_behind))]
pub(crate) fn part_on_line<R: Wait, G: Gate, L: Lanes>(
    rt: &R,
    alloc: Global,
    pool: &Pool<G, L>,
    shard: u32,
    count: u64,
) -> Result<Option<Told>, PoolFault>
    requires { shard < pool.now.shards }
    ensures part { IfOk result (λ o. IsBehindAt L.begins shard pool.now.own.name (λ h. TellsPart shard h count o)) }
    ensures err { IfErr result (λ e. e ≡ OutOfMemory) }
{
    let Some(part) = pool.part(rt, alloc, shard, count)? else {
        return Ok(None);
    };
    match shortened(alloc, shard, &part) {
        Ok(told) => Ok(told),
        Err(_) => Err(PoolFault::OutOfMemory),
    }
}
