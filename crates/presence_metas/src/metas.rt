//! A meta with its references.
ghost use Rattle.std.specs.Prelude.{◌≡◌, ◌++◌, OnOk, string_bytes};
ghost use Rattle.presence_metas.specs.RefTexts.{refs_behind, refs_first};
ghost use Rattle.presence_metas.specs.Texts.{row_text};

use crate::refs::push_refs;
use crate::tracked::tracked_meta;
use presence_base::{Dot, Row};
use std::alloc::{AllocError, Global};

// Writes the references ahead of all members, which end in `rest`.
fn push_first(
    alloc: Global,
    text: &mut String,
    dot: &Dot,
    prev: &Option<Dot>,
    rest: &str,
) -> Result<(), AllocError>
    ensures { OnOk result (string_bytes text.new
        ≡ string_bytes text.old ++ refs_first dot.now prev.now rest.now) }
{
    text.push_str("{")?;
    push_refs(alloc, text, dot, prev)?;
    if rest != "}" {
        text.push_str(",")?;
    }
    text.push_str(rest)
}

// Writes the members that begin in `front`, and the references behind them.
fn push_behind(
    alloc: Global,
    text: &mut String,
    dot: &Dot,
    prev: &Option<Dot>,
    front: &str,
) -> Result<(), AllocError>
    ensures { OnOk result (string_bytes text.new
        ≡ string_bytes text.old ++ refs_behind dot.now prev.now front.now) }
{
    text.push_str(front)?;
    text.push_str(",")?;
    push_refs(alloc, text, dot, prev)
}

// Writes a meta as `tracked_meta` makes it.
#[tactic(auto, using(crate::proofs::Whole::tracked_whole))]
fn push_tracked(alloc: Global, text: &mut String, dot: &Dot, row: &Row) -> Result<(), AllocError>
    ensures { OnOk result (string_bytes text.new
        ≡ string_bytes text.old ++ row_text (dot.now, row.now)) }
{
    let tracked = tracked_meta(alloc, dot, row)?;
    let meta = tracked.meta.as_value().to_string(alloc)?;
    text.push_str(meta.as_str())
}

// Writes a row's meta with its references: between the two parts of its text, where they go to one place there.
#[tactic(auto, using(crate::proofs::WithRefs::first_written))]
pub(crate) fn push_meta(
    alloc: Global,
    text: &mut String,
    dot: &Dot,
    row: &Row,
) -> Result<(), AllocError>
    ensures { OnOk result (string_bytes text.new
        ≡ string_bytes text.old ++ row_text (dot.now, row.now)) }
{
    let Some((front, rest)) = row.meta.split_at_refs() else {
        return push_tracked(alloc, text, dot, row);
    };
    if front == "{" {
        return push_first(alloc, text, dot, &row.prev, rest);
    }
    push_behind(alloc, text, dot, &row.prev, front)?;
    text.push_str(rest)
}
