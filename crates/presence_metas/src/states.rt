//! States and diffs.
ghost use Rattle.std.specs.Prelude.{◌≡◌, ◌++◌, None, IfOk, OnOk, string_bytes};
ghost use Rattle.serde_json.specs.Written.{compact_text};
ghost use Rattle.presence_metas.specs.Values.{state_of, diff_of};
ghost use Rattle.presence_metas.specs.KeyOrder.{AreInKeyOrder};
ghost use Rattle.presence_metas.specs.Texts.{rest_text};

use crate::rows::{push_ending, push_row};
use presence_base::{Dot, Key, Row};
use std::alloc::{AllocError, Global};

// Writes the rows, up to the end of their object.
#[tactic(auto, using(crate::proofs::InOrder::grouped), unfolding(crate::specs::Texts::rest_text))]
fn push_rows(alloc: Global, text: &mut String, rows: &[(Dot, Row)]) -> Result<(), AllocError>
    ensures { OnOk result (string_bytes text.new
        ≡ string_bytes text.old ++ rest_text None rows.now) }
{
    let mut last: Option<&Key> = None;
    for (dot, row) in rows {
        push_row(alloc, text, last, dot, row)?;
        last = Some(&row.key);
    }
    push_ending(text, last)
}

/// Writes the object that `state_value` makes of rows in order of their keys. Where memory is
/// wanting, a part of it may have been written.
pub fn push_state(alloc: Global, text: &mut String, rows: &[(Dot, Row)]) -> Result<(), AllocError>
    requires { AreInKeyOrder rows.now }
    ensures { OnOk result (string_bytes text.new
        ≡ string_bytes text.old ++ compact_text (state_of rows.now)) }
{
    text.push_str("{")?;
    push_rows(alloc, text, rows)
}

/// The text of the object that `state_value` makes of rows in order of their keys.
pub fn state_text(alloc: Global, rows: &[(Dot, Row)]) -> Result<String, AllocError>
    requires { AreInKeyOrder rows.now }
    ensures { IfOk result (λ s. string_bytes s ≡ compact_text (state_of rows.now)) }
{
    let mut text = String::new(alloc);
    push_state(alloc, &mut text, rows)?;
    Ok(text)
}

/// The text of the object that `diff_value` makes of rows in order of their keys.
#[tactic(auto, using(crate::proofs::InOrder::diff_written))]
pub fn diff_text(
    alloc: Global,
    joins: &[(Dot, Row)],
    leaves: &[(Dot, Row)],
) -> Result<String, AllocError>
    requires joins { AreInKeyOrder joins.now }
    requires leaves { AreInKeyOrder leaves.now }
    ensures { IfOk result (λ s. string_bytes s ≡ compact_text (diff_of joins.now leaves.now)) }
{
    let mut text = String::new(alloc);
    text.push_str("{\"joins\":")?;
    push_state(alloc, &mut text, joins)?;
    text.push_str(",\"leaves\":")?;
    push_state(alloc, &mut text, leaves)?;
    text.push_str("}")?;
    Ok(text)
}
