//! References.
ghost use Rattle.std.specs.Prelude.{◌≡◌, ◌++◌, OnOk, string_bytes};
ghost use Rattle.json.specs.Print.{quoted as quoted_text};
ghost use Rattle.presence_base.specs.Refs.{ref_of};
ghost use Rattle.presence_metas.specs.RefTexts.{prev_text, refs_text};

use phx_message::push_quoted;
use presence_base::{Dot, ref_text};
use std::alloc::{AllocError, Global};

// Writes a reference in quotes.
fn push_ref(alloc: Global, text: &mut String, dot: &Dot) -> Result<(), AllocError>
    ensures { OnOk result (string_bytes text.new ≡ string_bytes text.old ++ quoted_text (ref_of dot.now)) }
{
    let reference = ref_text(alloc, dot)?;
    push_quoted(alloc, text, reference.as_str())
}

// Writes the member that names the reference of the row that was replaced.
fn push_prev(alloc: Global, text: &mut String, prev: &Option<Dot>) -> Result<(), AllocError>
    ensures { OnOk result (string_bytes text.new ≡ string_bytes text.old ++ prev_text prev.now) }
{
    match prev {
        None => Ok(()),
        Some(dot) => {
            text.push_str(",\"phx_ref_prev\":")?;
            push_ref(alloc, text, dot)
        }
    }
}

// Writes the members that name the references of a row.
#[tactic(auto, unfolding(crate::specs::RefTexts::refs_text))]
pub(crate) fn push_refs(
    alloc: Global,
    text: &mut String,
    dot: &Dot,
    prev: &Option<Dot>,
) -> Result<(), AllocError>
    ensures { OnOk result (string_bytes text.new ≡ string_bytes text.old ++ refs_text dot.now prev.now) }
{
    text.push_str("\"phx_ref\":")?;
    push_ref(alloc, text, dot)?;
    push_prev(alloc, text, prev)
}
