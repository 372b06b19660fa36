// Where the references of a row go in the text of its meta.
ghost use Rattle.std.specs.Prelude.{◌≡◌, ◌-◌, IfOk, IsTrue, codes, false, length};
ghost use Rattle.std.specs.Ordering.{is_lt};
ghost use Rattle.serde_json.specs.Data.{object};
ghost use Rattle.serde_json.specs.View.{view, members_view};
ghost use Rattle.serde_json.specs.Written.{compact_text, members_have_float};
ghost use Rattle.presence_base.specs.Metas.{is_meta};
ghost use Rattle.presence_base.specs.Order.{text_cmp};
ghost use Rattle.presence_base.specs.RefPlace.{begin_behind, ref_place};

use serde_json::{Map, Value};
use std::alloc::{AllocError, Global};
use std::cmp::Ordering;

// Whether the name stands behind both references.
fn is_behind(name: &str) -> bool
    ensures { result ≡ is_lt (text_cmp (codes "phx_ref_prev") name.now) }
{
    "phx_ref_prev".cmp(name) == Ordering::Less
}

// Whether the first member does, where there is one.
fn begin_behind(members: &Map<String, Value>) -> bool
    ensures { result ≡ begin_behind (members_view members.now.entries) }
{
    match members.first_key_value() {
        Some((name, _member)) => is_behind(name.as_str()),
        None => true,
    }
}

// How long the text of the object is up to its last bracket.
fn open_length(alloc: Global, members: Map<String, Value>) -> Result<usize, AllocError>
    requires { members_have_float (members_view members.entries) ≡ false }
    ensures { IfOk result (λ n. n ≡ length (compact_text (object (members_view members.entries))) - 1) }
{
    let text = Value::Object(members).to_string(alloc)?;
    Ok(text.len() - 1)
}

// How long the text is up to the place of both references, where they go to one place.
pub(crate) fn ref_place(alloc: Global, value: Value) -> Result<Option<u32>, AllocError>
    requires { IsTrue (is_meta (view value)) }
    ensures { IfOk result (λ o. o ≡ ref_place (view value)) }
{
    let Value::Object(mut members) = value else {
        return Ok(None);
    };
    let behind = members.split_off("phx_ref")?;
    if !begin_behind(&behind) {
        return Ok(None);
    }
    let length = open_length(alloc, members)?;
    Ok(Some(length as u32))
}
