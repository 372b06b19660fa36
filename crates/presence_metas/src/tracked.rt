//! A meta with its reference.
ghost use Rattle.std.specs.Prelude.{◌≡◌, IsTrue, IfOk, OnOk};
ghost use Rattle.serde_json.specs.View.{members_view};
ghost use Rattle.presence_base.specs.Metas.{is_meta};
ghost use Rattle.presence_metas.specs.Rows.{with_prev, tracked_of};
ghost use Rattle.presence_metas.specs.Listing.{is_named, left_metas, joined_metas};

use crate::members::{members_of, put_member};
use presence_base::{Dot, Json, Row, Text, ref_text};
use serde_json::{Map, Value};
use std::alloc::{AllocError, Global};

/// One meta of a key as a client holds it, with its reference.
#[derive(Debug, Drop)]
pub struct TrackedMeta {
    /// What the meta's `phx_ref` says.
    pub reference: Text,
    /// The whole object, `phx_ref` among its members.
    pub meta: Json,
}

impl Clone for TrackedMeta {
    ghost use Rattle.std.specs.Prelude.{◌≡◌};

    ghost is_clone = { λ m n. n ≡ m };

    fn clone(&self) -> Result<TrackedMeta, AllocError> {
        let reference = self.reference.clone()?;
        let meta = self.meta.clone()?;
        Ok(TrackedMeta { reference, meta })
    }
}

// Adds the reference of the row that was replaced.
fn put_prev(
    alloc: Global,
    members: &mut Map<String, Value>,
    prev: &Option<Dot>,
) -> Result<(), AllocError>
    ensures { OnOk result (members_view members.new.entries
        ≡ with_prev prev.now (members_view members.old.entries)) }
{
    if let Some(dot) = prev {
        let text = ref_text(alloc, dot)?;
        put_member(alloc, members, "phx_ref_prev", Value::String(text))?;
    }
    Ok(())
}

/// A row's meta with its reference, and with that of the row that it replaced.
pub fn tracked_meta(alloc: Global, dot: &Dot, row: &Row) -> Result<TrackedMeta, AllocError>
    ensures meta { IfOk result (λ t. t ≡ tracked_of dot.now row.now) }
    ensures limits { IsTrue (is_meta row.now.meta) }
{
    let value = row.meta.to_value(alloc)?;
    let mut members = members_of(alloc, value);
    let text = ref_text(alloc, dot)?;
    let reference = Text::new(alloc, text.as_str())?;
    put_member(alloc, &mut members, "phx_ref", Value::String(text))?;
    put_prev(alloc, &mut members, &row.prev)?;
    Ok(TrackedMeta {
        reference,
        meta: Json::new(Value::Object(members)),
    })
}

// Whether one of the metas has this reference.
fn names(metas: &[TrackedMeta], reference: &Text) -> bool
    ensures { result ≡ is_named metas.now reference.now }
{
    metas.iter().any(|m| m.reference == *reference)
}

// The metas whose references are not among these.
pub(crate) fn leave_out(mut metas: Vec<TrackedMeta>, gone: &[TrackedMeta]) -> Vec<TrackedMeta>
    ensures { result.items ≡ left_metas metas.items gone.now }
{
    metas.retain(|m| !names(gone, &m.reference));
    metas
}

// The metas whose references are not joined, followed by the joined ones.
pub(crate) fn take_in(
    metas: Vec<TrackedMeta>,
    joined: &[TrackedMeta],
) -> Result<Vec<TrackedMeta>, AllocError>
    ensures { IfOk result (λ v. v.items ≡ joined_metas metas.items joined.now) }
{
    let mut all = leave_out(metas, joined);
    for meta in joined {
        all.push(meta.clone()?)?;
    }
    Ok(all)
}
