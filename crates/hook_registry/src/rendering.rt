//! States and diffs.
ghost use Rattle.std.specs.Prelude.{◌≡◌, true, false, IfOk, IsTrue};
ghost use Rattle.std.specs.List.{AllByRecursion};
ghost use Rattle.serde_json.specs.Data.{object};
ghost use Rattle.serde_json.specs.View.{view};
ghost use Rattle.serde_json.specs.Written.{has_float};
ghost use Rattle.presence_base.specs.Names.{is_short_text};
ghost use Rattle.presence_metas.specs.Rows.{listing_of};
ghost use Rattle.presence_metas.specs.Values.{state_of, diff_of, listing_value};
ghost use Rattle.hook_registry.specs.Extras.{is_extra};
ghost use Rattle.hook_registry.specs.Rendered.{with_metas, RendersListing, RendersState, RendersDiff};

use crate::extra::Extra;
use crate::hooks::PresenceHooks;
use presence_base::{Dot, Key, Row, Topic};
use presence_journal::RowDiff;
use presence_metas::{Presences, TrackedMeta, diff_object, put_member, state_value, values_of};
use serde_json::{Map, Value};
use std::alloc::{AllocError, Global};

// What a fetch adds to a key's object.
fn fetched<H: PresenceHooks>(
    alloc: Global,
    hooks: &H,
    kind: u32,
    topic: &Topic,
    key: &str,
) -> Result<Extra, AllocError>
    requires { IsTrue (is_short_text key.now) }
    ensures { IfOk result (λ e. H.fetched hooks.now kind topic.now key.now e) }
{
    match Key::new(alloc, key)? {
        Some(key) => hooks.fetch(alloc, kind, topic, &key),
        None => unreachable!(),
    }
}

// A key's object: its metas over the members of an extra.
fn key_object(alloc: Global, extra: Extra, metas: &[TrackedMeta]) -> Result<Value, AllocError>
    ensures value { IfOk result (λ v. view v ≡ object (with_metas metas.now extra)) }
    ensures limits { IsTrue (is_extra extra) }
{
    let mut members = extra.into_members();
    let values = Value::Array(values_of(alloc, metas)?);
    put_member(alloc, &mut members, "metas", values)?;
    Ok(Value::Object(members))
}

// The object from each key to its metas and what a fetch adds.
fn presences_value<H: PresenceHooks>(
    alloc: Global,
    hooks: &H,
    kind: u32,
    topic: &Topic,
    presences: &Presences,
) -> Result<Value, AllocError>
    requires keys { AllByRecursion (λ e. IsTrue (is_short_text e.0)) presences.now }
    requires whole { has_float (listing_value presences.now) ≡ false }
    ensures value { IfOk result (λ v.
        RendersListing (H.fetched hooks.now kind topic.now) presences.now (view v)) }
    ensures whole { IfOk result (λ v. has_float (view v) ≡ false) }
{
    presences.keys_rise();
    let mut members = Map::new(alloc);
    for (key, metas) in presences.as_map().iter() {
        let extra = fetched(alloc, hooks, kind, topic, key.as_str())?;
        let value = key_object(alloc, extra, metas.as_slice())?;
        put_member(alloc, &mut members, key.as_str(), value)?;
    }
    Ok(Value::Object(members))
}

// Each row has a key within the limits.
fn have_keys(rows: &[(Dot, Row)])
    ensures { AllByRecursion (λ p. IsTrue (is_short_text p.1.key)) rows.now }
{
    for (_dot, row) in rows {
        let _key = row.key.as_str();
    }
}

// The lists of rows, whose keys are within the limits.
fn presences_of(alloc: Global, rows: &[(Dot, Row)]) -> Result<Presences, AllocError>
    ensures lists { IfOk result (λ p. p ≡ listing_of rows.now) }
    ensures whole { IfOk result (λ p. has_float (listing_value p) ≡ false) }
    ensures keys { IfOk result (λ p. AllByRecursion (λ e. IsTrue (is_short_text e.0)) p) }
{
    have_keys(rows);
    Presences::of_rows(alloc, rows)
}

/// The state object of these rows: each key's metas, and beside them the members of an answer of
/// `fetch` for that key.
pub fn render_state<H: PresenceHooks>(
    alloc: Global,
    hooks: &H,
    kind: u32,
    topic: &Topic,
    rows: &[(Dot, Row)],
) -> Result<Value, AllocError>
    ensures value { IfOk result (λ v. RendersState (H.fetched hooks.now kind topic.now) rows.now (view v)) }
    ensures plain { IfOk result (λ v. H.plain hooks.now ≡ true → view v ≡ state_of rows.now) }
    ensures whole { IfOk result (λ v. has_float (view v) ≡ false) }
{
    if hooks.is_plain() {
        return state_value(alloc, rows);
    }
    let presences = presences_of(alloc, rows)?;
    presences_value(alloc, hooks, kind, topic, &presences)
}

/// The diff object of the rows that joined and those that left, each key as in a state.
pub fn render_diff<H: PresenceHooks>(
    alloc: Global,
    hooks: &H,
    kind: u32,
    topic: &Topic,
    diff: &RowDiff,
) -> Result<Value, AllocError>
    ensures value { IfOk result (λ v. RendersDiff (H.fetched hooks.now kind topic.now)
        diff.now.joins diff.now.leaves (view v)) }
    ensures plain { IfOk result (λ v. H.plain hooks.now ≡ true → view v ≡ diff_of diff.now.joins diff.now.leaves) }
    ensures whole { IfOk result (λ v. has_float (view v) ≡ false) }
{
    let joins = render_state(alloc, hooks, kind, topic, diff.joins.as_slice())?;
    let leaves = render_state(alloc, hooks, kind, topic, diff.leaves.as_slice())?;
    diff_object(alloc, joins, leaves)
}
