//! Payloads that aren't kept as they are sent.
ghost use Rattle.std.specs.Prelude.{◌≡◌, not, IfOk};
ghost use Rattle.serde_json.specs.View.{view, items_view};
ghost use Rattle.client_settings.specs.Kept.{event_in as event_of_data, is_itself, is_mark as is_mark_data, kept_event, kept_shout, seen_told, sender_value, sent_by as sent_by_data, told_items as told_of_items, told_of as told_of_data};

use presence_base::Json;
use serde_json::{Value, json};
use std::alloc::{AllocError, Global};

/// The last item of a payload that isn't kept as it is sent.
const MARK: &str = "\u{0}";

/// What a payload tells.
#[derive(Clone, Copy)]
pub(crate) enum Told<'a> {
    /// Itself, as that of any shout.
    Itself,
    /// This one, of a shout.
    Shouted(&'a Value),
    /// This one, of an event of one's own, which doesn't go to the session of this number, if one is told.
    Evented(&'a str, Option<u64>, &'a Value),
}

fn value_of_sender(sender: Option<u64>) -> Value
    ensures { view result ≡ sender_value sender }
{
    match sender {
        None => Value::Null,
        Some(pid) => Value::from(pid),
    }
}

/// As what payload an event of one's own is kept.
pub(crate) fn keep_event(
    alloc: Global,
    event: &str,
    sender: Option<u64>,
    payload: &Json,
) -> Result<Json, AllocError>
    ensures { IfOk result (λ kept. kept ≡ kept_event event.now sender payload.now) }
{
    let sender = value_of_sender(sender);
    let payload = payload.as_value();
    let kept = json!(in alloc; [event, sender, payload, MARK])?;
    Ok(Json::new(kept))
}

/// As what payload a shout is kept that would be taken for something else.
pub(crate) fn keep_shout(alloc: Global, payload: &Json) -> Result<Json, AllocError>
    ensures { IfOk result (λ kept. kept ≡ kept_shout payload.now) }
{
    let payload = payload.as_value();
    let kept = json!(in alloc; [payload, MARK])?;
    Ok(Json::new(kept))
}

fn is_mark(value: &Value) -> bool
    ensures { result ≡ is_mark_data (view value.now) }
{
    match value {
        Value::String(text) => text.as_str() == MARK,
        _ => false,
    }
}

// What a payload tells that names an event and this sender.
fn sent_by<'a>(event: &'a str, sender: &Value, payload: &'a Value) -> Told<'a>
    ensures { seen_told result ≡ sent_by_data event.now (view sender.now) (view payload.now) }
{
    match sender {
        Value::Null => Told::Evented(event, None, payload),
        Value::Number(number) => match number.as_u64() {
            Some(pid) => Told::Evented(event, Some(pid), payload),
            None => Told::Itself,
        },
        _ => Told::Itself,
    }
}

// What a payload tells whose items in front of the mark are these.
fn event_in<'a>(event: &'a Value, sender: &Value, payload: &'a Value) -> Told<'a>
    ensures { seen_told result ≡ event_of_data (view event.now) (view sender.now) (view payload.now) }
{
    match event {
        Value::String(event) => sent_by(event.as_str(), sender, payload),
        _ => Told::Itself,
    }
}

// What an array tells.
#[tactic(auto, using(crate::proofs::Items::unmarked))]
fn told_by_items(items: &[Value]) -> Told<'_>
    ensures { seen_told result ≡ told_of_items (items_view items.now) }
{
    match items {
        [payload, last] if is_mark(last) => Told::Shouted(payload),
        [event, sender, payload, last] if is_mark(last) => event_in(event, sender, payload),
        _ => Told::Itself,
    }
}

/// What a payload tells.
pub(crate) fn told_by(payload: &Json) -> Told<'_>
    ensures { seen_told result ≡ told_of_data payload.now }
{
    match payload.as_value() {
        Value::Array(items) => told_by_items(items.as_slice()),
        _ => Told::Itself,
    }
}

/// Whether a shout of this payload would be taken for something else.
pub(crate) fn is_taken_for_kept(payload: &Json) -> bool
    ensures { result ≡ not (is_itself (told_of_data payload.now)) }
{
    !matches!(told_by(payload), Told::Itself)
}
