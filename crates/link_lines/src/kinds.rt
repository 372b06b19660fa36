//! Kinds of lines.
ghost use Rattle.std.specs.Prelude.{◌≡◌};
ghost use Rattle.serde_json.specs.View.{view, items_view};
ghost use Rattle.link_lines.specs.Kinds.{kind_named, kind_first, kind_of_all, kind_in};

use serde_json::Value;

/// The kinds of lines, as the first member of each names them.
#[derive(Clone, Copy, PartialEq, Eq, Debug)]
pub(crate) enum Kind {
    Hello,
    Beat,
    Want,
    Told,
    PermDown,
    Gone,
    Ok,
}

fn kind_of_name(name: &str) -> Option<Kind>
    ensures { result ≡ kind_named name.now }
{
    if name == "hello" {
        Some(Kind::Hello)
    } else if name == "beat" {
        Some(Kind::Beat)
    } else if name == "want" {
        Some(Kind::Want)
    } else if name == "told" {
        Some(Kind::Told)
    } else if name == "permdown" {
        Some(Kind::PermDown)
    } else if name == "gone" {
        Some(Kind::Gone)
    } else if name == "ok" {
        Some(Kind::Ok)
    } else {
        None
    }
}

fn kind_of_first(first: &Value) -> Option<Kind>
    ensures { result ≡ kind_first (view first.now) }
{
    match first {
        Value::String(name) => kind_of_name(name.as_str()),
        _ => None,
    }
}

fn kind_of_items(items: &[Value]) -> Option<Kind>
    ensures { result ≡ kind_of_all (items_view items.now) }
{
    if items.is_empty() {
        return None;
    }
    kind_of_first(&items[0])
}

// The kind that the first member of an array names.
pub(crate) fn kind_of(value: &Value) -> Option<Kind>
    ensures { result ≡ kind_in (view value.now) }
{
    match value {
        Value::Array(items) => kind_of_items(items),
        _ => None,
    }
}
