//! A row behind others.
ghost use Rattle.std.specs.Prelude.{◌≡◌, ◌++◌, Some, OnOk, option_copied, string_bytes};
ghost use Rattle.presence_metas.specs.Texts.{key_text, row_text, between, ending};

use crate::metas::push_meta;
use phx_message::push_quoted;
use presence_base::{Dot, Key, Row};
use std::alloc::{AllocError, Global};

// Begins a key.
fn push_key(alloc: Global, text: &mut String, key: &Key) -> Result<(), AllocError>
    ensures { OnOk result (string_bytes text.new ≡ string_bytes text.old ++ key_text key.now) }
{
    push_quoted(alloc, text, key.as_str())?;
    text.push_str(":{\"metas\":[")
}

// Goes on after a row of the key `before`.
fn push_after(alloc: Global, text: &mut String, before: &Key, key: &Key) -> Result<(), AllocError>
    ensures { OnOk result (string_bytes text.new
        ≡ string_bytes text.old ++ between (Some before.now) key.now) }
{
    if before.as_str() == key.as_str() {
        return text.push_str(",");
    }
    text.push_str("]},")?;
    push_key(alloc, text, key)
}

// Writes what stands before a row's meta.
fn push_between(
    alloc: Global,
    text: &mut String,
    last: Option<&Key>,
    key: &Key,
) -> Result<(), AllocError>
    ensures { OnOk result (string_bytes text.new
        ≡ string_bytes text.old ++ between (option_copied last.entry) key.now) }
{
    match last {
        None => push_key(alloc, text, key),
        Some(before) => push_after(alloc, text, before, key),
    }
}

// Writes a row.
pub(crate) fn push_row(
    alloc: Global,
    text: &mut String,
    last: Option<&Key>,
    dot: &Dot,
    row: &Row,
) -> Result<(), AllocError>
    ensures { OnOk result (string_bytes text.new
        ≡ string_bytes text.old ++ (between (option_copied last.entry) row.now.key ++ row_text (dot.now, row.now))) }
{
    push_between(alloc, text, last, &row.key)?;
    push_meta(alloc, text, dot, row)
}

// Closes the last key, where there is one, and the object.
pub(crate) fn push_ending(text: &mut String, last: Option<&Key>) -> Result<(), AllocError>
    ensures { OnOk result (string_bytes text.new ≡ string_bytes text.old ++ ending (option_copied last.entry)) }
{
    match last {
        None => text.push_str("}"),
        Some(_) => text.push_str("]}}"),
    }
}
