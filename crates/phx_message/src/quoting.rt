// Names in quotes, and references, written at the end of a text.
ghost use Rattle.std.specs.Prelude.{◌≡◌, ◌++◌, true, IfOk, OnOk, string_bytes};
ghost use Rattle.json.specs.Print.{escape, quoted as quoted_text};
ghost use Rattle.serde_json.specs.Written.{compact_text};
ghost use Rattle.phx_message.specs.Message.{ref_value};

use crate::message::MsgRef;
use serde_json::Value;
use std::alloc::{AllocError, Global};

/// A text in quotes, as JSON writes it.
pub fn quoted(alloc: Global, text: &str) -> Result<String, AllocError>
    ensures { IfOk result (λ s. string_bytes s ≡ quoted_text text.now) }
{
    Value::String(String::from_str(alloc, text)?).to_string(alloc)
}

// Whether JSON writes the text as it is.
fn is_plain(text: &str) -> bool
    ensures { result ≡ true → escape text.now ≡ text.now }
{
    for byte in text.as_bytes() {
        if *byte < 32 || *byte == 34 || *byte == 92 {
            return false;
        }
    }
    true
}

/// Writes a name in quotes behind a text. Where memory is wanting, a part of it may have been written.
#[tactic(auto, using(crate::proofs::Plain::plain_quoted))]
pub fn push_quoted(alloc: Global, text: &mut String, name: &str) -> Result<(), AllocError>
    ensures { OnOk result (string_bytes text.new ≡ string_bytes text.old ++ quoted_text name.now) }
{
    if !is_plain(name) {
        let name = quoted(alloc, name)?;
        return text.push_str(name.as_str());
    }
    text.push_str("\"")?;
    text.push_str(name)?;
    text.push_str("\"")
}

/// Writes a reference, or null, behind a text. Where memory is wanting, a part of it may have been written.
pub fn push_ref(
    alloc: Global,
    text: &mut String,
    msg_ref: &Option<MsgRef>,
) -> Result<(), AllocError>
    ensures { OnOk result (string_bytes text.new
        ≡ string_bytes text.old ++ compact_text (ref_value msg_ref.now)) }
{
    match msg_ref {
        None => text.push_str("null"),
        Some(MsgRef::Text(name)) => push_quoted(alloc, text, name.as_str()),
        Some(MsgRef::Number(n)) => {
            let n = format!(in alloc; "{n}")?;
            text.push_str(n.as_str())
        }
    }
}
