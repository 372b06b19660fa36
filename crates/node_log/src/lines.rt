//! What lines say.
ghost use Rattle.std.specs.Prelude.{◌≡◌, IfOk, string_bytes};
ghost use Rattle.json.specs.Print.{quoted as quoted_text};
ghost use Rattle.node_log.specs.Lines.{client_object, client_text, deed_in_object, deed_text, fields_in_object, fields_text, own_object, own_text};

use serde_json::Value;
use std::alloc::{AllocError, Global};

/// How lines are written.
#[derive(Clone, Copy, PartialEq, Eq, Debug)]
pub enum LogFormat {
    Text,
    /// An object of JSON each.
    Json,
}

// What a line says of a client, or of several.
#[derive(Clone, Copy)]
pub(crate) struct Told<'a> {
    pub time: &'a str,
    pub level: &'a str,
    /// What befell it.
    pub deed: &'a str,
    /// The name of the reason.
    pub label: &'a str,
    /// The reason in words.
    pub words: &'a str,
    /// Where the client is, or `-` for several.
    pub address: &'a str,
    /// For how many events the line stands.
    pub count: u64,
}

// A text in quotes, as JSON writes it.
fn quoted(alloc: Global, text: &str) -> Result<String, AllocError>
    ensures { IfOk result (λ s. string_bytes s ≡ quoted_text text.now) }
{
    Value::String(String::from_str(alloc, text)?).to_string(alloc)
}

// When, how much it matters, what befell a client and why.
fn deed_words(alloc: Global, told: &Told<'_>) -> Result<String, AllocError>
    ensures { IfOk result (λ s. string_bytes s ≡ deed_text told.now) }
{
    let time = told.time;
    let level = told.level;
    let deed = told.deed;
    let words = told.words;
    format!(in alloc; "{time} {level} client {deed}: {words}")
}

// The reason's name, where the client is, and how often.
fn fields_words(alloc: Global, told: &Told<'_>) -> Result<String, AllocError>
    ensures { IfOk result (λ s. string_bytes s ≡ fields_text told.now) }
{
    let label = told.label;
    let address = told.address;
    let count = told.count;
    format!(in alloc; "reason={label} address={address} count={count}")
}

// The line as a text.
pub(crate) fn client_words(alloc: Global, told: &Told<'_>) -> Result<String, AllocError>
    ensures { IfOk result (λ s. string_bytes s ≡ client_text told.now) }
{
    let deed = deed_words(alloc, told)?;
    let fields = fields_words(alloc, told)?;
    format!(in alloc; "{deed} {fields}\n")
}

// The same as members of an object.
fn deed_members(alloc: Global, told: &Told<'_>) -> Result<String, AllocError>
    ensures { IfOk result (λ s. string_bytes s ≡ deed_in_object told.now) }
{
    let time = told.time;
    let level = told.level;
    let deed = told.deed;
    let words = quoted(alloc, told.words)?;
    format!(in alloc;
        "\"time\":\"{time}\",\"level\":\"{level}\",\"client\":\"{deed}\",\"message\":{words}"
    )
}

fn fields_members(alloc: Global, told: &Told<'_>) -> Result<String, AllocError>
    ensures { IfOk result (λ s. string_bytes s ≡ fields_in_object told.now) }
{
    let label = told.label;
    let address = quoted(alloc, told.address)?;
    let count = told.count;
    format!(in alloc; "\"reason\":\"{label}\",\"address\":{address},\"count\":{count}")
}

// The line as an object.
pub(crate) fn client_members(alloc: Global, told: &Told<'_>) -> Result<String, AllocError>
    ensures { IfOk result (λ s. string_bytes s ≡ client_object told.now) }
{
    let deed = deed_members(alloc, told)?;
    let fields = fields_members(alloc, told)?;
    format!(in alloc; "{{{deed},{fields}}}\n")
}

// A line of the server's own as a text.
pub(crate) fn own_words(
    alloc: Global,
    time: &str,
    level: &str,
    words: &str,
) -> Result<String, AllocError>
    ensures { IfOk result (λ s. string_bytes s ≡ own_text time.now level.now words.now) }
{
    format!(in alloc; "{time} {level} {words}\n")
}

// The same as an object.
pub(crate) fn own_members(
    alloc: Global,
    time: &str,
    level: &str,
    words: &str,
) -> Result<String, AllocError>
    ensures { IfOk result (λ s. string_bytes s ≡ own_object time.now level.now words.now) }
{
    let words = quoted(alloc, words)?;
    format!(in alloc; "{{\"time\":\"{time}\",\"level\":\"{level}\",\"message\":{words}}}\n")
}
