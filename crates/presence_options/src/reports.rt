//! What an operator is told, by the words for it.
ghost use Rattle.std.specs.Prelude.{◌≡◌, IfOk, IfErr, IsTrue, OnOk, Some, is_some, option_map};
ghost use Rattle.presence_options.specs.Given.{IsFor, format_in, logged_in};

use crate::fault::{UsageCause, UsageFault};
use crate::options::{LineFormat, Logged};
use crate::values::usage_of;
use std::alloc::Global;

// What a word says is logged, if it says that.
fn logged_in(word: &str) -> Option<Logged>
    ensures { result ≡ logged_in word.now }
{
    if word == "refused" {
        Some(Logged::Refusals)
    } else if word == "all" {
        Some(Logged::Everything)
    } else if word == "none" {
        Some(Logged::Nothing)
    } else {
        None
    }
}

// As what a word says lines are written, if it says that.
fn format_in(word: &str) -> Option<LineFormat>
    ensures { result ≡ format_in word.now }
{
    if word == "text" {
        Some(LineFormat::Plain)
    } else if word == "json" {
        Some(LineFormat::Json)
    } else {
        None
    }
}

/// What is logged, by this word.
pub(crate) fn logged_of(alloc: Global, word: &str) -> Result<Logged, UsageFault>
    ensures logged { IfOk result (λ logged. logged_in word.now ≡ Some logged) }
    ensures word { OnOk result (IsTrue (is_some (logged_in word.now))) }
    ensures cause { IfErr result (IsFor UsageCause.Log (IsTrue (is_some (logged_in word.now)) → ⊥)) }
{
    match logged_in(word) {
        Some(logged) => Ok(logged),
        None => Err(usage_of(
            UsageCause::Log,
            format!(in alloc; "--log '{word}': refused, all or none is logged"),
        )),
    }
}

/// As what lines are written, by this word.
pub(crate) fn format_of(alloc: Global, word: &str) -> Result<LineFormat, UsageFault>
    ensures format { IfOk result (λ format. format_in word.now ≡ Some format) }
    ensures word { OnOk result (IsTrue (is_some (format_in word.now))) }
    ensures cause { IfErr result (IsFor UsageCause.LogFormat (IsTrue (is_some (format_in word.now)) → ⊥)) }
{
    match format_in(word) {
        Some(format) => Ok(format),
        None => Err(usage_of(
            UsageCause::LogFormat,
            format!(in alloc; "--log-format '{word}': lines are written as text or json"),
        )),
    }
}
