//! Names of events as they are given.
ghost use Rattle.std.specs.Prelude.{◌≡◌, ◌++◌, ◌∷◌, [], IfOk, IfErr, IsTrue, OnOk, codes, false, map};
ghost use Rattle.presence_options.specs.Given.{AreNames, HasCause, IsFor};
ghost use Rattle.presence_options.specs.Limits.{AreEventNames, is_event_name as is_event_text};

use crate::fault::{UsageCause, UsageFault};
use crate::options::{MAX_EVENT_BYTES, MAX_EVENT_NAMES};
use crate::values::usage_of;
use presence_base::Text;
use std::alloc::{AllocError, Global};

// Whether a text may be the name of an event.
fn is_event_name(text: &str) -> bool
    ensures { result ≡ is_event_text text.now }
{
    !text.is_empty() && text.len() <= MAX_EVENT_BYTES
}

// Whether the text is the name of an event, or what is wrong with it.
fn name_checked(alloc: Global, option: &str, text: &str) -> Result<(), UsageFault>
    ensures is { OnOk result (IsTrue (is_event_text text.now)) }
    ensures cause { IfErr result (IsFor UsageCause.Event (is_event_text text.now ≡ false)) }
{
    if is_event_name(text) {
        return Ok(());
    }
    Err(usage_of(
        UsageCause::Event,
        format!(in alloc;
            "--{option} '{text}': the name of an event has 1 to {MAX_EVENT_BYTES} bytes"
        ),
    ))
}

// There are more names than may be.
fn too_many(alloc: Global, option: &str) -> UsageFault
    ensures { HasCause UsageCause.Event result }
{
    usage_of(
        UsageCause::Event,
        format!(in alloc; "--{option}: up to {MAX_EVENT_NAMES} names may be given"),
    )
}

// Whether each of these texts is the name of an event, or what is wrong with the first that is none.
#[tactic(auto, using(crate::proofs::Named::wrong_name))]
fn names_checked(alloc: Global, option: &str, texts: &[&str]) -> Result<(), UsageFault>
    ensures are { OnOk result (AreEventNames (map (λ t. t.now) texts.now)) }
    ensures cause { IfErr result (IsFor UsageCause.Event (AreEventNames (map (λ t. t.now) texts.now) → ⊥)) }
{
    for text in texts {
        name_checked(alloc, option, text)?;
    }
    Ok(())
}

// Copies of these texts.
fn copies_of(alloc: Global, texts: &[&str]) -> Result<Vec<Text>, AllocError>
    ensures { IfOk result (λ copies. copies.items ≡ map (λ t. t.now) texts.now) }
{
    let mut copies = Vec::with_capacity(alloc, texts.len())?;
    for text in texts {
        copies.push(Text::new(alloc, text)?)?;
    }
    Ok(copies)
}

/// The names of events that these texts are, which this option is given.
#[tactic(auto, using(crate::proofs::Named::named, crate::proofs::Named::misnamed, crate::proofs::Named::crowded))]
pub(crate) fn event_names_of(
    alloc: Global,
    option: &str,
    texts: &[&str],
) -> Result<Vec<Text>, UsageFault>
    ensures names { IfOk result (λ names. names.items ≡ map (λ t. t.now) texts.now) }
    ensures are { OnOk result (AreNames (map (λ t. t.now) texts.now)) }
    ensures cause { IfErr result (IsFor UsageCause.Event (AreNames (map (λ t. t.now) texts.now) → ⊥)) }
{
    if texts.len() > MAX_EVENT_NAMES {
        return Err(too_many(alloc, option));
    }
    names_checked(alloc, option, texts)?;
    match copies_of(alloc, texts) {
        Ok(names) => Ok(names),
        Err(_) => Err(UsageFault::Memory),
    }
}

/// These names, and that of all.
pub(crate) fn with_all(alloc: Global, mut names: Vec<Text>) -> Result<Vec<Text>, AllocError>
    ensures { IfOk result (λ all. all.items ≡ names.items ++ (codes "*" ∷ [])) }
{
    names.push(Text::new(alloc, "*")?)?;
    Ok(names)
}
