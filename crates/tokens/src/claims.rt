//! What a head and claims say.
ghost use Rattle.std.specs.Prelude.{◌≡◌, [], map, option_map};
ghost use Rattle.json.specs.Value.{value_view, items_view};
ghost use Rattle.tokens.specs.Answers.{Gives};
ghost use Rattle.tokens.specs.Claimed.{begins_in, claims_in, added, is_hs256 as is_hs256_in, subject_in, talks_in, topics_in, patterns_in, names_hs256 as names_hs256_in, whole_in, whole_number};

use crate::fault::TokenFault;
use fast_float::Numeral;
use hook_registry::{RouteFault, Routes};
use json::Value;
use presence_base::Key;
use std::alloc::Global;

/// What a token grants.
#[derive(Debug, Drop)]
pub struct Claims {
    /// The one key under which its client may be tracked; none where it may only look.
    pub subject: Option<Key>,
    /// The topics that it may join, each pattern with the kind 0; none where it may join any that the server has.
    pub topics: Option<Routes>,
    /// Whether it may shout.
    pub talks: bool,
    /// The second from which on it is valid.
    pub begins: u64,
    /// The second from which on it is valid no more.
    pub ends: u64,
}

// The kind of the topics of a token: what kind they have, the server's routes say.
const TOPIC_KIND: u32 = 0;

// Whether this names the algorithm.
fn names_hs256(name: Option<&Value<'_>>) -> bool
    ensures { result ≡ names_hs256_in (option_map (λ v. value_view v.now) name.entry) }
{
    match name {
        Some(Value::String(name)) => *name == "HS256",
        _ => false,
    }
}

/// Whether the head names HMAC with SHA-256, and nothing that must be understood beside it.
pub(crate) fn is_hs256(head: &Value<'_>) -> bool
    ensures { result ≡ is_hs256_in (value_view head.now) }
{
    names_hs256(head.get("alg")) && head.get("crit").is_none()
}

// The number that digits are, where they are all of it.
fn number_of(text: &str) -> Option<u64>
    ensures { result ≡ whole_number text.now }
{
    Numeral::scan(text.as_bytes()).to_u64()
}

// The whole number that this is.
fn whole_of(value: Option<&Value<'_>>) -> Result<u64, TokenFault>
    ensures { result ≡ whole_in (option_map (λ v. value_view v.now) value.entry) }
{
    let Some(Value::Number(text)) = value else {
        return Err(TokenFault::BadClaims);
    };
    match number_of(*text) {
        Some(number) => Ok(number),
        None => Err(TokenFault::BadClaims),
    }
}

// The second from which on a token is valid.
fn begins_of(value: Option<&Value<'_>>) -> Result<u64, TokenFault>
    ensures { result ≡ begins_in (option_map (λ v. value_view v.now) value.entry) }
{
    match value {
        None => Ok(0),
        Some(value) => whole_of(Some(value)),
    }
}

// Whether its client may shout.
fn talks_of(value: Option<&Value<'_>>) -> Result<bool, TokenFault>
    ensures { result ≡ talks_in (option_map (λ v. value_view v.now) value.entry) }
{
    match value {
        None => Ok(true),
        Some(Value::Bool(talks)) => Ok(*talks),
        Some(_) => Err(TokenFault::BadClaims),
    }
}

// The subject, where there is one.
fn subject_of(alloc: Global, value: Option<&Value<'_>>) -> Result<Option<Key>, TokenFault>
    ensures { Gives (λ s. s) result (subject_in (option_map (λ v. value_view v.now) value.entry)) }
{
    match value {
        None => Ok(None),
        Some(Value::String(text)) => match Key::new(alloc, *text) {
            Ok(Some(subject)) => Ok(Some(subject)),
            Ok(None) => Err(TokenFault::BadClaims),
            Err(_) => Err(TokenFault::OutOfMemory),
        },
        Some(_) => Err(TokenFault::BadClaims),
    }
}

// Adds the pattern that this is.
fn add(alloc: Global, topics: &mut Routes, value: &Value<'_>) -> Result<(), TokenFault>
    ensures { Gives (λ _. topics.new) result (added topics.old (value_view value.now)) }
{
    let Value::String(pattern) = value else {
        return Err(TokenFault::BadClaims);
    };
    match topics.add(alloc, *pattern, TOPIC_KIND) {
        Ok(()) => Ok(()),
        Err(RouteFault::OutOfMemory) => Err(TokenFault::OutOfMemory),
        Err(RouteFault::BadPattern | RouteFault::TooMany) => Err(TokenFault::BadClaims),
    }
}

// The topics that these patterns are.
fn patterns_of(alloc: Global, values: &Vec<Value<'_>>) -> Result<Routes, TokenFault>
    ensures { Gives (λ r. r) result (patterns_in (items_view values.now.items) []) }
{
    let mut topics = Routes::new(alloc);
    for value in values {
        add(alloc, &mut topics, value)?;
    }
    Ok(topics)
}

// The topics, where some are named.
fn topics_of(alloc: Global, value: Option<&Value<'_>>) -> Result<Option<Routes>, TokenFault>
    ensures { Gives (option_map (λ r. r)) result (topics_in (option_map (λ v. value_view v.now) value.entry)) }
{
    match value {
        None => Ok(None),
        Some(Value::Array(values)) => Ok(Some(patterns_of(alloc, values)?)),
        Some(_) => Err(TokenFault::BadClaims),
    }
}

/// What is claimed.
#[tactic(auto, unfolding(crate::specs::Claimed::claims_in))]
pub(crate) fn claims_of(alloc: Global, value: &Value<'_>) -> Result<Claims, TokenFault>
    ensures { Gives (λ c. record {
      subject = c.subject;
      topics = c.topics;
      talks = c.talks;
      begins = c.begins;
      ends = c.ends;
    }) result (claims_in (value_view value.now)) }
{
    let ends = whole_of(value.get("exp"))?;
    let begins = begins_of(value.get("nbf"))?;
    let talks = talks_of(value.get("talk"))?;
    let subject = subject_of(alloc, value.get("sub"))?;
    let topics = topics_of(alloc, value.get("topics"))?;
    Ok(Claims {
        subject,
        topics,
        talks,
        begins,
        ends,
    })
}
