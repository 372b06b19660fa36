//! Tokens that this server's keeper makes, to try a client.
ghost use Rattle.std.specs.Prelude.{◌≡◌, ◌++◌, IfOk, OnOk, map, option_map, string_bytes};
ghost use Rattle.tokens.specs.Granting.{same_subject};
ghost use Rattle.tokens.specs.Making.{are_alike, claims_part, claims_text as claims_text_of, head_part, is_wanted as is_wanted_in, made_text, patterns_text, rest_text, subject_text, token_text, topics_text, wanted_in};
ghost use Rattle.tokens.specs.Views.{granted_by};

use crate::claims::Claims;
use crate::judging::code_of;
use base64::engine::general_purpose::URL_SAFE_NO_PAD;
use hmac_keys::Keys;
use phx_message::push_quoted;
use std::alloc::{AllocError, Global};

/// What a token is to grant: to be tracked under the subject, if one is told; to join topics that one of the patterns matches,
/// or any.
#[derive(Clone, Copy)]
pub struct Wanted<'a> {
    pub subject: Option<&'a str>,
    pub topics: Option<&'a [String]>,
    /// The second from which on it is valid no more.
    pub ends: u64,
}

// The head of each token.
const HEAD: &str = "{\"alg\":\"HS256\",\"typ\":\"JWT\"}";

// Writes the subject, if there is one.
fn push_subject(alloc: Global, text: &mut String, subject: Option<&str>) -> Result<(), AllocError>
    ensures { OnOk result (string_bytes text.new ≡ string_bytes text.old ++ subject_text (option_map (λ s. s.now) subject.entry)) }
{
    let Some(subject) = subject else {
        return Ok(());
    };
    text.push_str("\"sub\":")?;
    push_quoted(alloc, text, subject)?;
    text.push_str(",")
}

// Writes the patterns behind another.
fn push_rest(alloc: Global, text: &mut String, patterns: &[String]) -> Result<(), AllocError>
    ensures { OnOk result (string_bytes text.new ≡ string_bytes text.old ++ rest_text (map string_bytes patterns.now)) }
{
    for pattern in patterns {
        text.push_str(",")?;
        push_quoted(alloc, text, pattern.as_str())?;
    }
    Ok(())
}

// Writes patterns.
fn push_patterns(alloc: Global, text: &mut String, patterns: &[String]) -> Result<(), AllocError>
    ensures { OnOk result (string_bytes text.new ≡ string_bytes text.old ++ patterns_text (map string_bytes patterns.now)) }
{
    let Some((first, rest)) = patterns.split_first() else {
        return Ok(());
    };
    push_quoted(alloc, text, first.as_str())?;
    push_rest(alloc, text, rest)
}

// Writes the topics, if some are named.
fn push_topics(
    alloc: Global,
    text: &mut String,
    topics: Option<&[String]>,
) -> Result<(), AllocError>
    ensures { OnOk result (string_bytes text.new
        ≡ string_bytes text.old ++ topics_text (option_map (λ t. map string_bytes t.now) topics.entry)) }
{
    let Some(topics) = topics else {
        return Ok(());
    };
    text.push_str("\"topics\":[")?;
    push_patterns(alloc, text, topics)?;
    text.push_str("],")
}

// The claims.
fn claims_text(alloc: Global, wanted: Wanted<'_>) -> Result<String, AllocError>
    ensures { IfOk result (λ s. string_bytes s ≡ claims_text_of (wanted_in wanted.entry)) }
{
    let ends = wanted.ends;
    let mut text = String::from_str(alloc, "{")?;
    push_subject(alloc, &mut text, wanted.subject)?;
    push_topics(alloc, &mut text, wanted.topics)?;
    let end = format!(in alloc; "\"exp\":{ends}}}")?;
    text.push_str(end.as_str())?;
    Ok(text)
}

// Head and claims, as they are encoded.
fn encoded(alloc: Global, wanted: Wanted<'_>) -> Result<(String, String), AllocError>
    ensures head { IfOk result (λ t. string_bytes t.0 ≡ head_part) }
    ensures claims { IfOk result (λ t. string_bytes t.1 ≡ claims_part (wanted_in wanted.entry)) }
{
    let claims = claims_text(alloc, wanted)?;
    let head = URL_SAFE_NO_PAD.encode(alloc, HEAD.as_bytes())?;
    let claims = URL_SAFE_NO_PAD.encode(alloc, claims.as_bytes())?;
    Ok((head, claims))
}

// A token that grants this, signed with a key.
#[tactic(auto, unfolding(crate::specs::Making::token_text))]
fn make(alloc: Global, key: &[u8], wanted: Wanted<'_>) -> Result<String, AllocError>
    ensures { IfOk result (λ s. string_bytes s ≡ token_text key.now (wanted_in wanted.entry)) }
{
    let (head, claims) = encoded(alloc, wanted)?;
    let code = code_of(key, head.as_bytes(), claims.as_bytes());
    let mut token = head;
    token.push_str(".")?;
    token.push_str(claims.as_str())?;
    token.push_str(".")?;
    URL_SAFE_NO_PAD.encode_string(&code, &mut token)?;
    Ok(token)
}

/// A token that grants this, signed with the first of the keys.
pub(crate) fn made(alloc: Global, keys: &Keys, wanted: Wanted<'_>) -> Result<String, AllocError>
    ensures { IfOk result (λ s. string_bytes s ≡ made_text keys.now (wanted_in wanted.entry)) }
{
    make(alloc, keys.first(), wanted)
}

// Whether the subject is this, or none is wanted and there is none.
fn has_subject(claims: &Claims, wanted: Option<&str>) -> bool
    ensures { result ≡ same_subject (granted_by claims.now).subject (option_map (λ s. s.now) wanted.entry) }
{
    match (&claims.subject, wanted) {
        (None, None) => true,
        (Some(subject), Some(wanted)) => subject.as_str() == wanted,
        _ => false,
    }
}

// Whether topics are named where some are wanted.
fn names_topics(claims: &Claims, wanted: Option<&[String]>) -> bool
    ensures { result ≡ are_alike (granted_by claims.now).topics (option_map (λ t. map string_bytes t.now) wanted.entry) }
{
    match (&claims.topics, wanted) {
        (None, None) | (Some(_), Some(_)) => true,
        _ => false,
    }
}

/// Whether what is claimed is what is wanted.
pub(crate) fn is_wanted(claims: &Claims, wanted: Wanted<'_>) -> bool
    ensures { result ≡ is_wanted_in (wanted_in wanted.entry) (granted_by claims.now) }
{
    has_subject(claims, wanted.subject)
        && names_topics(claims, wanted.topics)
        && claims.talks
        && claims.begins == 0
        && claims.ends == wanted.ends
}
