//! How the two ends of a link show one another, before the first hello, that they have a key in common: who dials says a
//! challenge, who was dialled answers by one of its own and a code in its name, and who dials proves by another code, in both
//! names, that it has the key of the first one. Neither tells a stranger its name.
ghost use Rattle.std.specs.Prelude.{◌≡◌, IfOk, bytes_eq, map, option_map, string_bytes};
ghost use Rattle.hmac_keys.specs.Hmac.{Holds};
ghost use Rattle.hmac_keys.specs.Keys.{key_bytes};
ghost use Rattle.link_rules.specs.Keying.{ByFirst, answer_in as answer_in_line, answer_text, answered, challenge_text, code_text, encoded, first_in, is_challenge as is_challenge_line, is_key_wanted as is_wanted_line, is_shown as is_shown_by, parts_in, proof_by, proof_in as proof_in_line, proof_text, proved, shown_key as shown_key_of, told, wanted_text, who_text};

use base64::engine::general_purpose::URL_SAFE_NO_PAD;
use hmac_keys::{Hmac, Keys, are_same};
use presence_base::{NodeName, Replica};
use std::alloc::{AllocError, Global};

/// How many bytes a nonce has, and a code: 32, as base64 for URLs writes them.
pub const CODE_BYTES: usize = 43;

/// A link whose challenge was answered: the nonce of who dials, that of who was dialled, and the name of who was dialled.
#[derive(Clone, Copy)]
pub struct Challenged<'a> {
    pub first: &'a [u8],
    pub second: &'a [u8],
    pub dialled: &'a NodeName,
}

/// A nonce, of bytes that nobody foretells and that were drawn for one link alone.
pub fn nonce_of(alloc: Global, bytes: &[u8; 32]) -> Result<String, AllocError>
    ensures { IfOk result (λ s. string_bytes s ≡ encoded bytes.now) }
{
    URL_SAFE_NO_PAD.encode(alloc, bytes)
}

// Who dials, as its proof names it.
fn who_of(alloc: Global, node: &Replica) -> Result<String, AllocError>
    ensures { IfOk result (λ s. string_bytes s ≡ who_text node.now) }
{
    let name = node.name.as_str();
    let incarnation = node.incarnation;
    format!(in alloc; "{name}.{incarnation}")
}

/// Whether a proof names this node.
pub fn names(alloc: Global, who: &[u8], node: &Replica) -> Result<bool, AllocError>
    ensures { IfOk result (λ b. b ≡ bytes_eq (who_text node.now) who.now) }
{
    let text = who_of(alloc, node)?;
    Ok(are_same(text.as_bytes(), who))
}

/// What who dials says first, by its nonce.
pub fn challenge_line(alloc: Global, first: &[u8]) -> Result<Vec<u8>, AllocError>
    ensures { IfOk result (λ v. v.items ≡ challenge_text first.now) }
{
    let mut line = b"challenge ".to_vec(alloc)?;
    line.extend_from_slice(first)?;
    Ok(line)
}

/// Whether the line begins as a challenge does.
pub fn is_challenge(line: &[u8]) -> bool
    ensures { result ≡ is_challenge_line line.now }
{
    line.strip_prefix(b"challenge ").is_some()
}

/// The nonce of a challenge, if the line is one.
pub fn challenge_in(line: &[u8]) -> Option<&[u8]>
    ensures { option_map (λ n. n.now) result ≡ first_in line.now }
{
    let first = line.strip_prefix(b"challenge ")?;
    if first.len() != CODE_BYTES {
        return None;
    }
    Some(first)
}

/// What who was dialled says to one that says anything else than a challenge first.
pub fn wanted_line(alloc: Global) -> Result<Vec<u8>, AllocError>
    ensures { IfOk result (λ v. v.items ≡ wanted_text) }
{
    b"key wanted".to_vec(alloc)
}

/// Whether the line, with its line feed, is that.
pub fn is_key_wanted(line: &[u8]) -> bool
    ensures { result ≡ is_wanted_line line.now }
{
    are_same(line, b"key wanted\n")
}

// A code under a key that has taken in a role and what both ends know of the link.
fn begun(key: &[u8], role: &[u8], link: &Challenged<'_>) -> Hmac
    ensures { Holds result key.now (told role.now link.now) }
{
    let mut code = Hmac::new(key);
    code.update(role);
    code.update(b" ");
    code.update(link.first);
    code.update(b" ");
    code.update(link.second);
    code.update(b" ");
    code.update(link.dialled.as_str().as_bytes());
    code
}

// The code of what who was dialled shows a key by.
fn answer_code(alloc: Global, key: &[u8], link: &Challenged<'_>) -> Result<String, AllocError>
    ensures { IfOk result (λ s. string_bytes s ≡ code_text key.now (answered link.now)) }
{
    let code = begun(key, b"answer", link);
    URL_SAFE_NO_PAD.encode(alloc, &code.finalize())
}

// The code of what who dials shows one by.
fn proof_code(
    alloc: Global,
    key: &[u8],
    link: &Challenged<'_>,
    who: &[u8],
) -> Result<String, AllocError>
    ensures { IfOk result (λ s. string_bytes s ≡ code_text key.now (proved link.now who.now)) }
{
    let mut code = begun(key, b"proof", link);
    code.update(b" ");
    code.update(who);
    URL_SAFE_NO_PAD.encode(alloc, &code.finalize())
}

// The answer to a challenge, under a key.
fn answer_by(alloc: Global, key: &[u8], link: &Challenged<'_>) -> Result<Vec<u8>, AllocError>
    ensures { IfOk result (λ v. v.items ≡ answer_text link.now key.now) }
{
    let code = answer_code(alloc, key, link)?;
    let mut line = b"answer ".to_vec(alloc)?;
    line.extend_from_slice(link.second)?;
    line.push(b' ')?;
    line.extend_from_slice(code.as_bytes())?;
    Ok(line)
}

/// What who was dialled answers to a challenge: its first key makes the code.
pub fn answer_line(alloc: Global, keys: &Keys, link: &Challenged<'_>) -> Result<Vec<u8>, AllocError>
    ensures { IfOk result (λ v. ByFirst (key_bytes keys.now)
        (answer_text link.now) v.items) }
{
    answer_by(alloc, keys.first(), link)
}

// So many bytes as a nonce or a code has, and what stands behind them and a space.
fn parts_of(text: &[u8]) -> Option<(&[u8], &[u8])>
    ensures { option_map (λ p. (p.0.now, p.1.now)) result ≡ parts_in text.now }
{
    if text.len() < CODE_BYTES {
        return None;
    }
    let (front, rest) = text.split_at(CODE_BYTES);
    match rest.strip_prefix(b" ") {
        Some(behind) => Some((front, behind)),
        None => None,
    }
}

/// The nonce of an answer and its code, if the line may be one: nothing is said of the code.
pub fn answer_in(line: &[u8]) -> Option<(&[u8], &[u8])>
    ensures { option_map (λ p. (p.0.now, p.1.now)) result ≡ answer_in_line line.now }
{
    match line.strip_prefix(b"answer ") {
        Some(rest) => parts_of(rest),
        None => None,
    }
}

/// The code of a proof and who it names, if the line may be one: nothing is said of the code.
pub fn proof_in(line: &[u8]) -> Option<(&[u8], &[u8])>
    ensures { option_map (λ p. (p.0.now, p.1.now)) result ≡ proof_in_line line.now }
{
    match line.strip_prefix(b"proof ") {
        Some(rest) => parts_of(rest),
        None => None,
    }
}

// The first of these keys under which this is the code of the answer.
fn answering<'a>(
    alloc: Global,
    keys: &'a [Vec<u8>],
    link: &Challenged<'_>,
    code: &[u8],
) -> Result<Option<&'a [u8]>, AllocError>
    ensures { IfOk result (λ o. option_map (λ k. k.now) o
        ≡ shown_key_of (map (λ k. k.items) keys.now) (answered link.now) code.now) }
{
    for key in keys {
        let expected = answer_code(alloc, key.as_slice(), link)?;
        if are_same(expected.as_bytes(), code) {
            return Ok(Some(key.as_slice()));
        }
    }
    Ok(None)
}

// The proof behind an answer, under a key.
fn proof_under(
    alloc: Global,
    key: &[u8],
    link: &Challenged<'_>,
    who: &[u8],
) -> Result<Vec<u8>, AllocError>
    ensures { IfOk result (λ v. v.items ≡ proof_text link.now who.now key.now) }
{
    let code = proof_code(alloc, key, link, who)?;
    let mut line = b"proof ".to_vec(alloc)?;
    line.extend_from_slice(code.as_bytes())?;
    line.push(b' ')?;
    line.extend_from_slice(who)?;
    Ok(line)
}

/// What this node says as who dials behind an answer with this code: under that of the keys under which the code was made; none
/// where it wasn't under any.
pub fn proof_line(
    alloc: Global,
    keys: &Keys,
    link: &Challenged<'_>,
    own: &Replica,
    code: &[u8],
) -> Result<Option<Vec<u8>>, AllocError>
    ensures { IfOk result (λ o. option_map (λ v. v.items) o
        ≡ proof_by (proof_text link.now (who_text own.now))
        (shown_key_of (key_bytes keys.now) (answered link.now) code.now)) }
{
    let who = who_of(alloc, own)?;
    match answering(alloc, keys.as_slice(), link, code)? {
        Some(key) => Ok(Some(proof_under(alloc, key, link, who.as_bytes())?)),
        None => Ok(None),
    }
}

// Whether this is the code of the proof of who dials, under one of these keys.
fn is_proof(
    alloc: Global,
    keys: &[Vec<u8>],
    link: &Challenged<'_>,
    who: &[u8],
    code: &[u8],
) -> Result<bool, AllocError>
    ensures { IfOk result (λ b. b ≡ is_shown_by (map (λ k. k.items) keys.now)
        (proved link.now who.now) code.now) }
{
    for key in keys {
        let expected = proof_code(alloc, key.as_slice(), link, who)?;
        if are_same(expected.as_bytes(), code) {
            return Ok(true);
        }
    }
    Ok(false)
}

/// Whether this code shows that the node which dialled has one of the keys, and is who its proof names.
pub fn is_proved(
    alloc: Global,
    keys: &Keys,
    link: &Challenged<'_>,
    who: &[u8],
    code: &[u8],
) -> Result<bool, AllocError>
    ensures { IfOk result (λ b. b ≡ is_shown_by (key_bytes keys.now)
        (proved link.now who.now) code.now) }
{
    is_proof(alloc, keys.as_slice(), link, who, code)
}
