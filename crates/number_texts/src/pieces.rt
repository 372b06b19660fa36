//! The pieces of a text, one after another.
ghost use Rattle.std.specs.Prelude.{◌≡◌, ◌<◌, ◌∷◌, ◌==◌, ◌&&◌, not, length, true, false, slice_index, IfSome, IsCharBoundary};
ghost use Rattle.std.specs.List.{prefix_len};
ghost use Rattle.json.specs.Word.{is_space as is_space_byte};
ghost use Rattle.number_texts.specs.Pieces.{is_run as is_run_byte, is_other as is_other_byte, colon_first, pieces};
ghost use Rattle.number_texts.specs.Changes.{CutsAt, Splits, close_at};

/// A piece of a text, or several between quoted texts and runs.
#[derive(Clone, Copy)]
pub(crate) enum Part<'a> {
    /// What stands between two quotes.
    Quoted(&'a str),
    /// What stands behind a quote that has no other.
    Open(&'a str),
    /// Bytes that numbers have.
    Run(&'a str),
    Between(&'a str),
}

/// The first part of a text, and what stands behind it.
#[derive(Clone, Copy)]
pub(crate) struct Split<'a> {
    pub(crate) part: Part<'a>,
    pub(crate) rest: &'a str,
}

fn is_run(byte: u8) -> bool
    ensures { result ≡ is_run_byte byte }
{
    matches!(byte, b'+' | b'-' | b'.' | b'0'..=b'9' | b'E' | b'e')
}

fn is_other(byte: u8) -> bool
    ensures { result ≡ is_other_byte byte }
{
    byte != b'"' && !is_run(byte)
}

// How many bytes of numbers stand in front.
fn run_len(bytes: &[u8]) -> usize
    ensures { result ≡ prefix_len is_run_byte bytes.now }
{
    let mut len = 0;
    while len < bytes.len() && is_run(bytes[len]) {
        len += 1;
    }
    len
}

// Where the run in front ends.
fn run_end(text: &str) -> usize
    ensures end { result ≡ prefix_len is_run_byte text.now }
    ensures boundary { IsCharBoundary text.now result }
{
    run_len(text.as_bytes())
}

fn is_space(byte: u8) -> bool
    ensures { result ≡ is_space_byte byte }
{
    matches!(byte, b' ' | b'\t' | b'\n' | b'\r')
}

// How many bytes of white space stand in front.
fn space_len(bytes: &[u8]) -> usize
    ensures { result ≡ prefix_len is_space_byte bytes.now }
{
    let mut len = 0;
    while len < bytes.len() && is_space(bytes[len]) {
        len += 1;
    }
    len
}

/// Whether a colon comes first, but for white space.
#[tactic(auto, using(crate::proofs::Colons::colon_read))]
pub(crate) fn is_before_colon(text: &str) -> bool
    ensures { result ≡ colon_first (pieces text.now) }
{
    let bytes = text.as_bytes();
    let at = space_len(bytes);
    at < bytes.len() && bytes[at] == b':'
}

// How many bytes stand before the next quoted text or run.
fn between_len(bytes: &[u8]) -> usize
    ensures { result ≡ prefix_len is_other_byte bytes.now }
{
    let mut len = 0;
    while len < bytes.len() && is_other(bytes[len]) {
        len += 1;
    }
    len
}

// Where they end.
fn between_end(text: &str) -> usize
    ensures end { result ≡ prefix_len is_other_byte text.now }
    ensures boundary { IsCharBoundary text.now result }
{
    between_len(text.as_bytes())
}

// Whether a byte ends a quoted text, behind a backslash or not.
fn closes(is_escaped: bool, byte: u8) -> bool
    ensures { result ≡ (not is_escaped && (byte == 34)) }
{
    !is_escaped && byte == b'"'
}

// Whether what follows a byte of a quoted text stands behind a backslash.
fn escapes(is_escaped: bool, byte: u8) -> bool
    ensures { result ≡ (not is_escaped && (byte == 92)) }
{
    !is_escaped && byte == b'\\'
}

// Where a quoted text ends, of which these bytes stand behind the first quote.
#[tactic(auto, using(crate::proofs::Parts::close_here, crate::proofs::Parts::close_next))]
fn close_of(bytes: &[u8]) -> Option<usize>
    ensures { result ≡ close_at false bytes.now }
{
    let mut is_escaped = false;
    let mut at = 0;
    while at < bytes.len() {
        if closes(is_escaped, bytes[at]) {
            return Some(at);
        }
        is_escaped = escapes(is_escaped, bytes[at]);
        at += 1;
    }
    None
}

// Where a quoted text ends, of which this stands behind the first quote.
fn quote_end(text: &str) -> Option<usize>
    ensures end { result ≡ close_at false text.now }
    ensures cuts { IfSome result (CutsAt text.now) }
{
    close_of(text.as_bytes())
}

// The first part of a text that begins with a quote, of what stands behind that.
fn quoted_part(inner: &str) -> Split<'_>
    ensures { Splits (34 ∷ inner.now) result }
{
    match quote_end(inner) {
        Some(end) => Split {
            part: Part::Quoted(&inner[..end]),
            rest: &inner[end + 1..],
        },
        None => Split {
            part: Part::Open(inner),
            rest: "",
        },
    }
}

// The first part of a text that begins with a run.
fn run_part(text: &str) -> Split<'_>
    requires some { 0 < length text.now }
    requires run { is_run_byte (slice_index text.now 0) ≡ true }
    ensures { Splits text.now result }
{
    let end = run_end(text);
    Split {
        part: Part::Run(&text[..end]),
        rest: &text[end..],
    }
}

// The first part of a text that begins with neither.
fn between_part(text: &str) -> Split<'_>
    requires some { 0 < length text.now }
    requires quote { (slice_index text.now 0 == 34) ≡ false }
    requires run { is_run_byte (slice_index text.now 0) ≡ false }
    ensures { Splits text.now result }
{
    let end = between_end(text);
    Split {
        part: Part::Between(&text[..end]),
        rest: &text[end..],
    }
}

/// The first part of a text that isn't empty.
#[tactic(auto, using(crate::proofs::Parts::quote_of))]
pub(crate) fn first_part(text: &str) -> Split<'_>
    requires { 0 < length text.now }
    ensures { Splits text.now result }
{
    let first = text.as_bytes()[0];
    if first == b'"' {
        return quoted_part(&text[1..]);
    }
    if is_run(first) {
        return run_part(text);
    }
    between_part(text)
}
