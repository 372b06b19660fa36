//! In how many bytes what is told is written on a line.
ghost use Rattle.std.specs.Prelude.{◌≡◌, ◌+◌, nat_lt, length, map, max, decimal};
ghost use Rattle.json.specs.Print as json;
ghost use Rattle.link_lines.specs.Values.{range_value, dot_value, prev_value, row_value};
ghost use Rattle.link_lines.specs.Writing.{text_of};
ghost use Rattle.link_pool_port.specs.Lengths.{counted, size_of, sizes};
ghost use Rattle.link_pool_port.specs.Parts.{told_line};

use orswot_core::Told;
use presence_base::{Dot, Replica, Row};

// The digits of a number.
#[tactic(auto, using(crate::proofs::LengthLemmas::digits_of))]
fn digits(number: u64) -> usize
    ensures { result ≡ length (decimal number) }
{
    match number.checked_ilog10() {
        Some(power) => power as usize + 1,
        None => 1,
    }
}

// Whether a byte of a text has a letter of its own behind a backslash.
fn has_letter(byte: u8) -> bool
    ensures { result ≡ nat_lt 0 (json.escape_letter byte) }
{
    byte == b'"' || byte == b'\\' || (8 <= byte && byte <= 13 && byte != 11)
}

// What a byte of a text is written in: two bytes with its letter, six as another control character.
#[tactic(auto, unfolding(json::specs::Print::escape_byte))]
fn escaped(byte: u8) -> usize
    ensures { result ≡ length (json.escape_byte byte) }
{
    if has_letter(byte) {
        2
    } else if byte < 32 {
        6
    } else {
        1
    }
}

// A text between its quotes.
#[tactic(auto, using(crate::proofs::LengthLemmas::quotes_end))]
fn quoted(text: &str) -> usize
    ensures { result ≡ counted (length (json.quoted text.now)) }
{
    let mut bytes: usize = 2;
    for byte in text.as_bytes() {
        bytes = bytes.saturating_add(escaped(*byte));
    }
    bytes
}

// A replica's name and incarnation, each with the comma behind it.
fn replica_bytes(replica: &Replica) -> usize
    ensures { result ≡ counted (length (json.quoted replica.now.name) + length (decimal replica.now.incarnation) + 2) }
{
    quoted(replica.name.as_str())
        .saturating_add(digits(replica.incarnation))
        .saturating_add(2)
}

// A range with the comma behind it.
fn range_bytes(replica: &Replica, from: u64, to: u64) -> usize
    ensures { result ≡ counted (size_of (range_value (replica.now, from, to)) + 1) }
{
    replica_bytes(replica)
        .saturating_add(digits(from))
        .saturating_add(digits(to))
        .saturating_add(4)
}

// A dot.
fn dot_bytes(dot: &Dot) -> usize
    ensures { result ≡ counted (size_of (dot_value dot.now)) }
{
    replica_bytes(&dot.replica)
        .saturating_add(digits(dot.count))
        .saturating_add(2)
}

// The dot of the row that it replaced, or null.
fn prev_bytes(prev: &Option<Dot>) -> usize
    ensures { result ≡ counted (size_of (prev_value prev.now)) }
{
    match prev {
        Some(dot) => dot_bytes(dot),
        None => 4,
    }
}

/// A row with its dot and the comma behind it.
pub(crate) fn row_bytes(row: &(Dot, Row)) -> usize
    ensures { result ≡ counted (size_of (row_value row.now) + 1) }
{
    dot_bytes(&row.0)
        .saturating_add(quoted(row.1.topic.as_str()))
        .saturating_add(quoted(row.1.key.as_str()))
        .saturating_add(digits(row.1.pid))
        .saturating_add(row.1.meta.text().len())
        .saturating_add(prev_bytes(&row.1.prev))
        .saturating_add(6)
}

// Ranges, each with what stands behind it: a comma, or the end of their list.
fn ranges_bytes(ranges: &[(Replica, u64, u64)]) -> usize
    ensures { result ≡ counted (sizes (map range_value ranges.now)) }
{
    let mut bytes: usize = 0;
    for range in ranges {
        bytes = bytes.saturating_add(range_bytes(&range.0, range.1, range.2));
    }
    bytes
}

/// Rows, each with what stands behind it.
pub(crate) fn rows_bytes(rows: &[(Dot, Row)]) -> usize
    ensures { result ≡ counted (sizes (map row_value rows.now)) }
{
    let mut bytes: usize = 0;
    for row in rows {
        bytes = bytes.saturating_add(row_bytes(row));
    }
    bytes
}

// A list whose members, each with what stands behind it, have so many bytes.
fn list_bytes(members: usize) -> usize
    ensures { result ≡ counted (1 + max 1 members) }
{
    if members == 0 {
        2
    } else {
        members.saturating_add(1)
    }
}

/// The line that a told value of the second form is told on: `["told",SHARD,[RANGES,ROWS]]`.
#[tactic(auto, using(crate::proofs::LengthLemmas::told_size))]
pub(crate) fn line_bytes(shard: u32, told: &Told) -> usize
    ensures { result ≡ counted (length (text_of (told_line shard told.now))) }
{
    let ranges = list_bytes(ranges_bytes(told.ranges()));
    let rows = list_bytes(rows_bytes(told.live()));
    digits(shard as u64)
        .saturating_add(ranges)
        .saturating_add(rows)
        .saturating_add(13)
}
