//! A piece: rows of a state that are told in one message.
ghost use Rattle.std.specs.Prelude.{◌≡◌, ◌<◌, ◌≤◌, true, length, IfOk};
ghost use Rattle.presence_base.specs.Names.{guarded};
ghost use Rattle.channel_pieces.specs.Pieces.{is_within, text_bytes, telling, IsPiece};

use presence_base::{Dot, Row};
use presence_journal::{Item, RowDiff, Rows, SharedDiff, SharedRows};
use std::alloc::{AllocError, Global};

/// How many bytes the text of a state has at most that is told whole.
pub const MAX_STATE_BYTES: usize = 4_194_304;

/// How many bytes the text of rows has at most that a reply lists.
pub const MAX_LISTED_BYTES: usize = 16_777_216;

/// How many bytes the text of a piece of a longer state has at most, unless it tells one row.
pub const PIECE_BYTES: usize = 524_288;

// The most that the words and references round a row take of a text.
const ROW_BYTES: usize = 256;

// The most that a byte of a key takes of a text.
const ESCAPED_BYTES: usize = 6;

// How much a row takes of a text at most.
fn most_bytes(row: &Row) -> usize {
    row.key
        .as_str()
        .len()
        .saturating_mul(ESCAPED_BYTES)
        .saturating_add(row.meta.text().len())
        .saturating_add(ROW_BYTES)
}

// How many of these rows a piece tells, by what they take at most: one at least.
fn count_of(rows: &[(Dot, Row)]) -> usize
    requires { 0 < length rows.now }
    ensures some { 0 < result }
    ensures within { result ≤ length rows.now }
{
    let mut bytes: usize = 0;
    for (index, (_dot, row)) in rows.iter().enumerate() {
        bytes = bytes.saturating_add(most_bytes(row));
        if index > 0 && bytes > PIECE_BYTES {
            return index;
        }
    }
    rows.len()
}

// The same rows once more.
fn copied(alloc: Global, rows: &[(Dot, Row)]) -> Result<Vec<(Dot, Row)>, AllocError>
    ensures { IfOk result (λ v. v.items ≡ rows.now) }
{
    let mut copies = Vec::with_capacity(alloc, rows.len())?;
    for (dot, row) in rows {
        copies.push((*dot, row.clone()?))?;
    }
    Ok(copies)
}

// The item that tells these rows of a state behind so many others.
fn item_of(alloc: Global, told: usize, rows: &[(Dot, Row)]) -> Result<Item, AllocError>
    ensures { IfOk result (λ i. i ≡ telling told rows.now) }
{
    let rows = copied(alloc, rows)?;
    if told == 0 {
        let rows = SharedRows::new(alloc, rows)?;
        return Ok(Item::State(rows.with_text(alloc)?));
    }
    let joins = Rows::new(rows);
    let leaves = Rows::new(Vec::new(alloc));
    Ok(Item::Diff(SharedDiff::new(alloc, RowDiff { joins, leaves })?))
}

// Whether the text that tells an item was written and is short.
fn is_short(item: &Item) -> bool
    ensures { result ≡ true → text_bytes item.now ≤ PIECE_BYTES }
{
    match item {
        Item::State(rows) => match rows.text() {
            Some(text) => text.len() <= PIECE_BYTES,
            None => false,
        },
        Item::Diff(diff) => diff.payload().len() <= PIECE_BYTES,
        Item::Shout(shout) => shout.payload().len() <= PIECE_BYTES,
    }
}

// What comes next behind so many rows of a long state, and how many are told then.
pub(crate) fn next_piece(
    alloc: Global,
    rows: &[(Dot, Row)],
    told: usize,
) -> Result<(Item, usize), AllocError>
    ensures { IfOk result (λ p. IsPiece rows.now told p.1 p.0) }
{
    if told >= rows.len() {
        return Ok((item_of(alloc, told, &[])?, told));
    }
    let rest = &rows[told..];
    let count = count_of(rest);
    let item = item_of(alloc, told, &rest[..count])?;
    if count == 1 || is_short(&item) {
        return Ok((item, told + count));
    }
    Ok((item_of(alloc, told, &rest[..1])?, told + 1))
}

// How long the text is that tells rows as a state.
fn state_bytes(alloc: Global, rows: &SharedRows) -> Result<usize, AllocError>
    ensures { IfOk result (λ n. n ≡ text_bytes (Item.State rows.now)) }
{
    if let Some(text) = rows.text() {
        return Ok(text.len());
    }
    let text = rows.write_text(alloc)?;
    Ok(text.as_str().len())
}

/// Whether the text that tells these rows as a state has so many bytes at most.
pub fn is_text_within(alloc: Global, rows: &[(Dot, Row)], most: usize) -> Result<bool, AllocError>
    ensures { IfOk result (λ b. b ≡ is_within most rows.now) }
{
    let state = SharedRows::new(alloc, copied(alloc, rows)?)?;
    Ok(state_bytes(alloc, &state)? <= most)
}

/// The rows with the text that tells them as a state, unless it has more bytes than these.
pub fn text_within(
    alloc: Global,
    rows: &SharedRows,
    most: usize,
) -> Result<Option<SharedRows>, AllocError>
    ensures { IfOk result (λ o. o ≡ guarded (is_within most rows.now) rows.now) }
{
    let state = rows.with_text(alloc)?;
    if state_bytes(alloc, &state)? <= most {
        return Ok(Some(state));
    }
    Ok(None)
}
