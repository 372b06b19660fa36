//! Told values of so many rows and extras.
use crate::desk::ONE;
use link_lines::{Line, decode_line};
use orswot_core::{Form, Orswot, Told};
use std::alloc::{AllocError, Global};

// The most that a told value may bring, and one more.
pub(super) const MOST: u64 = 65_536;

pub(super) const TOO_MANY: u64 = 65_537;

// A row of b.1.2.
const ROW: &str = r#"["b",1,2,"room:a","u2",5,{},null]"#;

// A told line with the dots of b.1 from one count up to another, and this list of rows.
fn part_text(alloc: Global, first: u64, last: u64, rows: &str) -> Result<String, AllocError> {
    let mut text = String::from_str(alloc, "[\"told\",0,[[],[")?;
    for count in first..last {
        let dot = format!(in alloc; "[\"b\",1,{count}],")?;
        text.push_str(dot.as_str())?;
    }
    let end = format!(in alloc; "[\"b\",1,{last}]],[{rows}]]]")?;
    text.push_str(end.as_str())?;
    Ok(text)
}

// Takes in the dots of b.1 from one count up to another, and this list of rows.
fn join_part(
    alloc: Global,
    set: &mut Orswot,
    first: u64,
    last: u64,
    rows: &str,
) -> Result<(), AllocError> {
    let text = part_text(alloc, first, last, rows)?;
    match decode_line(alloc, text.as_str(), ONE) {
        Ok(Line::Told { told, .. }) => set.join(alloc, &told.told),
        _ => Err(AllocError),
    }
}

// In the first form so many rows and extras: b.1.2 with its row, and the counts behind it, each an extra since b.1.1 is
// missing. In the second it is one row and one range.
pub(super) fn counted_told(alloc: Global, things: u64, form: Form) -> Result<Told, AllocError> {
    let mut set = Orswot::new(alloc);
    join_part(alloc, &mut set, 2, 40_000, ROW)?;
    join_part(alloc, &mut set, 40_001, things, "")?;
    set.told(alloc, form)
}

// A told line with the rows of b.1 from one count up to another, which are all that it tells.
fn rows_text(alloc: Global, first: u64, last: u64) -> Result<String, AllocError> {
    let from = first.saturating_sub(1);
    let mut text = format!(in alloc; "[\"told\",0,[[[\"b\",1,{from},{last}]],[],[")?;
    for count in first..last {
        let row = format!(in alloc; "[\"b\",1,{count},\"room:a\",\"u2\",5,{{}},null],")?;
        text.push_str(row.as_str())?;
    }
    let end = format!(in alloc; "[\"b\",1,{last},\"room:a\",\"u2\",5,{{}},null]]]]")?;
    text.push_str(end.as_str())?;
    Ok(text)
}

// Takes in the rows of b.1 from one count up to another.
fn join_rows(alloc: Global, set: &mut Orswot, first: u64, last: u64) -> Result<(), AllocError> {
    let text = rows_text(alloc, first, last)?;
    match decode_line(alloc, text.as_str(), ONE) {
        Ok(Line::Told { told, .. }) => set.join(alloc, &told.told),
        _ => Err(AllocError),
    }
}

// So many rows of b.1, from the first count on.
pub(super) fn rows_told(alloc: Global, rows: u64, form: Form) -> Result<Told, AllocError> {
    let mut set = Orswot::new(alloc);
    join_rows(alloc, &mut set, 1, 40_000)?;
    join_rows(alloc, &mut set, 40_001, rows)?;
    set.told(alloc, form)
}
