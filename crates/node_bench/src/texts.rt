// Ranges, dots and rows as text.
use orswot_core::Told;
use presence_base::{Dot, Replica, Row};
use std::alloc::AllocError;

/// Adds what lies above one count, up to another.
pub fn push_span(
    text: &mut String,
    replica: &Replica,
    from: u64,
    to: u64,
) -> Result<(), AllocError> {
    let name = replica.name.as_str();
    let incarnation = replica.incarnation;
    write!(text, " {name}.{incarnation} ({from},{to}]")
}

pub fn push_dot(text: &mut String, dot: &Dot) -> Result<(), AllocError> {
    let name = dot.replica.name.as_str();
    let incarnation = dot.replica.incarnation;
    let count = dot.count;
    write!(text, " {name}.{incarnation}.{count}")
}

pub fn push_dots(text: &mut String, dots: &[Dot]) -> Result<(), AllocError> {
    for dot in dots {
        push_dot(text, dot)?;
    }
    Ok(())
}

fn push_row(text: &mut String, row: &(Dot, Row)) -> Result<(), AllocError> {
    push_dot(text, &row.0)?;
    let key = row.1.key.as_str();
    write!(text, " {key}")
}

pub fn push_rows(text: &mut String, rows: &[(Dot, Row)]) -> Result<(), AllocError> {
    for row in rows {
        push_row(text, row)?;
    }
    Ok(())
}

fn push_ranges(text: &mut String, ranges: &[(Replica, u64, u64)]) -> Result<(), AllocError> {
    for range in ranges {
        push_span(text, &range.0, range.1, range.2)?;
    }
    Ok(())
}

/// Adds the lists of a told value.
pub fn push_told(text: &mut String, told: &Told) -> Result<(), AllocError> {
    text.push_str("ranges {")?;
    push_ranges(text, told.ranges())?;
    text.push_str(" }, extras {")?;
    push_dots(text, told.extras())?;
    text.push_str(" }, live {")?;
    push_rows(text, told.live())?;
    text.push_str(" }")
}
