//! Counts as a text.
ghost use Rattle.std.specs.Prelude.{◌≡◌, IfOk, string_bytes};
ghost use Rattle.serve_metrics.specs.Lines.{Leaves, head_lines, named_line, naming_of, numbered_line, plain_line, values_of, with_count, with_named, with_numbered};

use std::alloc::{AllocError, Global};

/// A name that is counted under, by one label or none.
#[derive(Clone, Copy)]
pub(crate) struct Family {
    pub name: &'static str,
    /// What it counts.
    pub help: &'static str,
    /// `counter`, or `gauge` for what may fall.
    pub kind: &'static str,
    /// The name of its label: empty where it has none.
    pub label: &'static str,
}

// The lines before a family's counts.
fn head(alloc: Global, family: &Family) -> Result<String, AllocError>
    ensures { IfOk result (λ s. string_bytes s ≡ head_lines (naming_of family.now)) }
{
    let name = family.name;
    let help = family.help;
    let kind = family.kind;
    format!(in alloc; "# HELP {name} {help}\n# TYPE {name} {kind}\n")
}

// The line of a family that has one count.
fn plain(alloc: Global, family: &Family, count: u64) -> Result<String, AllocError>
    ensures { IfOk result (λ s. string_bytes s ≡ plain_line (naming_of family.now) count) }
{
    let name = family.name;
    format!(in alloc; "{name} {count}\n")
}

// A line of a family that has one for each value of its label.
fn labelled(alloc: Global, family: &Family, value: &str, count: u64) -> Result<String, AllocError>
    ensures { IfOk result (λ s. string_bytes s ≡ named_line (naming_of family.now) value.now count) }
{
    let name = family.name;
    let label = family.label;
    format!(in alloc; "{name}{{{label}=\"{value}\"}} {count}\n")
}

// A line of a family that has one for each shard.
fn numbered(alloc: Global, family: &Family, number: usize, count: u64) -> Result<String, AllocError>
    ensures { IfOk result (λ s. string_bytes s ≡ numbered_line (naming_of family.now) number count) }
{
    let name = family.name;
    let label = family.label;
    format!(in alloc; "{name}{{{label}=\"{number}\"}} {count}\n")
}

/// Puts a family of one count behind a text.
pub(crate) fn count_text(
    alloc: Global,
    text: &mut String,
    family: &Family,
    count: u64,
) -> Result<(), AllocError>
    ensures { Leaves (string_bytes text.new)
        (with_count (string_bytes text.old) (naming_of family.now) count) result }
{
    let head = head(alloc, family)?;
    let line = plain(alloc, family, count)?;
    text.push_str(head.as_str())?;
    text.push_str(line.as_str())
}

/// Puts a family behind a text: a line for each of these values of its label.
pub(crate) fn named_text(
    alloc: Global,
    text: &mut String,
    family: &Family,
    counts: &[(&'static str, u64)],
) -> Result<(), AllocError>
    ensures { Leaves (string_bytes text.new)
        (with_named (string_bytes text.old) (naming_of family.now) (values_of counts.now)) result }
{
    let head = head(alloc, family)?;
    text.push_str(head.as_str())?;
    for (value, count) in counts {
        let line = labelled(alloc, family, value, *count)?;
        text.push_str(line.as_str())?;
    }
    Ok(())
}

/// Puts a family behind a text: a line for each shard, by its number.
pub(crate) fn numbered_text(
    alloc: Global,
    text: &mut String,
    family: &Family,
    counts: &[u64],
) -> Result<(), AllocError>
    ensures { Leaves (string_bytes text.new)
        (with_numbered (string_bytes text.old) (naming_of family.now) counts.now) result }
{
    let head = head(alloc, family)?;
    text.push_str(head.as_str())?;
    for (number, count) in counts.iter().enumerate() {
        let line = numbered(alloc, family, number, *count)?;
        text.push_str(line.as_str())?;
    }
    Ok(())
}
