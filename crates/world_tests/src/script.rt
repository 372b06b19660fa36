//! What lines are answered.

use std::alloc::Global;
use world_lines::{LineFault, Lines};

/// Adds a line to a text.
pub(crate) fn push_line(text: &mut String, line: &str) -> bool {
    text.push_str(line).is_ok() && text.push_str("\n").is_ok()
}

// Takes a line, and notes what it is answered. Answers whether it is a line of the world.
fn take(lines: &mut Lines, alloc: Global, line: &str, said: &mut String) -> bool {
    match lines.take(alloc, line) {
        Ok(Some(answer)) => push_line(said, answer.as_str()),
        Ok(None) => true,
        Err(_) => false,
    }
}

// In which form nodes tell: in one of them always, or in each by turns.
#[derive(Clone, Copy)]
enum Forms {
    One,
    Two,
    ByTurns,
}

impl Forms {
    // The line in front of the next telling, which has this number.
    fn line(self, number: u64) -> &'static str {
        let is_first = match self {
            Forms::One => true,
            Forms::Two => false,
            Forms::ByTurns => number % 2 == 0,
        };
        if is_first {
            "[\"form\",1]"
        } else {
            "[\"form\",2]"
        }
    }
}

// Whether a node tells something by a line.
fn is_telling(line: &str) -> bool {
    line.starts_with("[\"cut\",")
        || line.starts_with("[\"full\",")
        || line.starts_with("[\"part\",")
}

// What the lines of a text are answered, one a line, where nodes tell in these forms. None where one is no line of the
// world.
fn answers(alloc: Global, text: &str, forms: Forms) -> Option<String> {
    let mut lines = Lines::new();
    let mut said = String::new(alloc);
    let mut tellings: u64 = 0;
    for line in text.lines() {
        if is_telling(line) {
            if !take(&mut lines, alloc, forms.line(tellings), &mut said) {
                return None;
            }
            tellings = tellings.saturating_add(1);
        }
        if !take(&mut lines, alloc, line, &mut said) {
            return None;
        }
    }
    Some(said)
}

fn are_answered_in(alloc: Global, text: &str, forms: Forms, wanted: &str) -> bool {
    match answers(alloc, text, forms) {
        Some(said) => said.as_str() == wanted,
        None => false,
    }
}

/// Whether the lines of a text are answered so, in whichever forms nodes tell.
pub(crate) fn are_answered(alloc: Global, text: &str, wanted: &str) -> bool {
    are_answered_in(alloc, text, Forms::One, wanted)
        && are_answered_in(alloc, text, Forms::Two, wanted)
        && are_answered_in(alloc, text, Forms::ByTurns, wanted)
}

/// Whether a line behind these is refused.
pub(crate) fn is_refused_behind(alloc: Global, before: &str, line: &str) -> bool {
    let mut lines = Lines::new();
    let mut said = String::new(alloc);
    for one in before.lines() {
        if !take(&mut lines, alloc, one, &mut said) {
            return false;
        }
    }
    match lines.take(alloc, line) {
        Err(fault) => fault == LineFault::Unknown,
        Ok(_) => false,
    }
}
