// Rows of kept deltas.
ghost use Rattle.std.specs.Prelude.{◌≡◌, codes, option_map};

use super::making::{DeltaOf, delta_of};
use super::playing::{Fault, Played};
use delta_range::{Delta, Generations};
use orswot_core::Form;
use std::alloc::{AllocError, Global};

/// The generations after some deltas of `b`, and where the last of these ended.
#[derive(Drop)]
pub struct Pushed {
    kept: Generations,
    end: Option<u64>,
    ghost last: { kept.last ≡ option_map (λ n. (record { name = codes "b"; incarnation = 1 }, n)) end },
}

impl Pushed {
    pub fn new() -> Pushed {
        Pushed {
            kept: Generations::new(),
            end: None,
        }
    }
}

// Where the delta begins and ends, and how many rows and older runs it has.
fn size_of(delta: &Delta) -> (u64, u64, usize) {
    let size = delta.live().len().saturating_add(delta.older().len());
    (delta.from(), delta.to(), size)
}

// Adds what is picked for a count.
fn push_picked(text: &mut String, count: u64, picked: (u64, u64, usize)) -> Result<(), AllocError> {
    let (from, to, size) = picked;
    write!(text, " from_count({count}) is ({from},{to}] of {size};")
}

// Adds what is picked for each count, where that differs from what is picked for the count before it.
fn push_all_picked(text: &mut String, pushed: &Pushed) -> Result<(), AllocError> {
    let mut before = None;
    for count in 0..=pushed.end.unwrap_or(0) {
        let picked = pushed.kept.from_count(count, Form::One).map(size_of);
        if picked != before {
            if let Some(delta) = picked {
                push_picked(text, count, delta)?;
            }
            before = picked;
        }
    }
    Ok(())
}

impl Played for Pushed {
    type Call = DeltaOf;

    fn make(&mut self, alloc: Global, call: &DeltaOf) -> Result<(), Fault> {
        if call.node != "b" {
            return Err(Fault::NoDelta);
        }
        let delta = delta_of(alloc, call)?;
        match self.end {
            None => self.kept.push(alloc, delta)?,
            Some(end) if end == call.from => self.kept.push(alloc, delta)?,
            Some(_) => return Err(Fault::NoDelta),
        }
        self.end = Some(call.to);
        Ok(())
    }

    fn tell(&self, alloc: Global) -> Result<String, Fault> {
        let mut text = String::from_str(alloc, "kept {")?;
        push_all_picked(&mut text, self)?;
        text.push_str(" }")?;
        Ok(text)
    }
}
