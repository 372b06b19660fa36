// Rows of joined deltas.
use super::making::{DeltaOf, delta_of};
use super::playing::{Fault, Played};
use crate::texts::push_told;
use delta_range::Delta;
use orswot_core::Form;
use std::alloc::Global;

/// The deltas that were joined so far, as one.
#[derive(Drop)]
pub struct Joined {
    delta: Option<Delta>,
}

impl Joined {
    pub fn new() -> Joined {
        Joined { delta: None }
    }
}

/// A call of a delta.
#[derive(Clone, Copy)]
pub enum DeltaCall {
    New(DeltaOf),
    JoinNext(DeltaOf),
}

fn join_next(delta: &Option<Delta>, alloc: Global, next: &DeltaOf) -> Result<Delta, Fault> {
    let Some(first) = delta else {
        return Err(Fault::NoDelta);
    };
    let next = delta_of(alloc, next)?;
    Ok(first.join_next(alloc, &next)?)
}

impl Played for Joined {
    type Call = DeltaCall;

    fn make(&mut self, alloc: Global, call: &DeltaCall) -> Result<(), Fault> {
        let delta = match call {
            DeltaCall::New(of) => delta_of(alloc, of)?,
            DeltaCall::JoinNext(of) => join_next(&self.delta, alloc, of)?,
        };
        self.delta = Some(delta);
        Ok(())
    }

    fn tell(&self, alloc: Global) -> Result<String, Fault> {
        let mut text = String::new(alloc);
        match &self.delta {
            Some(delta) => push_told(&mut text, &delta.told(alloc, Form::One)?)?,
            None => text.push_str("no delta")?,
        }
        Ok(text)
    }
}
