// Rows of sets.
use super::making::{ToldOf, row, set_dot, told_of};
use super::playing::{Fault, Played};
use crate::making::replica;
use crate::texts::push_told;
use orswot_core::{Form, Orswot};
use std::alloc::Global;

/// A call of a set, with counts of `b`.
#[derive(Clone, Copy)]
pub enum SetCall {
    Add(u64),
    /// The row of a count, by the count of its removal.
    Remove(u64, u64),
    Join(ToldOf),
    /// With the set that heard this alone.
    JoinAll(ToldOf),
    Forget,
}

fn add(set: &mut Orswot, alloc: Global, count: u64) -> Result<(), Fault> {
    let dot = set_dot(alloc, count)?;
    let row = row(alloc, count)?;
    if !set.covers(&dot) {
        set.add(alloc, dot, row)?;
    }
    Ok(())
}

fn remove(set: &mut Orswot, alloc: Global, count: u64, event: u64) -> Result<(), Fault> {
    let event = set_dot(alloc, event)?;
    let gone = [set_dot(alloc, count)?];
    set.remove(alloc, &gone, event)?;
    Ok(())
}

fn join(set: &mut Orswot, alloc: Global, tells: &ToldOf) -> Result<(), Fault> {
    let told = told_of(alloc, tells)?;
    set.join(alloc, &told)?;
    Ok(())
}

fn join_all(set: &mut Orswot, alloc: Global, tells: &ToldOf) -> Result<(), Fault> {
    let mut other = Orswot::new(alloc);
    join(&mut other, alloc, tells)?;
    set.join_all(alloc, &other)?;
    Ok(())
}

fn forget(set: &mut Orswot, alloc: Global) -> Result<(), Fault> {
    let b = replica(alloc, "b")?;
    set.forget(&b);
    Ok(())
}

impl Played for Orswot {
    type Call = SetCall;

    fn make(&mut self, alloc: Global, call: &SetCall) -> Result<(), Fault> {
        match call {
            SetCall::Add(count) => add(self, alloc, *count),
            SetCall::Remove(count, event) => remove(self, alloc, *count, *event),
            SetCall::Join(tells) => join(self, alloc, tells),
            SetCall::JoinAll(tells) => join_all(self, alloc, tells),
            SetCall::Forget => forget(self, alloc),
        }
    }

    fn tell(&self, alloc: Global) -> Result<String, Fault> {
        let b = replica(alloc, "b")?;
        let top = self.top(&b);
        let told = self.told(alloc, Form::One)?;
        let mut text = format!(in alloc; "top {top}, ")?;
        push_told(&mut text, &told)?;
        Ok(text)
    }
}
