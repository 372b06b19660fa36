// Rows of contexts.
use super::making::dot;
use super::playing::{Fault, Played};
use crate::making::replica;
use crate::texts::push_span;
use dot_context::Context;
use std::alloc::{AllocError, Global};

/// A call of a context, with counts of `b`.
#[derive(Clone, Copy)]
pub enum ContextCall {
    Add(u64),
    AddRange(u64, u64),
    /// With the context of these counts.
    Join(&'static [u64]),
    Forget,
}

fn add(context: &mut Context, alloc: Global, count: u64) -> Result<(), Fault> {
    if count == 0 {
        return Err(Fault::Limits);
    }
    let dot = dot(alloc, "b", count)?;
    context.add(alloc, dot)?;
    Ok(())
}

fn context_of(alloc: Global, counts: &[u64]) -> Result<Context, Fault> {
    let mut context = Context::new(alloc);
    for count in counts {
        add(&mut context, alloc, *count)?;
    }
    Ok(context)
}

fn push_ranges(text: &mut String, context: &Context) -> Result<(), AllocError> {
    for (replica, to) in context.ranges() {
        push_span(text, replica, 0, to)?;
    }
    Ok(())
}

fn push_cloud(text: &mut String, context: &Context) -> Result<(), AllocError> {
    for (replica, runs) in context.cloud() {
        for (from, to) in runs {
            push_span(text, replica, *from, *to)?;
        }
    }
    Ok(())
}

impl Played for Context {
    type Call = ContextCall;

    fn make(&mut self, alloc: Global, call: &ContextCall) -> Result<(), Fault> {
        let b = replica(alloc, "b")?;
        match call {
            ContextCall::Add(count) => add(self, alloc, *count)?,
            ContextCall::AddRange(from, to) => self.add_range(alloc, b, *from, *to)?,
            ContextCall::Join(counts) => self.join(alloc, &context_of(alloc, counts)?)?,
            ContextCall::Forget => self.forget(&b),
        }
        Ok(())
    }

    fn tell(&self, alloc: Global) -> Result<String, Fault> {
        let b = replica(alloc, "b")?;
        let top = self.top(&b);
        let mut text = format!(in alloc; "top {top}, ranges {{")?;
        push_ranges(&mut text, self)?;
        text.push_str(" }, cloud {")?;
        push_cloud(&mut text, self)?;
        text.push_str(" }")?;
        Ok(text)
    }
}
