//! Lines played in turn over one world.
use crate::answers::{number_text, rows_text, yes_or_no};
use crate::fault::LineFault;
use crate::line::Line;
use crate::reading::line_of;
use node_world::{World, has_name_twice};
use orswot_core::Form;
use presence_base::{NodeName, Topic};
use std::alloc::{AllocError, Global};

/// A world by its lines: none before the nodes are named.
pub struct Lines {
    world: Option<World>,
    // The form in which nodes tell from now on.
    form: Form,
}

impl Drop for Lines {
    fn drop(self) {
        let Lines { world, form: _ } = self;
        drop(world);
    }
}

fn world_of(alloc: Global, names: &[NodeName]) -> Result<World, LineFault> {
    if has_name_twice(alloc, names)? {
        return Err(LineFault::Unknown);
    }
    let world = World::new(alloc, names)?;
    Ok(world)
}

fn listed(world: &World, alloc: Global, node: usize, topic: &Topic) -> Result<String, AllocError> {
    let rows = world.list(alloc, node, topic)?;
    rows_text(alloc, rows.as_slice())
}

// What a line makes of a world whose nodes are named, and what it is answered if it asks.
fn go_on(
    world: &mut World,
    tells_in: &mut Form,
    alloc: Global,
    line: &Line,
) -> Result<Option<String>, LineFault> {
    match line {
        Line::Names(_) => Err(LineFault::Unknown),
        Line::Happens(event) => {
            world.apply(alloc, event)?;
            Ok(None)
        }
        Line::List { node, topic } => Ok(Some(listed(world, alloc, *node, topic)?)),
        Line::Form(form) => {
            *tells_in = *form;
            Ok(None)
        }
        Line::Told => Ok(Some(number_text(alloc, world.told_count())?)),
        Line::CaughtUp { node, replica } => {
            Ok(Some(yes_or_no(alloc, world.caught_up(*node, replica))?))
        }
    }
}

impl Lines {
    /// No line yet.
    pub fn new() -> Lines {
        Lines {
            world: None,
            form: Form::One,
        }
    }

    /// Does what a line says; answers the text of what it asks for, if it asks. A line that is none of those that are allowed
    /// changes nothing, and so does one that memory ran out for.
    pub fn take(&mut self, alloc: Global, text: &str) -> Result<Option<String>, LineFault> {
        let line = line_of(alloc, text, self.form)?;
        if let Some(world) = &mut self.world {
            return go_on(world, &mut self.form, alloc, &line);
        }
        let Line::Names(names) = &line else {
            return Err(LineFault::Unknown);
        };
        let world = world_of(alloc, names.as_slice())?;
        self.world = Some(world);
        Ok(None)
    }
}
