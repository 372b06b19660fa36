//! A run of events from the first world on.
ghost use Rattle.std.specs.Prelude.{◌≡◌, true, false, IfOk, OnOk};
ghost use Rattle.std.specs.List.{list_all};
ghost use Rattle.presence_base.specs.Names.{is_node_name};
ghost use Rattle.presence_base.specs.Order.{same_text};
ghost use Rattle.orswot_core.specs.Checks.{has_repeat};
ghost use Rattle.node_world.specs.World.{start, Runs};
ghost use Rattle.node_world.specs.Claims.{NothingInvented, NothingResurrectedBy, CaughtUpIsEqual};

use crate::event::Event;
use crate::world::World;
use presence_base::NodeName;
use std::alloc::{AllocError, Global};

// Each name is within its limits, which its type keeps.
fn read_names(names: &[NodeName])
    ensures { list_all is_node_name names.now ≡ true }
{
    for name in names {
        let _text = name.as_str();
    }
}

fn apply_all(world: &mut World, alloc: Global, events: &[Event]) -> Result<(), AllocError>
    ensures { OnOk result (Runs world.old events.now world.new) }
{
    for event in events {
        world.apply(alloc, event)?;
    }
    Ok(())
}

/// What nodes of these names come to, each in its first life with nothing, by these events one after another. No two names
/// are equal.
///
/// Whatever the events are: no life of a node shows a row that its owner didn't make; none shows again what it knew to be
/// removed, or of a replica that it has gone; and one that is caught up with a replica shows exactly that replica's rows.
pub fn run(alloc: Global, names: &[NodeName], events: &[Event]) -> Result<World, AllocError>
    requires { has_repeat same_text names.now ≡ false }
    ensures runs { IfOk result (Runs (start names.now) events.now) }
    ensures nothing_invented { IfOk result NothingInvented }
    ensures nothing_resurrected { IfOk result (NothingResurrectedBy (start names.now) events.now) }
    ensures caught_up_is_equal { IfOk result CaughtUpIsEqual }
{
    read_names(names);
    let mut world = World::new(alloc, names)?;
    apply_all(&mut world, alloc, events)?;
    Ok(world)
}
