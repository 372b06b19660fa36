//! Nodes of one shard each, all their lives, and all that they ever told.
ghost use Rattle.std.specs.Prelude.{◌≡◌, ◌++◌, ◌∷◌, [], false, IfOk, OnOk, OnErr, Decides, length};
ghost use Rattle.std.specs.FinMap as map;
ghost use Rattle.presence_base.specs.Order.{same_text};
ghost use Rattle.orswot_core.specs.Checks.{has_repeat};
ghost use Rattle.node_world.specs.Asked.{present_life, listed_of, IsCaughtUpWith};
ghost use Rattle.node_world.specs.Lives.{no_world, with_node, with_nodes};
ghost use Rattle.node_world.specs.World.{first_life, start, Happens};

use crate::asking::{is_caught_up, life_of, list_of, present_of};
use crate::event::Event;
use crate::happening::happen;
use crate::life::Life;
use crate::lives;
use crate::telling::Telling;
use presence_base::{Dot, NodeName, Replica, Row, Topic};
use std::alloc::{AllocError, Global};
use std::collections::BTreeMap;
use std::marker::Model;

/// Nodes of one shard each, with all their lives, and all that they ever told.
pub struct World {
    lives: BTreeMap<Replica, Life>,
    present: Vec<Replica>,
    told: Vec<Telling>,
}

impl Drop for World {
    fn drop(self) {
        let World {
            lives,
            present,
            told,
        } = self;
        drop(lives);
        drop(present);
        drop(told);
    }
}

impl Model for World {
    ghost use Rattle.node_world.specs.World.{WorldValue};
    ghost use Rattle.node_world.specs.Codes.{world_code};
    ghost use Rattle.node_world.specs.Lives.{lives_in};

    ghost Value = { WorldValue };

    ghost coded = { world_code };

    ghost view = { λ w. record { lives = lives_in w.lives.entries; present = w.present.items; told = w.told.items } };
}

fn push_node(present: &mut Vec<Replica>, own: &Replica) -> Result<(), AllocError>
    ensures { OnOk result (present.new.items ≡ present.old.items ++ own.now ∷ []) }
{
    match present.push(*own) {
        Ok(()) => Ok(()),
        Err(_) => Err(AllocError),
    }
}

fn first_replica(name: &NodeName) -> Replica
    ensures { result ≡ first_life name.now }
{
    Replica {
        name: *name,
        incarnation: 1,
    }
}

// Adds a node for each name.
fn add_all(world: &mut World, alloc: Global, names: &[NodeName]) -> Result<(), AllocError>
    ensures { OnOk result (world.new ≡ with_nodes world.old names.now) }
{
    for name in names {
        world.add(alloc, name)?;
    }
    Ok(())
}

impl World {
    // No nodes.
    fn empty(alloc: Global) -> World
        ensures { result ≡ no_world }
    {
        World {
            lives: BTreeMap::new(alloc),
            present: Vec::new(alloc),
            told: Vec::new(alloc),
        }
    }

    // One node more, in its first life.
    fn add(&mut self, alloc: Global, name: &NodeName) -> Result<(), AllocError>
        ensures { OnOk result (self.new ≡ with_node self.old name.now) }
    {
        let own = first_replica(name);
        lives::begin(&mut self.lives, alloc, &own)?;
        push_node(&mut self.present, &own)
    }

    /// A node of each of these names, in its first life with nothing. No two names are equal.
    #[tactic(auto, using(crate::proofs::Begun::starting))]
    pub fn new(alloc: Global, names: &[NodeName]) -> Result<World, AllocError>
        requires { has_repeat same_text names.now ≡ false }
        ensures { IfOk result (λ w. w ≡ start names.now) }
    {
        let mut world = World::empty(alloc);
        add_all(&mut world, alloc, names)?;
        Ok(world)
    }

    /// What an event makes of it. One that means nothing, or is refused, changes nothing, and where memory runs out nothing
    /// has changed.
    pub fn apply(&mut self, alloc: Global, event: &Event) -> Result<(), AllocError>
        ensures happens { OnOk result (Happens self.old event.now self.new) }
        ensures same { OnErr result (self.new ≡ self.old) }
    {
        happen(
            &mut self.lives,
            &mut self.present,
            &mut self.told,
            alloc,
            event,
        )
    }

    /// The rows that are present on a topic at a node, in order of key and then dot; of no node none. It costs a walk over the
    /// journal of the node.
    pub fn list(
        &self,
        alloc: Global,
        node: usize,
        topic: &Topic,
    ) -> Result<Vec<(Dot, Row)>, AllocError>
        ensures { IfOk result (λ v. v.items ≡ listed_of (present_life self.now node) topic.now) }
    {
        let life = present_of(&self.lives, self.present.as_slice(), node);
        list_of(life, alloc, topic)
    }

    /// How many values were told.
    pub fn told_count(&self) -> usize
        ensures { result ≡ length self.now.told }
    {
        self.told.len()
    }

    /// Whether a node has a replica up, and knows every dot that the replica's own life counted; of a replica that has no life
    /// none does.
    pub fn caught_up(&self, node: usize, replica: &Replica) -> bool
        ensures { Decides result (IsCaughtUpWith self.now node replica.now) }
    {
        let life = present_of(&self.lives, self.present.as_slice(), node);
        let owner = life_of(&self.lives, replica);
        is_caught_up(life, owner, replica)
    }
}
