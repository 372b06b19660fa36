//! A context with room.
ghost use Rattle.std.specs.Prelude.{◌≡◌, IfOk, IfErr};
ghost use Rattle.std.specs.FinSet as set;
ghost use Rattle.dot_context.specs.Sets.{set_of, IsCompact};

use crate::context::Context;
use crate::replicas::{close_room, fill_room, open_all};
use crate::runs::Runs;
use presence_base::Replica;
use std::alloc::Global;
use std::collections::BTreeMap;
use std::marker::Model;

/// A context with room for the dots of another, which come in by `commit`, or don't by `undo`: neither takes memory.
pub struct ContextPlan {
    replicas: BTreeMap<Replica, Runs>,
    more: BTreeMap<Replica, Runs>,
}

impl Model for ContextPlan {
    ghost use Rattle.dot_context.specs.Sets.{Planned, set_of, HasRoomFor};
    ghost use Rattle.dot_context.specs.Codes.{planned_code};

    ghost Value = { Planned };

    ghost coded = { planned_code };

    ghost view = { λ a. record { held = set_of a.replicas.entries; more = set_of a.more.entries } };

    ghost invariant = { λ a. HasRoomFor a.replicas a.more };
}

impl ContextPlan {
    pub(crate) fn new(
        alloc: Global,
        mut replicas: BTreeMap<Replica, Runs>,
        more: BTreeMap<Replica, Runs>,
    ) -> Result<ContextPlan, Context>
        requires replicas { IsCompact replicas }
        requires more { IsCompact more }
        ensures ok { IfOk result (λ p. p ≡ record { held = set_of replicas.entries; more = set_of more.entries }) }
        ensures err { IfErr result (λ s. s ≡ set_of replicas.entries) }
    {
        match open_all(&mut replicas, alloc, &more) {
            Ok(()) => Ok(ContextPlan { replicas, more }),
            Err(_) => Err(Context { replicas }),
        }
    }

    /// The context with the dots that it has room for.
    pub fn commit(self) -> Context
        ensures { result ≡ set.union self.held self.more }
    {
        let ContextPlan { mut replicas, more } = self;
        fill_room(&mut replicas, &more);
        Context { replicas }
    }

    /// The context as it was.
    pub fn undo(self) -> Context
        ensures { result ≡ self.held }
    {
        let ContextPlan { mut replicas, more } = self;
        close_room(&mut replicas, &more);
        Context { replicas }
    }
}
