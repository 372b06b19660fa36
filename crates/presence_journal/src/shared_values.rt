//! Dots, replicas and told values of which clones share one copy, so that a step or an outcome without one is small.
use orswot_core::Told;
use presence_base::{Dot, Replica};
use std::alloc::{AllocError, Global};
use std::marker::Model;
use std::sync::Arc;

/// A dot, shared by its clones.
#[derive(Debug)]
pub struct SharedDot {
    held: Arc<Dot, Global>,
}

impl Drop for SharedDot {
    fn drop(self) {
        let SharedDot { held } = self;
        drop(held);
    }
}

impl Model for SharedDot {
    ghost use Rattle.std.specs.Arc.{arc_value};
    ghost use Rattle.presence_base.specs.declared.dots.Dot.{Dot};
    ghost use Rattle.presence_base.specs.Codes.{dot_code};

    ghost Value = { Dot };

    ghost coded = { dot_code };

    ghost view = { λ d. arc_value d.held };
}

impl Clone for SharedDot {
    ghost use Rattle.std.specs.Prelude.{◌≡◌};

    ghost is_clone = { λ d e. e ≡ d };

    fn clone(&self) -> Result<SharedDot, AllocError> {
        let held = Arc::try_clone(&self.held)?;
        Ok(SharedDot { held })
    }
}

impl SharedDot {
    ghost use Rattle.std.specs.Prelude.{◌≡◌, IfOk};

    pub fn new(alloc: Global, dot: Dot) -> Result<SharedDot, AllocError>
        ensures { IfOk result (λ d. d ≡ dot) }
    {
        let held = Arc::new(alloc, dot)?;
        Ok(SharedDot { held })
    }

    pub fn get(&self) -> &Dot
        ensures { result.now ≡ self.now }
    {
        &*self.held
    }
}

/// A replica, shared by its clones.
#[derive(Debug)]
pub struct SharedReplica {
    held: Arc<Replica, Global>,
}

impl Drop for SharedReplica {
    fn drop(self) {
        let SharedReplica { held } = self;
        drop(held);
    }
}

impl Model for SharedReplica {
    ghost use Rattle.std.specs.Arc.{arc_value};
    ghost use Rattle.presence_base.specs.declared.dots.Replica.{Replica};
    ghost use Rattle.presence_base.specs.Codes.{replica_code};

    ghost Value = { Replica };

    ghost coded = { replica_code };

    ghost view = { λ r. arc_value r.held };
}

impl Clone for SharedReplica {
    ghost use Rattle.std.specs.Prelude.{◌≡◌};

    ghost is_clone = { λ r s. s ≡ r };

    fn clone(&self) -> Result<SharedReplica, AllocError> {
        let held = Arc::try_clone(&self.held)?;
        Ok(SharedReplica { held })
    }
}

impl SharedReplica {
    ghost use Rattle.std.specs.Prelude.{◌≡◌, IfOk};

    pub fn new(alloc: Global, replica: Replica) -> Result<SharedReplica, AllocError>
        ensures { IfOk result (λ r. r ≡ replica) }
    {
        let held = Arc::new(alloc, replica)?;
        Ok(SharedReplica { held })
    }

    pub fn get(&self) -> &Replica
        ensures { result.now ≡ self.now }
    {
        &*self.held
    }
}

/// What another node told, shared by its clones.
#[derive(Debug)]
pub struct SharedTold {
    held: Arc<Told, Global>,
}

impl Drop for SharedTold {
    fn drop(self) {
        let SharedTold { held } = self;
        drop(held);
    }
}

impl Model for SharedTold {
    ghost use Rattle.std.specs.Arc.{arc_value};
    ghost use Rattle.orswot_core.specs.Telling.{ToldValue};
    ghost use Rattle.orswot_core.specs.ToldCodes.{told_code};

    ghost Value = { ToldValue };

    ghost coded = { told_code };

    ghost view = { λ t. arc_value t.held };
}

impl Clone for SharedTold {
    ghost use Rattle.std.specs.Prelude.{◌≡◌};

    ghost is_clone = { λ t u. u ≡ t };

    fn clone(&self) -> Result<SharedTold, AllocError> {
        let held = Arc::try_clone(&self.held)?;
        Ok(SharedTold { held })
    }
}

impl SharedTold {
    ghost use Rattle.std.specs.Prelude.{◌≡◌, IfOk};

    pub fn new(alloc: Global, told: Told) -> Result<SharedTold, AllocError>
        ensures { IfOk result (λ t. t ≡ told) }
    {
        let held = Arc::new(alloc, told)?;
        Ok(SharedTold { held })
    }

    pub fn get(&self) -> &Told
        ensures { result.now ≡ self.now }
    {
        &*self.held
    }
}
