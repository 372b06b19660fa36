//! Other nodes than one.
ghost use Rattle.std.specs.Prelude.{◌≡◌};
ghost use Rattle.node_world.specs.Others.{is_life_of};

use orswot_core::ReplicaTest;
use presence_base::Replica;

// Whether a replica is a life of this node.
fn is_life(own: &Replica, replica: &Replica) -> bool
    ensures { result ≡ is_life_of own.now replica.now }
{
    replica.name.cmp(&own.name).is_eq()
}

/// The lives of other nodes than the one of which this is a life.
#[derive(Clone, Copy)]
pub(crate) struct OtherNodes {
    pub(crate) own: Replica,
}

impl ReplicaTest for OtherNodes {
    ghost use Rattle.node_world.specs.Others.{is_other};

    ghost picks = { λ others. is_other others.own };

    fn takes(&self, replica: &Replica) -> bool {
        !is_life(&self.own, replica)
    }
}
