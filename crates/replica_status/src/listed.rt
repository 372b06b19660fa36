//! A replica as a board finds it.
use presence_base::Replica;
use std::hash::{Hash, Hasher};
use std::marker::Model;

/// A replica as a board finds it: by a hash of its name and incarnation.
#[derive(Clone, Copy)]
pub(crate) struct Listed {
    pub replica: Replica,
}

impl Model for Listed {
    ghost use Rattle.presence_base.specs.declared.dots.Replica.{Replica};
    ghost use Rattle.presence_base.specs.Codes.{replica_code};

    ghost Value = { Replica };

    ghost coded = { replica_code };

    ghost view = { λ a. a.replica };

    ghost inverse = { λ r. record { replica = r } };
}

impl PartialEq for Listed {
    ghost use Rattle.presence_base.specs.Order.{same_replica};
    ghost use Rattle.replica_status.specs.Replicas.{same_replica_partial};

    ghost eq = { same_replica };

    ghost laws = { same_replica_partial };

    fn eq(&self, other: &Listed) -> bool {
        self.replica.cmp(&other.replica).is_eq()
    }
}

impl Eq for Listed {
    ghost use Rattle.replica_status.specs.Replicas.{same_replica_equiv};

    ghost laws = { same_replica_equiv };
}

impl Hash for Listed {
    ghost use Rattle.replica_status.specs.Replicas.{replica_writes, same_replica_alike};

    ghost hash_input = { replica_writes };

    ghost respects_eq = { same_replica_alike };

    fn hash<H: Hasher>(&self, state: &mut H) {
        self.replica.name.as_str().hash(state);
        self.replica.incarnation.hash(state);
    }
}
