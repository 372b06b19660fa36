//! What a tick changed.
ghost use Rattle.std.specs.Prelude.{◌≡◌};
ghost use Rattle.replica_status.specs.Boards.{change_between};

use crate::standing::Standing;
use crate::status::Status;
use presence_base::Replica;

/// A replica whose status a tick changed.
#[derive(Clone, Copy, PartialEq, Eq, Debug)]
pub struct Change {
    pub replica: Replica,
    pub before: Status,
    pub after: Status,
}

// The change from one standing to another, or none where the status stays.
pub(crate) fn change_between(replica: Replica, before: Standing, after: Standing) -> Option<Change>
    ensures { result ≡ change_between replica before after }
{
    let before = before.status();
    let after = after.status();
    if before == after {
        return None;
    }
    Some(Change {
        replica,
        before,
        after,
    })
}
