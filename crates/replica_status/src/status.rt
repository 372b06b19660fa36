//! Statuses.
ghost use Rattle.std.specs.Prelude.{◌≡◌};

/// What a node holds of a replica. Rows are shown of a replica that is `Up`; one that is `Gone` never returns.
#[derive(Clone, Copy, PartialEq, Eq, Debug)]
pub enum Status {
    Unheard,
    Up,
    Down,
    Gone,
}

impl Status {
    ghost use Rattle.replica_status.specs.Table.{is_unheard};

    /// Whether nothing was heard of the replica, and it was not put down.
    pub fn is_unheard(self) -> bool
        ensures { result ≡ is_unheard self }
    {
        match self {
            Status::Unheard => true,
            Status::Up | Status::Down | Status::Gone => false,
        }
    }
}
