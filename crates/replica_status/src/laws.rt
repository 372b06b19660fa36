//! What holds of every board.
ghost use Rattle.replica_status.specs.Laws.{BoardFollowsTable, GoneStaysGone, BoardIsReborn};
ghost use Rattle.replica_status.specs.Limits.{AreLimits};

/// What a step makes of the standing of each replica is what the table makes of it.
pub fn board_follows_the_table()
    ensures { BoardFollowsTable }
{}

/// A replica that is gone stays gone, whatever is heard of it and whatever time passes.
pub fn gone_stays_gone()
    ensures { GoneStaysGone }
{}

/// After a rebirth under a replica that was unheard this one is up, the one before it is gone, and nothing else changes.
pub fn board_is_reborn()
    ensures { BoardIsReborn }
{}

/// After how much silence a replica is down, and after how much it is gone.
pub fn limits_are_these()
    ensures { AreLimits }
{}
