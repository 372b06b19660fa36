//! What holds over every list of events: functions that do nothing, and whose contracts are the laws.

ghost use Rattle.node_world.specs.Claims.{NeverInvented, NeverResurrected, CaughtUpIsAlwaysEqual};
ghost use Rattle.node_world.specs.Facts.{RowsAreMade, RemovalsAreMade, WorldsAreTrue};
ghost use Rattle.node_world.specs.Needs.{NeedRules};

/// No life of a node ever shows a row that the row's owner didn't make with that dot, topic, key, pid, meta and `prev`.
pub fn nothing_invented()
    ensures { NeverInvented }
{}

/// A row that a life of a node knows to be removed, or whose owner is gone there, is never shown by that life again.
pub fn nothing_resurrected()
    ensures { NeverResurrected }
{}

/// A life that is caught up with a replica shows exactly the rows of that replica that the replica's own history shows.
pub fn caught_up_is_equal()
    ensures { CaughtUpIsAlwaysEqual }
{}

/// Each row that was ever told was made by its owner. Each dot that was ever told as removed is removed at its owner: its row
/// was taken out there, or it is the count of a removal. And whoever knows or was told a count knows, or was told, as
/// removed each row that the owner removed under it, which is one of the things that are true of every world.
pub fn told_values_are_true()
    ensures rows { RowsAreMade }
    ensures removals { RemovalsAreMade }
    ensures worlds { WorldsAreTrue }
{}

/// Were a removal to use no count, were one that is gone up again once it is heard, or were a removed row put back by what
/// told it first, a claim would be false: a run for each.
pub fn claims_need_rules()
    ensures { NeedRules }
{}
