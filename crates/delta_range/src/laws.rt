//! The laws of joined deltas, and the limits of the kept ones.
ghost use Rattle.delta_range.specs.Caps.{AreCaps};
ghost use Rattle.delta_range.specs.Laws.{TellsInTurn, IsNoLarger, StaysInOrder, OlderInOrder, CoversTheSame, FormsTellTheSame, DeltasAreInOrder};

/// A joined delta tells a set what its two parts tell it in turn.
pub fn joined_deltas_tell_in_turn()
    ensures { TellsInTurn }
{}

/// A joined delta has no more rows and older runs than its two parts.
pub fn joined_deltas_are_no_larger()
    ensures { IsNoLarger }
{}

/// Of two deltas whose rows are in order of dot, each once, the joined delta is too.
pub fn joined_deltas_stay_in_order()
    ensures { StaysInOrder }
{}

/// A delta covers the same dots and has the same rows in whichever form it is told.
pub fn forms_tell_the_same()
    ensures { FormsTellTheSame }
{}

/// A delta is told with its ranges as the form wants them.
pub fn deltas_are_in_order()
    ensures { DeltasAreInOrder }
{}

/// The delta of a told value covers what the told value covers.
pub fn delta_of_told_covers_the_same()
    ensures { CoversTheSame }
{}

/// The older dots that a delta tells are in order, each once.
pub fn older_dots_are_in_order()
    ensures { OlderInOrder }
{}

/// How many rows and older runs each of the three kept deltas may have.
pub fn caps_are_these()
    ensures { AreCaps }
{}
