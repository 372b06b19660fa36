//! The laws of joins: any order, removed stays removed, told stays known.
ghost use Rattle.orswot_core.specs.Laws.{Idempotent, Commutative, Associative, RemovalsAreHeard, RemovedStays, Learns, JoinsKeepKnown, StepsKeepKnown, KnownChangesNothing, OldChangesNothing, OneFull, FormsTellTheSame, FullsAreInOrder};

/// Sets join in any order and number: with itself a set stays as it is, two of them join to the
/// same either way where their rows agree, and three join to the same in either grouping.
pub fn joins_in_any_order()
    ensures idempotent { Idempotent }
    ensures commutative { Commutative }
    ensures associative { Associative }
{}

/// What is told as removed is removed where it is taken in. A dot that is covered and not live never becomes live again by
/// any join.
pub fn removed_stays_removed()
    ensures heard { RemovalsAreHeard }
    ensures stays { RemovedStays }
{}

/// A set that took in a told value knows what it tells, and keeps knowing it through joins, adds and removals. What a set
/// knows changes nothing when it is told again.
pub fn told_stays_known()
    ensures learns { Learns }
    ensures joins { JoinsKeepKnown }
    ensures steps { StepsKeepKnown }
    ensures nothing { KnownChangesNothing }
{}

/// What was told before changes nothing when it comes again, whatever was told in between.
pub fn old_told_changes_nothing()
    ensures { OldChangesNothing }
{}

/// All that is told of a set in one form is one told value: no order and no choice is left.
pub fn told_whole_in_one_way()
    ensures { OneFull }
{}

/// All that is told of a set covers the same dots and has the same rows in either form.
pub fn forms_tell_the_same()
    ensures { FormsTellTheSame }
{}

/// All that is told of a set has its ranges as the form wants them.
pub fn fulls_are_in_order()
    ensures { FullsAreInOrder }
{}
