//! Laws of the tables of a world: functions that do nothing, and whose contracts are the laws.

ghost use Rattle.world_tables.specs.Claims.{NeverInvented, NeverResurrected, CaughtUpIsAlwaysEqual};
ghost use Rattle.world_tables.specs.Steps.{StepsAreTheTables};

/// Each row that the table of a life has present on a topic was made by its owner: with that dot, and with all that is in it.
pub fn no_table_invents()
    ensures { NeverInvented }
{}

/// What is over in the table of a life isn't present there later: a dot that it knows without a row, or one whose owner is gone.
pub fn no_table_resurrects()
    ensures { NeverResurrected }
{}

/// Where the table of a life knows each dot of a replica up to its count, and has it up, they have the same rows of it present.
pub fn caught_up_tables_are_equal()
    ensures { CaughtUpIsAlwaysEqual }
{}

/// A step of a node is a step of the plain table of its present life, and changes no other one.
pub fn steps_are_the_tables()
    ensures { StepsAreTheTables }
{}
