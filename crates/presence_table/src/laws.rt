//! Laws of the plain table: functions that do nothing, and whose contracts are the laws.

ghost use Rattle.presence_table.specs.CallLaws.{CallsArePlain};
ghost use Rattle.presence_table.specs.Checkpoints.{CheckpointKeepsTable};
ghost use Rattle.presence_table.specs.Laws.{TableIsPlain};

/// What a legal history has of live rows, counts, statuses and subscribers, what it shows, and what each step comes to in it, is
/// what its plain table has: the history's Start opens the table, and each entry is a step of it.
pub fn the_table_is_plain()
    ensures { TableIsPlain }
{}

/// Where a call of a legal history keeps these clauses of `Shard::perform`, it does what the plain table says: it is refused by
/// the first refusal that stands, or its entry is the table's, and so is its answer. So each call of a shard but the cut, whose
/// delta the table doesn't have, can be read from the table.
pub fn calls_are_plain()
    ensures { CallsArePlain }
{}

/// A checkpoint forgets nothing of the table but what was known of replicas that are gone: the rows of the others, their
/// standings, the time and the counts stay, and so what is shown and what steps come to. The numbers go on, and for each
/// subscriber waits what the checkpoint leaves.
pub fn a_checkpoint_keeps_the_table()
    ensures { CheckpointKeepsTable }
{}
