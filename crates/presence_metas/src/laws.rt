//! The laws of lists, objects and frames, key by key.
ghost use Rattle.presence_metas.specs.Laws.{RowsByKey, StatesByKey, StatesAreRead, DiffsAreRead, StatesReadBack, DiffsReadBack};

/// The lists and the state of rows have at each key the metas of its rows, and no other key.
pub fn rows_by_key()
    ensures lists { RowsByKey }
    ensures states { StatesByKey }
{}

/// What a frame is read as has at each key of its payload the metas that stand there.
pub fn frames_by_key()
    ensures states { StatesAreRead }
    ensures diffs { DiffsAreRead }
{}

/// The frames of `state_value` and `diff_value` are read as the rows that they were made of.
pub fn frames_read_back()
    ensures states { StatesReadBack }
    ensures diffs { DiffsReadBack }
{}
