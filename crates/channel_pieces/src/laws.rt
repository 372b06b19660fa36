//! Laws of pieces: functions that do nothing, and whose contracts are the laws.
ghost use Rattle.channel_pieces.specs.Laws.{PiecesFold};

/// What is told of a state, followed by what is yet to be told of it, is folded to the table to which the state is.
pub fn pieces_fold()
    ensures { PiecesFold }
{}
