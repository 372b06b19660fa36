//! Laws of pieces: functions that do nothing, and whose contracts are the laws.
ghost use Rattle.session_laws.specs.Pieces.{PiecesLead, PiecesMirror};

use channel_rules::Port;

/// Over any port: what a subscriber is given in pieces, followed by what it is yet to be told, leads a client's lists to
/// where what the port inside gives it does.
pub fn pieces_lead<P: Port>()
    ensures { PiecesLead P.step }
{}

/// Over one lent shard: once nothing is untold and nothing waits, they mirror the present rows of the topic.
pub fn pieces_mirror()
    ensures { PiecesMirror }
{}
