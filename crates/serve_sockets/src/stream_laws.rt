//! Laws of clients' streams: functions that do nothing, and whose contracts are the laws.
ghost use Rattle.std.specs.Prelude.{◌≡◌};
ghost use Rattle.serve_sockets.specs.declared.stream.TheConstants.{LONG_TURN_BYTES, PACE_BYTES, TURN_BYTES};

/// How many bytes of a client one turn reads, how many one that is to end a long text, and how many a client takes at least
/// that keeps pace.
pub fn limits_are_these()
    ensures turn { TURN_BYTES ≡ 4096 }
    ensures long { LONG_TURN_BYTES ≡ 65536 }
    ensures pace { PACE_BYTES ≡ 65536 }
{}
