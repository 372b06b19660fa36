//! Laws of clients that leave or stall: functions that do nothing, and whose contracts are the laws.
ghost use Rattle.std.specs.Prelude.{◌≡◌};
ghost use Rattle.serve_connections.specs.declared.leaving.TheConstants.{MAX_LEAVERS, MAX_LEAVING_MILLISECONDS, MAX_READS, READ_BYTES};
ghost use Rattle.serve_connections.specs.declared.long_texts.TheConstants.{MAX_LONG_TEXTS};
ghost use Rattle.serve_connections.specs.declared.stalling.TheConstants.{MAX_STALL_MILLISECONDS};

/// How long a client may not keep pace, how many long texts a turn goes on with, how long one that was told why its
/// connection ends is waited for, how many are, and how much of each one turn throws away.
pub fn limits_are_these()
    ensures stalled { MAX_STALL_MILLISECONDS ≡ 60000 }
    ensures long { MAX_LONG_TEXTS ≡ 1 }
    ensures leaving { MAX_LEAVING_MILLISECONDS ≡ 2000 }
    ensures leavers { MAX_LEAVERS ≡ 64 }
    ensures bytes { READ_BYTES ≡ 4096 }
    ensures reads { MAX_READS ≡ 16 }
{}
