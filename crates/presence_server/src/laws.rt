//! Laws of the duties of a server's threads: functions that do nothing, and whose contracts are the laws.
ghost use Rattle.std.specs.Prelude.{◌≡◌};
ghost use Rattle.presence_server.specs.declared.bench.TheConstants.{SWEEP_MILLISECONDS, TRIM_TURNS, WEIGH_MILLISECONDS};
ghost use Rattle.presence_server.specs.declared.door.TheConstants as door;
ghost use Rattle.presence_server.specs.declared.draining.TheConstants as draining;
ghost use Rattle.presence_server.specs.declared.files.TheConstants.{PEER_FILES};
ghost use Rattle.presence_server.specs.declared.growth.TheConstants as growth;
ghost use Rattle.presence_server.specs.declared.load.TheConstants as load;
ghost use Rattle.presence_server.specs.declared.neighbours.TheConstants.{HANDSHAKES_PER_SECOND, SHARE};

/// Behind how many milliseconds a worker looks at all its connections, and behind how many turns it trims its seat;
/// behind how many entries, and how many bytes that they keep, a journal is drained, behind how many entries where memory is
/// tight, how often then, and behind how many where nobody follows it; how often journals are looked at, how long nothing is
/// read for one, when one is tried again for which memory was refused, and how many bytes are held back for it; how often
/// the memory of the process is looked at, and how long memory that grows no more counts as taken; how many connections a
/// turn at the door takes, and how often it looks at handshakes; what the clients of one address get where nothing else is
/// asked for: handshakes each second, and a part of the places; and how many files are left to the links with each node that
/// is dialled.
pub fn limits_are_these()
    ensures sweep { SWEEP_MILLISECONDS ≡ 2000 }
    ensures trim { TRIM_TURNS ≡ 1024 }
    ensures due { load.DUE_ENTRIES ≡ 196608 }
    ensures due_where_tight { load.TIGHT_ENTRIES ≡ 64 }
    ensures tight_rest { draining.TIGHT_MILLISECONDS ≡ 30000 }
    ensures due_at_rest { load.DUE_ENTRIES_AT_REST ≡ 8192 }
    ensures due_texts { load.DUE_TEXT_BYTES ≡ 50331648 }
    ensures journal_look { draining.LOOK_MILLISECONDS ≡ 5 }
    ensures drain { draining.MAX_DRAIN_MILLISECONDS ≡ 100 }
    ensures refused_rest { draining.REST_MILLISECONDS ≡ 1000 }
    ensures reserve { draining.RESERVE_BYTES ≡ 1048576 }
    ensures weigh { WEIGH_MILLISECONDS ≡ 100 }
    ensures memory { growth.GROWTH_MILLISECONDS ≡ 30000 }
    ensures all_memory { growth.LIMIT_MILLISECONDS ≡ 300000 }
    ensures accepted { door.MAX_ACCEPTED ≡ 256 }
    ensures handshake_look { door.LOOK_MILLISECONDS ≡ 25 }
    ensures handshakes_per_second { HANDSHAKES_PER_SECOND ≡ 20 }
    ensures share { SHARE ≡ 2 }
    ensures peer_files { PEER_FILES ≡ 2 }
{}
