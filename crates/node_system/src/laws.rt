//! Laws of sockets that are watched: functions that do nothing, and whose contracts are the laws.
ghost use Rattle.std.specs.Prelude.{◌≡◌};
ghost use Rattle.node_system.specs.declared.watch.TheConstants.{LAST_TOKEN, MAX_EVENTS};

/// Under which last token a socket is watched, and how many events a wait gives.
pub fn limits_are_these()
    ensures last { LAST_TOKEN ≡ 4611686018427387904 }
    ensures events { MAX_EVENTS ≡ 1024 }
{}
