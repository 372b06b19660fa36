//! Laws of workers: functions that do nothing, and whose contracts are the laws.
ghost use Rattle.std.specs.Prelude.{◌≡◌};
ghost use Rattle.serve_connections.specs.declared.worker.TheConstants.{MAX_CONNECTIONS};

/// How many connections a worker serves.
pub fn limits_are_these()
    ensures { MAX_CONNECTIONS ≡ 1024 }
{}
