//! Laws of rations: functions that do nothing, and whose contracts are the laws.
ghost use Rattle.std.specs.Prelude.{◌≡◌};
ghost use Rattle.serve_rations.specs.declared.ration.TheConstants.{MAX_ROWS, MAX_ROW_BYTES};

/// How many rows one connection may have, and how many bytes of them.
pub fn limits_are_these()
    ensures rows { MAX_ROWS ≡ 1024 }
    ensures bytes { MAX_ROW_BYTES ≡ 1048576 }
{}
