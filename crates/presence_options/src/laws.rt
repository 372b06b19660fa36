//! Laws of the options: functions that do nothing, and whose contracts are the laws.
ghost use Rattle.std.specs.Prelude.{◌≡◌};
ghost use Rattle.presence_options.specs.declared.options.TheConstants.{MAX_HANDSHAKES_PER_SECOND, MAX_ORIGINS, MAX_PER_ADDRESS, MAX_WORKERS};

/// How many workers and origins may be told, and how many clients of one address, at once and each second.
pub fn limits_are_these()
    ensures workers { MAX_WORKERS ≡ 64 }
    ensures origins { MAX_ORIGINS ≡ 64 }
    ensures per_address { MAX_PER_ADDRESS ≡ 65536 }
    ensures handshakes_per_second { MAX_HANDSHAKES_PER_SECOND ≡ 1000 }
{}
