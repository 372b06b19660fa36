//! Laws of streams of lines: functions that do nothing, and whose contracts are the laws.
ghost use Rattle.std.specs.Prelude.{◌≡◌};
ghost use Rattle.node_links.specs.declared.bytes.TheConstants.{MAX_INTERRUPTS};

/// How often a read may be interrupted.
pub fn limits_are_these()
    ensures { MAX_INTERRUPTS ≡ 200 }
{}
