//! Laws of lines of a run: functions that do nothing, and whose contracts are the laws.
ghost use Rattle.std.specs.Prelude.{◌≡◌};
ghost use Rattle.presence_stdio.specs.declared.lines.TheConstants.{MAX_INTERRUPTS, MAX_LINES};

/// How many lines a run reads at most, and how often a read may be interrupted.
pub fn limits_are_these()
    ensures lines { MAX_LINES ≡ 1048576 }
    ensures interrupts { MAX_INTERRUPTS ≡ 200 }
{}
