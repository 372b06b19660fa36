//! The limits of lines.

ghost use Rattle.link_lines.specs.Limits.{LimitsAreThese};

/// How long a line may be, and how many shards a node may have.
pub fn limits_are_these()
    ensures { LimitsAreThese }
{}
