//! The limit of told rows; what a cut told value tells.
ghost use Rattle.orswot_core.specs.Checks.{LimitOfRows};
ghost use Rattle.orswot_core.specs.Telling.{CutTellsOfSome};

/// The limit of rows and extras of a told value.
pub fn limit_of_rows()
    ensures { LimitOfRows }
{}

/// A told value that is cut down to some replicas covers their dots, and tells their rows.
pub fn cut_tells_of_some()
    ensures { CutTellsOfSome }
{}
