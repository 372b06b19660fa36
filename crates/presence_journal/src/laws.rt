//! Laws of limits: a function that does nothing, and whose contract says how large they are.

ghost use Rattle.presence_journal.specs.Sizes.{AreSizes};

/// How many entries a journal may have, how many items may wait and be taken at once, and how deep a
/// shout's payload may be.
pub fn limits_are_these()
    ensures { AreSizes }
{}
