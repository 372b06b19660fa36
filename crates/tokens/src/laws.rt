//! Laws: functions that do nothing, and whose contracts are the laws.
ghost use Rattle.tokens.specs.Held.{CameOfToken};
ghost use Rattle.tokens.specs.declared.grant.Grant.{Grant};

/// A grant came of its token, whatever was called.
pub fn grants_came_of_tokens()
    ensures { (g : Grant) → CameOfToken g }
{}
