//! Laws of the words of links: functions that do nothing, and whose contracts are the laws.
ghost use Rattle.std.specs.Prelude.{◌≡◌, ◌^◌};
ghost use Rattle.link_rules.specs.declared.words.TheConstants.{MAX_LINKS};
ghost use Rattle.link_rules.specs.declared.hearing.TheConstants.{HEARD_MILLISECONDS};
ghost use Rattle.link_rules.specs.declared.lives.TheConstants.{MOST_AHEAD};
ghost use Rattle.link_rules.specs.declared.rebirths.TheConstants.{REBIRTH_MILLISECONDS};
ghost use Rattle.link_rules.specs.Apart.{CodesAreApart};
ghost use Rattle.link_rules.specs.Lives.{GoesAbove, GoesOnOnce};

/// How many links that came in there are at most, within which time a node goes on three times at most, and how far above its own
/// incarnation a life may be told that the next one goes above; how long a shard isn't told anew that a node was heard.
pub fn limits_are_these()
    ensures links { MAX_LINKS ≡ 32 }
    ensures rebirths { REBIRTH_MILLISECONDS ≡ 30000 }
    ensures ahead { MOST_AHEAD ≡ 2 ^ 32 }
    ensures heard { HEARD_MILLISECONDS ≡ 5000 }
{}

/// A node goes on once for each of its lives, over however many links it is told that this one is gone, and by however many
/// nodes at once: behind that the hello of before is nobody's any more.
pub fn goes_on_once()
    ensures { GoesOnOnce }
{}

/// A node goes on under an incarnation above its own, and above all that it was told of its name.
pub fn goes_above()
    ensures { GoesAbove }
{}

/// What an end shows a key by is of that link and of that end alone: of both nonces, of who was dialled, and in a proof of who
/// dials. So what was made for another link, for another node or by the other end is none.
pub fn codes_are_apart()
    ensures { CodesAreApart }
{}
