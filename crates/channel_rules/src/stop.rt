//! Why a rule was left.
ghost use Rattle.std.specs.Prelude.{◌≡◌, true, IfOk, IfErr, Ok};
ghost use Rattle.channel_rules.specs.declared.stop.StopKind.TheVariants.{OutOfMemory};
ghost use Rattle.channel_rules.specs.Rules.{End};
ghost use Rattle.channel_rules.specs.Outcome.{seen, spoilt};

use std::alloc::AllocError;

/// The cause for which a rule was left.
#[derive(Clone, Copy, Debug, PartialEq, Eq)]
pub enum StopKind {
    OutOfMemory,
    ShardFull,
}

/// Why a rule was left, and whether a call was made that leaves something behind.
#[derive(Clone, Copy, Debug, PartialEq, Eq)]
pub struct Stop {
    pub kind: StopKind,
    pub spoiled: bool,
}

impl From<AllocError> for Stop {
    ghost use Rattle.std.specs.Prelude.{◌≡◌, false};
    ghost use Rattle.channel_rules.specs.declared.stop.StopKind.TheVariants.{OutOfMemory};

    ghost from_gives = { λ _ s. (s.kind ≡ OutOfMemory) × (s.spoiled ≡ false) };

    fn from(_: AllocError) -> Self {
        Stop {
            kind: StopKind::OutOfMemory,
            spoiled: false,
        }
    }
}

/// What was made after a call that leaves something behind.
pub fn spoiling<T: Drop>(made: Result<T, AllocError>) -> Result<T, Stop>
    ensures ok { IfOk result (λ x. made ≡ Ok x) }
    ensures err { IfErr result (λ s. (s.kind ≡ OutOfMemory) × (s.spoiled ≡ true)) }
{
    match made {
        Ok(x) => Ok(x),
        Err(_) => Err(Stop {
            kind: StopKind::OutOfMemory,
            spoiled: true,
        }),
    }
}

/// What came of the rest, after a call that leaves something behind.
pub fn spoil<T: Drop>(rest: Result<T, Stop>) -> Result<T, Stop>
    ensures ends { (end : T → End) → seen end result ≡ spoilt (seen end rest) }
    ensures ok { IfOk result (λ x. rest ≡ Ok x) }
{
    match rest {
        Ok(x) => Ok(x),
        Err(stop) => Err(Stop {
            kind: stop.kind,
            spoiled: true,
        }),
    }
}
