//! What is kept of a journal that has entries already.
ghost use Rattle.std.specs.Prelude.{◌≡◌, IfOk};
ghost use Rattle.presence_journal.specs.History.{Begin, onto};
ghost use Rattle.presence_journal.specs.Table.{IsLegal};
ghost use Rattle.tracker_index.specs.Parts.{IsAt};
ghost use Rattle.tracker_index.specs.declared.parts.Stage.TheVariants.{Done};

use crate::parts::{Parts, Stage};
use crate::starting::kept_of;
use presence_journal::{Entry, Start};
use std::alloc::{AllocError, Global};

/// What is kept of a journal that begins with a Start and goes on with these entries. It costs what each entry did when it was made.
pub(crate) fn replayed(alloc: Global, start: &Start, entries: &[Entry]) -> Result<Parts, AllocError>
    requires { IsLegal (onto (Begin start.now) entries.now) }
    ensures kept { IfOk result (λ p. IsAt p.stage (onto (Begin start.now) entries.now) p) }
    ensures stage { IfOk result (λ p. p.stage ≡ Done) }
{
    let mut parts = kept_of(alloc, start)?;
    for entry in entries {
        parts.stage = Stage::Begun;
        parts.go_on(alloc, entry)?;
    }
    Ok(parts)
}
