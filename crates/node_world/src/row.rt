//! The row that a step adds.
ghost use Rattle.std.specs.Prelude.{◌≡◌, Some, IfOk};
ghost use Rattle.presence_journal.specs.History.{row_made};
ghost use Rattle.node_world.specs.World.{under, added};

use presence_base::{Dot, Row};
use presence_journal::{Outcome, Step};
use std::alloc::AllocError;

// The row that a step makes.
fn made_row(step: &Step, prev: Option<Dot>) -> Result<Option<Row>, AllocError>
    ensures { IfOk result (λ o. o ≡ row_made step.now prev) }
{
    match step {
        Step::Track {
            pid,
            topic,
            key,
            meta,
        }
        | Step::Update {
            pid,
            topic,
            key,
            meta,
        } => {
            let topic = topic.clone()?;
            let key = key.clone()?;
            let meta = meta.clone()?;
            Ok(Some(Row {
                topic,
                key,
                pid: *pid,
                meta,
                prev,
            }))
        }
        _ => Ok(None),
    }
}

fn under_dot(dot: Dot, row: Option<Row>) -> Option<(Dot, Row)>
    ensures { result ≡ under dot row }
{
    match row {
        Some(row) => Some((dot, row)),
        None => None,
    }
}

/// The row that a step adds which comes to this outcome, with its dot.
pub(crate) fn added_row(step: &Step, outcome: &Outcome) -> Result<Option<(Dot, Row)>, AllocError>
    ensures { IfOk result (λ o. o ≡ added step.now (Some outcome.now)) }
{
    match outcome {
        Outcome::Added(dot) => {
            let row = made_row(step, None)?;
            Ok(under_dot(*dot.get(), row))
        }
        Outcome::Replaced(dot, old) => {
            let row = made_row(step, Some(*old.get()))?;
            Ok(under_dot(*dot.get(), row))
        }
        _ => Ok(None),
    }
}
