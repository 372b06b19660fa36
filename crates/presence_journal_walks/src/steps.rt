// What steps and outcomes say by themselves.
ghost use Rattle.std.specs.Prelude.{◌≡◌};
ghost use Rattle.presence_journal.specs.History.{is_up};
ghost use Rattle.presence_journal.specs.Laws.{is_callers};
ghost use Rattle.presence_journal_walks.specs.Waits.{is_on, is_news};

use presence_base::Topic;
use presence_journal::{Outcome, Step};
use replica_status::Status;

// Whether a step is of the own replica alone.
pub fn is_callers(step: &Step) -> bool
    ensures { result ≡ is_callers step.now }
{
    match step {
        Step::Heard { .. }
        | Step::Tick { .. }
        | Step::PermDown { .. }
        | Step::Merge { .. }
        | Step::Rebirth { .. } => false,
        _ => true,
    }
}

// Whether the status is that of a replica that is up.
pub fn is_up(status: Status) -> bool
    ensures { result ≡ is_up status }
{
    match status {
        Status::Up => true,
        _ => false,
    }
}

// Whether a step of the own replica alone may change rows of the topic, or shouts on it.
pub(crate) fn is_on(step: &Step, topic: &Topic) -> bool
    ensures { result ≡ is_on step.now topic.now }
{
    match step {
        Step::Track { topic: named, .. }
        | Step::Update { topic: named, .. }
        | Step::Untrack { topic: named, .. }
        | Step::UntrackAll { topic: named, .. }
        | Step::Shout { topic: named, .. } => named.cmp(topic).is_eq(),
        _ => false,
    }
}

// Whether an outcome changes rows or sends a shout.
pub(crate) fn is_news(outcome: &Outcome) -> bool
    ensures { result ≡ is_news outcome.now }
{
    match outcome {
        Outcome::Added(_) | Outcome::Replaced(_, _) | Outcome::Sent => true,
        Outcome::Removed(dots) => !dots.as_slice().is_empty(),
        _ => false,
    }
}
