//! Laws of lines: functions that do nothing, and whose contracts are the laws.
ghost use Rattle.std.specs.Prelude.{◌≡◌, ◌≤◌, ◌+◌, ◌-◌, ◌^◌, ℕ, min};
ghost use Rattle.node_log.specs.Counted.{behind, caught_up, events_of, line_for, line_of_held, lines_within};
ghost use Rattle.node_log.specs.declared.quota.Quota.{Quota};
ghost use Rattle.node_log.specs.declared.quota.TheConstants.{LINES_A_SECOND};

/// Lines of one reason in a second.
pub fn limit_is_this()
    ensures { LINES_A_SECOND ≡ 5 }
{}

/// Whatever has happened, so many further events within a second have no more lines than may be.
pub fn lines_are_few()
    ensures { (q : Quota) (second events : ℕ) → q.lines ≤ LINES_A_SECOND
        → lines_within q second events ≤ LINES_A_SECOND }
{}

/// Each event is told by a line or held for a later one, up to 2^64 - 1 of them.
pub fn no_event_is_lost()
    ensures come { (q : Quota) (second : ℕ)
        → events_of (line_for q second) + (behind q second).held ≡ min (q.held + 1) (2 ^ 64 - 1) }
    ensures caught_up { (q : Quota) (second : ℕ)
        → events_of (line_of_held q second) + (caught_up q second).held ≡ q.held }
{}
