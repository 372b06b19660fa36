//! Laws of sessions: functions that do nothing, and whose contracts are the laws.

ghost use Rattle.session_laws.specs.Keeping.{JoinedAreMirrored, StaysInStep};
ghost use Rattle.session_laws.specs.Laws.{AnswersByTable, WantStays, RulesArePlayed, DeliveriesArePlayed, FramesMirror, AllFramesMirror, CallsGive, InForceByTurns, OkJoinsAreGiven};

/// A lent shard answers as the sequential presence table does, as long as memory is ample; want of
/// memory leaves its history as it was.
pub fn local_answers()
    ensures table { AnswersByTable }
    ensures memory { WantStays }
{}

/// Over a lent shard what a message and a delivery say, what is in force after it and the shard's
/// new history are a function of the session, the message and the shard's history.
pub fn local_texts()
    ensures rules { RulesArePlayed }
    ensures deliveries { DeliveriesArePlayed }
{}

/// What a subscriber took, told as frames and folded by a client's mirror, is what is present: once
/// nothing waits for the subscriber, the mirror has at each key and reference the meta of the row
/// that is present there.
pub fn frames_mirror()
    ensures taken { FramesMirror }
    ensures given { AllFramesMirror }
{}

/// What a subscriber was given grows by the answers to its takes, and by nothing else.
pub fn calls_give()
    ensures { CallsGive }
{}

/// After lines that were all answered nothing waits for a joined topic, and the messages that tell
/// what was said fold, topic by topic, to lists that have each joined topic's present rows, whatever
/// a fetch added to them.
pub fn joined_topics_are_mirrored()
    ensures in_step { StaysInStep }
    ensures mirrored { JoinedAreMirrored }
{}

/// While a session has not failed, in force are the topics whose last join was answered ok and that
/// have no later leave or further join, in order of joining, each with that join's reference and
/// subscriber; deliveries change nothing of it.
pub fn in_force_by_turns()
    ensures in_force { InForceByTurns }
    ensures given { OkJoinsAreGiven }
{}
