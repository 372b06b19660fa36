//! Laws of the queue: functions that do nothing, and whose contracts are the laws.
ghost use Rattle.std.specs.Prelude.{◌≡◌};
ghost use Rattle.node_threads.specs.Rising.{TakenOnce};
ghost use Rattle.node_threads.specs.declared.numbered.TheConstants.{LAST_NUMBER};
ghost use Rattle.node_threads.specs.declared.queue.TheConstants.{MAX_QUEUED};

/// Under the queue's rule, which holds at each moment, no connection is taken twice, whatever ends
/// take from it.
#[tactic(auto, using(crate::proofs::Risings::taken_once))]
pub fn connections_are_taken_once<S>()
    ensures { TakenOnce S }
{}

/// How many connections wait for a worker, and the last number that one gets.
pub fn limits_are_these()
    ensures queued { MAX_QUEUED ≡ 256 }
    ensures last { LAST_NUMBER ≡ 4611686018427387904 }
{}
