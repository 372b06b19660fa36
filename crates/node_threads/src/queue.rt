//! A queue under the rule that each connection is taken once, and in rising order.
ghost use Rattle.std.specs.Prelude.{◌≡◌, ◌<◌, ◌+◌, true, false, IfOk, MatchOption, MatchResult};
ghost use Rattle.crossbeam_queue.specs.Passes.{view, IsPassOf, ruled_capacity};
ghost use Rattle.node_threads.specs.Rising.{knowledge, WasFull};

use crate::numbered::Numbered;
use crossbeam_queue::protocol::{Lesson, Outcome, Protocol, Split};
use crossbeam_queue::{Pass, RuledArrayQueue};
use std::alloc::{AllocError, Global};
use std::sync::Wait;

/// How many connections may wait for a worker.
pub const MAX_QUEUED: usize = 256;

/// What a pass may do (push), the last number that it pushed, the last that it took, and how many it took. No value of it
/// is made.
pub struct Knowledge {
    pub pushes: bool,
    pub pushed: u64,
    pub taken: u64,
    pub pops: u64,
}

// What the queue holds rises, lies above all that was taken, and is at most what was pushed.
pub struct Rising;

impl<S> Protocol<Numbered<S>, Knowledge> for Rising {
    ghost use Rattle.std.specs.Prelude.{true};
    ghost use Rattle.node_threads.specs.Rising.{knowledge, Rises};

    ghost holds = { Rises };

    ghost first = { knowledge true 0 0 0 };
}

// A new pass takes, and has taken nothing.
pub struct NewTaker;

impl Split<Knowledge> for NewTaker {
    ghost use Rattle.std.specs.Prelude.{false};
    ghost use Rattle.node_threads.specs.Rising.{knowledge};

    ghost left = { λ v. v };

    ghost right = { λ v. knowledge false 0 0 0 };
}

// A push: the number is the last that was pushed.
pub struct Given;

impl<S> Outcome<Numbered<S>, Knowledge> for Given {
    ghost use Rattle.std.specs.Prelude.{◌≡◌};
    ghost use Rattle.node_threads.specs.Rising.{knowledge};

    ghost then = { λ v x w. w ≡ knowledge v.pushes x.number v.taken v.pops };
}

impl<S> Lesson<Numbered<S>, Knowledge> for Given {
    ghost use Rattle.std.specs.Prelude.{◌+◌};
    ghost use Rattle.node_threads.specs.Rising.{RisesBelow};

    ghost fact = { λ v items. RisesBelow (v.pushed + 1) items };
}

// A pop: the number is the last that was taken, and one more was.
pub struct Taken;

impl<S> Outcome<Numbered<S>, Knowledge> for Taken {
    ghost use Rattle.std.specs.Prelude.{◌≡◌, ◌<◌, ◌+◌};
    ghost use Rattle.node_threads.specs.Rising.{knowledge};

    ghost then = { λ v x w. (v.taken < x.number) × (w ≡ knowledge v.pushes v.pushed x.number (v.pops + 1)) };
}

impl<S> Lesson<Numbered<S>, Knowledge> for Taken {
    ghost use Rattle.std.specs.Prelude.{⊤};

    ghost fact = { λ v items. ⊤ };
}

/// A queue of connections.
pub(crate) type Line<S> = RuledArrayQueue<Numbered<S>, Knowledge, Rising, Global>;

/// A new queue, with the acceptor's pass.
pub(crate) fn line<S>(alloc: Global) -> Result<(Line<S>, Pass<Numbered<S>, Knowledge>), AllocError>
    ensures room { IfOk result (λ q. ruled_capacity q.0 ≡ MAX_QUEUED) }
    ensures pass { IfOk result (λ q. IsPassOf q.0 q.1 × (view q.1 ≡ knowledge true 0 0 0)) }
{
    Line::ruled(alloc, MAX_QUEUED)
}

/// A worker's pass.
pub(crate) fn taker<S>(
    line: &Line<S>,
    pass: &mut Pass<Numbered<S>, Knowledge>,
) -> Pass<Numbered<S>, Knowledge>
    requires { IsPassOf line.now pass.old }
    ensures pass { IsPassOf line.now pass.new × (view pass.new ≡ view pass.old) }
    ensures taker { IsPassOf line.now result × (view result ≡ knowledge false 0 0 0) }
{
    line.another::<NewTaker>(pass)
}

/// Hands a connection over. A number above all before goes in, or comes back where the queue is full.
pub(crate) fn give<S, R: Wait>(
    rt: &R,
    line: &Line<S>,
    pass: &mut Pass<Numbered<S>, Knowledge>,
    connection: Numbered<S>,
) -> Result<(), Numbered<S>>
    requires pass { IsPassOf line.now pass.old × ((view pass.old).pushes ≡ true) }
    requires rises { (view pass.old).pushed < connection.number }
    ensures pass { IsPassOf line.now pass.new }
    ensures given { MatchResult result
        (λ _. view pass.new ≡ knowledge true connection.number (view pass.old).taken (view pass.old).pops)
        (λ back. (view pass.new ≡ view pass.old)
        × WasFull S (ruled_capacity line.now) ((view pass.old).pushed + 1)) }
{
    line.push_as::<Given, R>(rt, pass, connection)
}

/// Takes a connection. Its number is above each that this pass took before.
pub(crate) fn take<S, R: Wait>(
    rt: &R,
    line: &Line<S>,
    pass: &mut Pass<Numbered<S>, Knowledge>,
) -> Option<Numbered<S>>
    requires { IsPassOf line.now pass.old }
    ensures pass { IsPassOf line.now pass.new }
    ensures rises { MatchOption result
        (view pass.new ≡ view pass.old)
        (λ c. ((view pass.old).taken < c.number)
        × (view pass.new
        ≡ knowledge (view pass.old).pushes (view pass.old).pushed c.number ((view pass.old).pops + 1))) }
{
    line.pop_as::<Taken, R>(rt, pass)
}
