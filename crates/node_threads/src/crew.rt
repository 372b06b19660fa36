//! Starting the threads, waiting for their end, and joining them.
ghost use Rattle.std.specs.Prelude.{◌≡◌, IfOk};
ghost use Rattle.node_threads.specs.HandedBack.{AreHandedBack, given_to};

use crate::tools::{HandsBack, Tools};
use std::alloc::Global;
use std::snapshot::Snapshot;
use std::sync::Wait;
use std::thread;
use std::thread::{PromisedHandle, Scope, Threads, join_promised};
use thiserror::Error;

/// Why not all threads could be started. Those that were have ended.
#[derive(Clone, Copy, PartialEq, Eq, Debug, Error)]
pub enum CrewFault {
    #[error("the system gives no further thread")]
    NoThread,
    #[error("out of memory")]
    Memory,
}

/// What the threads of a server do.
pub trait Crew<R> {
    /// What each worker has of its own.
    type Tools: Tools;

    /// What the one at the door has.
    type Door;

    /// What each further one is given.
    type Task;

    /// Works until `stop`, and gives the tools back.
    fn work(&self, rt: &R, tools: Self::Tools) -> Self::Tools
        ensures { Self.Tools.returns tools result };

    /// Is at the door until `stop`.
    fn attend(&self, rt: &R, door: Self::Door);

    /// Does a task until `stop`.
    fn tend(&self, rt: &R, task: Self::Task);

    /// Lets the others end.
    fn stop(&self, rt: &R);
}

/// What the caller's own thread waits for. It crosses to no other thread.
pub trait AwaitEnd<R> {
    /// Waits for the end: whether it has come. Where it will never come, the threads go on.
    fn await_end(&self, rt: &R) -> bool;
}

/// What the threads are given: each worker's tools, in their order, what the one at the door has, and the tasks of the
/// others.
#[derive(Drop)]
pub struct Posts<T, D, K> {
    pub tools: Vec<T>,
    pub door: D,
    pub tasks: Vec<K>,
}

// A worker's thread.
type Worker<T> = PromisedHandle<T, HandsBack<T>>;

// Starts a worker's thread for each of these tools.
fn start_workers<'s, E, R, C>(
    scope: &Scope<'s, E>,
    rt: &'s R,
    alloc: Global,
    crew: &'s C,
    all: Vec<C::Tools>,
) -> Result<Vec<Worker<C::Tools>>, CrewFault>
where
    R: Threads + Wait + Sync,
    C: Crew<R, Tools: Send + Drop + 's, Door: Send + Drop + 's, Task: Send + Drop + 's> + Sync,
    ensures { IfOk result (λ workers. given_to workers.items ≡ all.items) }
{
    let Ok(mut workers) = Vec::with_capacity(alloc, all.len()) else {
        return Err(CrewFault::Memory);
    };
    for tools in all {
        let promise = HandsBack(Snapshot::of(&tools));
        let Ok(worker) = scope.spawn_with(promise, move || crew.work(rt, tools)) else {
            return Err(CrewFault::NoThread);
        };
        if workers.push(worker).is_err() {
            return Err(CrewFault::Memory);
        }
    }
    Ok(workers)
}

// Starts a thread for each of these tasks.
fn start_tasks<'s, E, R, C>(
    scope: &Scope<'s, E>,
    rt: &'s R,
    crew: &'s C,
    tasks: Vec<C::Task>,
) -> Result<(), CrewFault>
where
    R: Threads + Wait + Sync,
    C: Crew<R, Tools: Send + Drop + 's, Door: Send + Drop + 's, Task: Send + Drop + 's> + Sync,
{
    for task in tasks {
        if scope.spawn(move || crew.tend(rt, task)).is_err() {
            return Err(CrewFault::NoThread);
        }
    }
    Ok(())
}

// Starts the workers' threads, those of the tasks, and the one at the door.
fn start_all<'s, E, R, C>(
    scope: &Scope<'s, E>,
    rt: &'s R,
    alloc: Global,
    crew: &'s C,
    posts: Posts<C::Tools, C::Door, C::Task>,
) -> Result<Vec<Worker<C::Tools>>, CrewFault>
where
    R: Threads + Wait + Sync,
    C: Crew<R, Tools: Send + Drop + 's, Door: Send + Drop + 's, Task: Send + Drop + 's> + Sync,
    ensures { IfOk result (λ workers. given_to workers.items ≡ posts.tools.items) }
{
    let Posts { tools, door, tasks } = posts;
    let workers = start_workers(scope, rt, alloc, crew, tools)?;
    start_tasks(scope, rt, crew, tasks)?;
    match scope.spawn(move || crew.attend(rt, door)) {
        Ok(_) => Ok(workers),
        Err(_) => Err(CrewFault::NoThread),
    }
}

// What the workers hand back, once each has ended.
fn join_all<R: Threads, T: Tools + Drop>(
    rt: &R,
    workers: Vec<Worker<T>>,
) -> Result<Vec<T>, CrewFault>
    ensures { IfOk result (λ backs. AreHandedBack T.returns (given_to workers.items) backs.items) }
{
    match join_promised(rt, workers) {
        Ok(backs) => Ok(backs),
        Err(_) => Err(CrewFault::Memory),
    }
}

/// Runs the threads until their end has come, and hands the tools back in their order. Where not all can be
/// started, those that were are stopped.
pub fn run_crew<R, C, E>(
    rt: &R,
    alloc: Global,
    crew: &C,
    ending: &E,
    posts: Posts<C::Tools, C::Door, C::Task>,
) -> Result<Vec<C::Tools>, CrewFault>
where
    R: Threads + Wait + Sync,
    C: Crew<R, Tools: Send + Drop, Door: Send + Drop, Task: Send + Drop> + Sync,
    E: AwaitEnd<R>,
    ensures { IfOk result (λ backs. AreHandedBack C.Tools.returns posts.tools.items backs.items) }
{
    thread::scope(
        thread::scope_env(),
        rt,
        |scope| -> Result<Vec<C::Tools>, CrewFault>
            ensures { IfOk result (λ backs. AreHandedBack C.Tools.returns posts.tools.items backs.items) }
        {
            let started = start_all(scope, rt, alloc, crew, posts);
            if started.is_err() || ending.await_end(rt) {
                crew.stop(rt);
            }
            join_all(rt, started?)
        },
    )
}
