//! Which sources are ready.
ghost use Rattle.std.specs.Prelude.{◌≡◌, ◌<◌, ◌≤◌, [], length, IfOk, OnErr, IsErr};
ghost use Rattle.std.specs.Iterator.Runs.{EveryRun, ItemsMapTo};
ghost use Rattle.std.specs.Slice.Iter.{iter_rest, iter_steps};
ghost use Rattle.mio.specs.Events.{capacity, items};
ghost use Rattle.mio.specs.declared.event.event.Event.{Event};
ghost use Rattle.node_system.specs.Watching.{reported};
ghost use Rattle.node_system.specs.declared.watch.TheConstants.{MAX_EVENTS};

use mio::event::{Event, Iter};
use mio::unix::SourceFd;
use mio::{Events, Interest, Poll, Token, Waker};
use std::alloc::Global;
use std::io;
use std::io::ErrorKind;
use std::net::Net;
use std::os::fd::AsRawFd;
use std::time::Duration;

/// How many sources one wait reports at most.
const MAX_EVENTS: usize = 1_024;

/// The highest number that a source may have.
pub const LAST_TOKEN: u64 = 4_611_686_018_427_387_904;

/// The token of what ends a wait from another thread, which is no number of a source.
const BELL: usize = usize::MAX;

/// Sources under numbers, and those that were ready at the last wait.
pub struct Watch {
    poll: Poll,
    events: Events,
    ghost few: { length (items events) ≤ MAX_EVENTS },
    ghost most: { capacity events ≡ MAX_EVENTS },
}

impl Drop for Watch {
    fn drop(self) {
        let Watch { poll, events } = self;
        drop(poll);
        drop(events);
    }
}

/// Ends a wait from another thread.
pub struct Bell {
    waker: Waker,
}

impl Drop for Bell {
    fn drop(self) {
        let Bell { waker } = self;
        drop(waker);
    }
}

/// The number of the source that was ready, or none for a wait that was ended from another thread.
pub fn number_of(event: &Event) -> Option<u64>
    ensures { result ≡ reported event.now }
{
    let Token(token) = event.token();
    if token == BELL {
        return None;
    }
    Some(token as u64)
}

impl Watch {
    /// Nothing is watched yet.
    pub fn new<R: Net>(net: &R, alloc: Global) -> io::Result<Watch>
        ensures { IfOk result (λ watch. items watch.events ≡ []) }
    {
        Ok(Watch {
            poll: Poll::new(net)?,
            events: Events::with_capacity(alloc, MAX_EVENTS)?,
        })
    }

    /// What ends its waits. There is one of each watch.
    pub fn bell(&self) -> io::Result<Bell> {
        Ok(Bell {
            waker: Waker::new(self.poll.registry(), Token(BELL))?,
        })
    }

    /// Watches a source under this number, for bytes that come and for room to send. That a wait then reports it is
    /// only tested.
    pub fn add<S: AsRawFd>(&self, source: &S, number: u64) -> io::Result<()>
        ensures { LAST_TOKEN < number → IsErr result }
    {
        if number > LAST_TOKEN {
            return Err(io::Error::from(ErrorKind::InvalidInput));
        }
        let descriptor = source.as_raw_fd();
        self.poll.registry().register(
            &mut SourceFd(&descriptor),
            Token(number as usize),
            Interest::READABLE | Interest::WRITABLE,
        )
    }

    /// Watches a source no more. That no wait reports it from then on is only tested.
    pub fn remove<S: AsRawFd>(&self, source: &S) -> io::Result<()> {
        let descriptor = source.as_raw_fd();
        self.poll.registry().deregister(&mut SourceFd(&descriptor))
    }

    /// Waits until a source is ready or the bell rings, for so many milliseconds at most. A wait that fails reports
    /// none.
    pub fn wait(&mut self, milliseconds: u64) -> io::Result<()>
        ensures { OnErr result (items self.new.events ≡ []) }
    {
        let time = Duration::from_millis(milliseconds);
        self.poll.poll(&mut self.events, Some(time))
    }

    /// What was ready at the last wait.
    pub fn events(&self) -> Iter<'_>
        ensures all { iter_rest result ≡ items self.now.events }
        ensures few { length (iter_rest result) ≤ MAX_EVENTS }
        ensures runs { EveryRun (iter_steps {A = Event}) (λ p. ItemsMapTo p (λ e. e.now) (iter_rest p.from)) }
    {
        self.events.iter()
    }
}

impl Bell {
    /// Ends the wait that is under way, or else the next. That it does is only tested.
    pub fn ring(&self) {
        let _lost = self.waker.wake();
    }
}
