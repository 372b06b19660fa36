//! The sockets of links that came in, and the thread where they do.
use crate::links::{Links, Place};
use crate::origin::Origin;
use link_rules::{LinkEnd, is_admitted};
use node_system::{Watch, next_stream};
use std::alloc::Global;
use std::net::{IpAddr, TcpListener, TcpStream};
use std::sync::{Condvar, Mutex, Wait};
use std::thread;
use std::time::{Clock, Duration};

/// How long one wait for a link lasts, in milliseconds.
const IDLE_MILLISECONDS: u64 = 1_000;

/// How long one wait lasts where the system gives none.
const RETRY_MILLISECONDS: u64 = 50;

/// How a link is called whose other end can't be told.
pub(crate) const ANYBODY: &str = "from another node";

/// The number of the listening socket.
pub(crate) const LISTENER: u64 = 0;

/// Of so many addresses it is told that a link from there was refused; those from further ones are counted alone.
const MAX_TOLD: usize = 16;

/// How many links one turn takes.
const MAX_ACCEPTED: usize = 64;

// The sockets that no thread has taken yet.
struct Sockets {
    sockets: Vec<TcpStream>,
    /// How many threads have no link and no socket that waits for them, those that aren't begun yet among them.
    free: usize,
    has_ended: bool,
}

impl Drop for Sockets {
    fn drop(self) {
        let Sockets {
            sockets,
            free: _,
            has_ended: _,
        } = self;
        drop(sockets);
    }
}

/// Sockets of links that wait for a thread: never more than there are threads without a link.
pub(crate) struct Waiting {
    sockets: Mutex<Sockets>,
    bell: Condvar,
}

impl Drop for Waiting {
    fn drop(self) {
        let Waiting { sockets, bell } = self;
        drop(sockets);
        drop(bell);
    }
}

impl Waiting {
    /// No socket waits, and so many threads serve links, or will.
    pub(crate) fn new(alloc: Global, threads: usize) -> Waiting {
        let sockets = Sockets {
            sockets: Vec::new(alloc),
            free: threads,
            has_ended: false,
        };
        Waiting {
            sockets: Mutex::new(sockets),
            bell: Condvar::new(),
        }
    }

    // Hands a socket to a thread without a link: whether there is one.
    fn give<R: Wait>(&self, rt: &R, socket: TcpStream) -> bool {
        let mut guard = self.sockets.lock(rt);
        let waiting = &mut *guard;
        if waiting.free == 0 || waiting.sockets.push(socket).is_err() {
            return false;
        }
        waiting.free -= 1;
        self.bell.notify_one();
        true
    }

    /// The next socket, or none once the links are to end. Who takes one tells when its link has gone.
    pub(crate) fn take<R: Wait>(&self, rt: &R) -> Option<TcpStream> {
        let first = self.sockets.lock(rt);
        let mut guard = self.bell.wait_while(rt, first, |waiting| {
            !waiting.has_ended && waiting.sockets.is_empty()
        });
        let waiting = &mut *guard;
        if waiting.has_ended {
            return None;
        }
        waiting.sockets.pop()
    }

    /// The link of a socket that was taken has gone.
    pub(crate) fn give_back<R: Wait>(&self, rt: &R) {
        let mut guard = self.sockets.lock(rt);
        guard.free = guard.free.saturating_add(1);
    }

    /// Lets the threads that wait end.
    pub(crate) fn end<R: Wait>(&self, rt: &R) {
        let mut guard = self.sockets.lock(rt);
        guard.has_ended = true;
        drop(guard);
        self.bell.notify_all();
    }
}

/// What the thread where links come in has of its own.
pub struct LinkDoor {
    /// Where links come in, if any do.
    listener: Option<TcpListener>,
    watch: Watch,
    /// The addresses from which links are taken: where there are none, from any.
    from: Vec<IpAddr>,
    /// The others of which it was told.
    told: Vec<IpAddr>,
}

impl Drop for LinkDoor {
    fn drop(self) {
        let LinkDoor {
            listener,
            watch,
            from,
            told,
        } = self;
        drop(listener);
        drop(watch);
        drop(from);
        drop(told);
    }
}

impl LinkDoor {
    /// The listening socket, where there is one, is watched as `LISTENER`.
    pub(crate) fn new(
        alloc: Global,
        listener: Option<TcpListener>,
        watch: Watch,
        from: Vec<IpAddr>,
    ) -> LinkDoor {
        LinkDoor {
            listener,
            watch,
            from,
            told: Vec::new(alloc),
        }
    }

    // Whether a link may come from where this socket does. Where that can't be told it may from anywhere alone.
    fn admits(&self, socket: &TcpStream) -> bool {
        match socket.peer_addr() {
            Ok(address) => is_admitted(self.from.as_slice(), &address.ip()),
            Err(_) => self.from.is_empty(),
        }
    }

    // Whether it is to be told that a link was refused which comes from where this socket does.
    fn is_news(&mut self, socket: &TcpStream) -> bool {
        let Ok(address) = socket.peer_addr() else {
            return true;
        };
        let host = address.ip();
        if self.told.len() >= MAX_TOLD || self.told.contains(&host) {
            return false;
        }
        self.told.push(host).is_ok()
    }

    // A link is refused for the address that it comes from, which is told once.
    fn refuses<R: Wait + Clock + Eprint>(&mut self, rt: &R, links: &Links, socket: &TcpStream) {
        links.tallies.count_refused();
        if !self.is_news(socket) {
            return;
        }
        if let Ok(origin) = Origin::of(links.alloc, socket) {
            links.tell_down(rt, origin.place(), LinkEnd::OtherAddress);
        }
    }

    // Takes one link, if one waits: whether there may be another.
    fn take_one<R: Wait + Clock + Eprint>(&mut self, rt: &R, links: &Links) -> bool {
        let Some(listener) = &self.listener else {
            return false;
        };
        let Some(socket) = next_stream(listener) else {
            return false;
        };
        if !self.admits(&socket) {
            self.refuses(rt, links, &socket);
            return true;
        }
        if !links.waiting.give(rt, socket) {
            let place = Place {
                words: ANYBODY,
                page: ANYBODY,
            };
            links.tell_down(rt, place, LinkEnd::TooMany);
        }
        true
    }

    // Takes the links that wait, as many as a turn may: whether there may be more.
    fn take_in<R: Wait + Clock + Eprint>(&mut self, rt: &R, links: &Links) -> bool {
        for _ in 0..MAX_ACCEPTED {
            if !self.take_one(rt, links) {
                return false;
            }
        }
        true
    }

    /// Takes links until they are to end.
    pub(crate) fn attend<R: Wait + Clock + Eprint>(&mut self, rt: &R, links: &Links) {
        for _ in rt.forever() {
            if links.is_stopped() {
                break;
            }
            let wait = if self.take_in(rt, links) {
                0
            } else {
                IDLE_MILLISECONDS
            };
            if self.watch.wait(wait).is_err() {
                thread::sleep(rt, Duration::from_millis(RETRY_MILLISECONDS));
            }
        }
    }
}
