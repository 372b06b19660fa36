//! Waiting for the line that stops the server.
use super::input::Looked;
use super::key_files::{KeyFile, NoKeys};
use super::orders::{MAX_BYTES, Order, order_in};
use link_streams::time_behind;
use node_log::{Level, Log};
use node_system::Bell;
use node_threads::AwaitEnd;
use presence_server::{KeyRing, WorkerMailbox};
use presence_stdio::read_line;
use serve_grace::Grace;
use serve_metrics::Counts;
use std::alloc::{AllocError, Global};
use std::io::{Input, Print, Read};
use std::net::Net;
use std::rt::Files;
use std::sync::Wait;
use std::thread;
use std::time::{Clock, Duration};

/// Once in so long it is looked at whether clients are left, and whether a line came meanwhile, in milliseconds.
const LOOK_MILLISECONDS: u64 = 50;

/// How many milliseconds a second has.
const SECOND: u64 = 1_000;

/// What is said where keys were read anew, and where there is no memory for them.
const READ_ANEW: &str = "--token-keys: the keys were read anew";

const NO_MEMORY: &str =
    "--token-keys: there is no memory to read the keys; those that there were stay";

// Reads until a line asks for something: what. Other lines are passed over, however long. None where the input has ended.
fn next_order<R: Read>(alloc: Global, reader: &mut R) -> Option<Order> {
    let mut within = false;
    for _ in 0..u64::MAX {
        let Ok(Some(piece)) = read_line(alloc, reader, MAX_BYTES) else {
            return None;
        };
        if !within {
            let order = order_in(piece.as_slice());
            if order.is_some() {
                return order;
            }
        }
        within = piece.len() > MAX_BYTES;
    }
    None
}

/// The keys under which clients sign in, and the file that has them.
#[derive(Clone, Copy)]
pub(crate) struct KeyPlace<'a> {
    pub ring: &'a KeyRing,
    pub file: KeyFile<'a>,
}

/// The line that stops the server, on standard input, and where it listens.
#[derive(Clone, Copy)]
pub(crate) struct StopLine<'a> {
    pub alloc: Global,
    pub log: &'a Log,
    /// What standard error is told before the server is ready.
    pub place: &'a str,
    /// What a line `keys` reads anew, if clients sign in.
    pub keys: Option<KeyPlace<'a>>,
    /// Over how long clients are let go before the server stops.
    pub grace: &'a Grace,
    pub counts: &'a Counts,
    /// What wakes the workers, and the thread at the door.
    pub mailboxes: &'a [WorkerMailbox],
    pub door_bell: &'a Bell,
}

impl StopLine<'_> {
    // Says why keys weren't read anew.
    fn tell_kept<R: Eprint + Clock>(&self, rt: &R, file: KeyFile<'_>, why: NoKeys) {
        let alloc = self.alloc;
        let words = match file.words(alloc, why) {
            Ok(words) => format!(in alloc; "{words}; the keys that there were stay"),
            Err(e) => Err(e),
        };
        match words {
            Ok(words) => self.log.say(rt, Level::Warn, words.as_str()),
            Err(_) => self.log.say(rt, Level::Warn, NO_MEMORY),
        }
    }

    // Reads the keys anew. Where that can't be done those that there were stay.
    fn read_keys<R: Eprint + Clock + Files + Wait>(&self, rt: &R) {
        let Some(KeyPlace { ring, file }) = self.keys else {
            return;
        };
        match file.read(rt, self.alloc) {
            Ok(keys) => {
                ring.replace(rt, keys);
                self.log.say(rt, Level::Info, READ_ANEW);
            }
            Err(why) => self.tell_kept(rt, file, why),
        }
    }

    // How many clients are served.
    fn clients(&self) -> u64 {
        self.counts.told().sessions
    }

    // Says a line for which there may be no memory.
    fn say<R: Eprint + Clock>(&self, rt: &R, words: Result<String, AllocError>) {
        if let Ok(words) = words {
            self.log.say(rt, Level::Info, words.as_str());
        }
    }

    // The clients are let go from now on.
    fn begin<R: Eprint + Clock>(&self, rt: &R) {
        let clients = self.clients();
        self.grace.begin(time_behind(rt, 0));
        self.door_bell.ring();
        for mailbox in self.mailboxes {
            mailbox.bell.ring();
        }
        let seconds = self.grace.milliseconds() / SECOND;
        let words = format!(in self.alloc;
            "draining: no client is taken any more; clients to be let go within {seconds} s: {clients}"
        );
        self.say(rt, words);
    }

    // They were let go, but for those that are left.
    fn end<R: Eprint + Clock>(&self, rt: &R) {
        let clients = self.clients();
        let words = format!(in self.alloc;
            "drained: the server stops; clients that are left: {clients}"
        );
        self.say(rt, words);
    }

    // Whether the grace is over, or nobody is left.
    fn is_over<R: Clock>(&self, rt: &R) -> bool {
        let passed = self.grace.passed(time_behind(rt, 0)).unwrap_or(0);
        passed >= self.grace.milliseconds() || self.clients() == 0
    }

    // Does what came on standard input meanwhile: whether the server is to stop at once.
    fn is_cut_short<R, I>(&self, rt: &R, input: &mut Looked<I>) -> bool
    where
        R: Eprint + Clock + Files + Wait,
        I: Read + Drop,
    {
        match input.order() {
            Some(Order::Stop) => return true,
            Some(Order::Keys) => self.read_keys(rt),
            Some(Order::Drain) | None => {}
        }
        false
    }

    // Lets the clients go over the grace, if there is one, until nobody is left or a further line asks for the stop.
    fn drain<R, I>(&self, rt: &R, reader: I)
    where
        R: Eprint + Clock + Files + Wait + Net,
        I: Read + Drop,
    {
        let grace = self.grace.milliseconds();
        if grace == 0 {
            return;
        }
        self.begin(rt);
        let mut input = Looked::new(rt, self.alloc, reader);
        for _ in 0..=grace / LOOK_MILLISECONDS {
            thread::sleep(rt, Duration::from_millis(LOOK_MILLISECONDS));
            if self.is_over(rt) || self.is_cut_short(rt, &mut input) {
                break;
            }
        }
        self.end(rt);
    }

    // Reads until the server is to stop: by which reader. None where the input has ended.
    fn read_on<R, I>(&self, rt: &R, reader: I) -> Option<I>
    where
        R: Eprint + Clock + Files + Wait,
        I: Read + Drop,
    {
        let mut reader = reader;
        for _ in 0..u64::MAX {
            match next_order(self.alloc, &mut reader)? {
                Order::Stop => return Some(reader),
                Order::Drain if self.grace.milliseconds() > 0 => return Some(reader),
                Order::Drain => {}
                Order::Keys => self.read_keys(rt),
            }
        }
        None
    }
}

impl<R: Input + Print + Eprint + Clock + Files + Wait + Net> AwaitEnd<R> for StopLine<'_> {
    // The server is told to be ready first. Where nobody can be told, it ends.
    fn await_end(&self, rt: &R) -> bool {
        self.log.say(rt, Level::Info, self.place);
        if rt.println("ready").is_err() {
            return true;
        }
        match self.read_on(rt, rt.reader()) {
            Some(reader) => {
                self.drain(rt, reader);
                true
            }
            None => false,
        }
    }
}
