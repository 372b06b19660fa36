//! The counts.
use crate::count::Count;
use crate::ended::Ended;
use crate::kinds::{Answers, Calls, Ends};
use crate::told::{EndsTold, ServerTold};
use serve_handshakes::{Answer, GivenUp};
use serve_ports::Tally;

/// Why a connection was dropped that had been taken.
#[derive(Clone, Copy, PartialEq, Eq, Debug)]
pub enum Dropped {
    /// As many handshakes are under way as may be.
    Handshakes,
    /// The system gives nothing to watch it by.
    Watch,
    /// As many connections wait for the workers as may wait.
    Queue,
}

/// Why a checkpoint was made.
#[derive(Clone, Copy, PartialEq, Eq, Debug)]
pub enum Checkpoint {
    /// The journal was nearly full.
    Due,
    /// A call found it full, or no memory.
    Full,
}

// How many ended.
fn all_ends(ends: &EndsTold) -> u64 {
    let closed = [
        ends.normal,
        ends.away,
        ends.unsupported,
        ends.policy,
        ends.size,
        ends.error,
        ends.unauthorized,
        ends.client,
        ends.stream,
    ];
    let mut all: u64 = 0;
    for count in closed {
        all = all.saturating_add(count);
    }
    all
}

/// What the server has counted since it began.
#[derive(Drop)]
pub struct Counts {
    connections: Count,
    under_way: Count,
    handed_on: Count,
    no_room: Count,
    unwatched: Count,
    queue_full: Count,
    failed: Count,
    silent: Count,
    no_http: Count,
    answers: Answers,
    begun: Count,
    due_checkpoints: Count,
    full_checkpoints: Count,
    ends: Ends,
    calls: Calls,
    received_bytes: Count,
    messages: Count,
    clients: Count,
    clients_max: Count,
}

impl Counts {
    /// Nothing is counted yet.
    pub fn new() -> Counts {
        Counts {
            connections: Count::new(),
            under_way: Count::new(),
            handed_on: Count::new(),
            no_room: Count::new(),
            unwatched: Count::new(),
            queue_full: Count::new(),
            failed: Count::new(),
            silent: Count::new(),
            no_http: Count::new(),
            answers: Answers::new(),
            begun: Count::new(),
            due_checkpoints: Count::new(),
            full_checkpoints: Count::new(),
            ends: Ends::new(),
            calls: Calls::new(),
            received_bytes: Count::new(),
            messages: Count::new(),
            clients: Count::new(),
            clients_max: Count::new(),
        }
    }

    /// A connection was taken.
    pub fn took(&self) {
        self.connections.add_one();
    }

    /// So many requests are being waited for or answered.
    pub fn has_under_way(&self, requests: usize) {
        self.under_way.set(requests as u64);
    }

    /// So many clients have a place, or are promised one, of so many places that there are.
    pub fn has_clients(&self, clients: u64, places: u64) {
        self.clients.set(clients);
        self.clients_max.set(places);
    }

    /// A connection was handed to the workers.
    pub fn handed_on(&self) {
        self.handed_on.add_one();
    }

    /// One was dropped.
    pub fn dropped(&self, why: Dropped) {
        match why {
            Dropped::Handshakes => self.no_room.add_one(),
            Dropped::Watch => self.unwatched.add_one(),
            Dropped::Queue => self.queue_full.add_one(),
        }
    }

    /// A request got this answer.
    pub fn answered(&self, answer: Answer) {
        self.answers.of(answer).add_one();
    }

    /// A client got none.
    pub fn gave_up(&self, cause: GivenUp) {
        match cause {
            GivenUp::Answered => {}
            GivenUp::Failed => self.failed.add_one(),
            GivenUp::Silent => self.silent.add_one(),
            GivenUp::Junk => self.no_http.add_one(),
        }
    }

    /// So many sessions began.
    pub fn began(&self, sessions: usize) {
        self.begun.add(sessions as u64);
    }

    /// A session ended.
    pub fn ended(&self, end: Ended) {
        self.ends.of(end).add_one();
    }

    /// Sessions made these calls.
    pub fn called(&self, calls: &Tally) {
        self.calls.add(calls);
    }

    /// So many bytes more came over WebSockets, and so many texts.
    pub fn heard(&self, bytes: u64, messages: u64) {
        self.received_bytes.add(bytes);
        self.messages.add(messages);
    }

    /// A checkpoint was made.
    pub fn made(&self, checkpoint: Checkpoint) {
        match checkpoint {
            Checkpoint::Due => self.due_checkpoints.add_one(),
            Checkpoint::Full => self.full_checkpoints.add_one(),
        }
    }

    /// What was counted. Ends are looked at before what began, so that there are never more of them.
    pub fn told(&self) -> ServerTold {
        let ends = self.ends.told();
        let begun = self.begun.get();
        let calls = self.calls.told();
        ServerTold {
            connections: self.connections.get(),
            under_way: self.under_way.get(),
            handed_on: self.handed_on.get(),
            no_room: self.no_room.get(),
            unwatched: self.unwatched.get(),
            queue_full: self.queue_full.get(),
            failed: self.failed.get(),
            silent: self.silent.get(),
            no_http: self.no_http.get(),
            answers: self.answers.told(),
            begun,
            sessions: begun.saturating_sub(all_ends(&ends)),
            ends,
            calls,
            joined: calls.joins.saturating_sub(calls.leaves),
            received_bytes: self.received_bytes.get(),
            messages: self.messages.get(),
            clients: self.clients.get(),
            clients_max: self.clients_max.get(),
            due_checkpoints: self.due_checkpoints.get(),
            full_checkpoints: self.full_checkpoints.get(),
        }
    }
}
