//! How a worker lets its clients go before the server stops.
ghost use Rattle.std.specs.Prelude.{◌≡◌, Some, unwrap_or};
ghost use Rattle.serve_grace.specs.Staying.{Leaves};

use serve_connections::{Stage, Worker};
use serve_grace::leaving;
use serve_sockets::ClientSocket;

// How many clients are served.
fn open_clients(worker: &Worker<ClientSocket>) -> u64 {
    let mut open: u64 = 0;
    for place in 0..worker.len() {
        let is_open = worker
            .at(place)
            .is_some_and(|client| client.connection.stage == Stage::Open);
        open = open.saturating_add(u64::from(is_open));
    }
    open
}

// The token of the client at this place, if it is served.
fn open_at(worker: &Worker<ClientSocket>, place: usize) -> Option<usize> {
    match worker.at(place) {
        Some(client) if client.connection.stage == Stage::Open => Some(client.token),
        _ => None,
    }
}

// Tells so many clients that the server stops, those first that came first.
fn stop_first(worker: &mut Worker<ClientSocket>, count: u64) {
    let mut left = count;
    for place in 0..worker.len() {
        if left == 0 {
            break;
        }
        if let Some(token) = open_at(worker, place) {
            worker.stop(token);
            left -= 1;
        }
    }
}

/// How many clients a worker had when it began to let them go, if it does.
#[derive(Clone, Copy)]
pub(crate) struct Farewell {
    clients: Option<u64>,
}

impl Farewell {
    /// It lets nobody go.
    pub fn new() -> Farewell {
        Farewell { clients: None }
    }

    /// Whether it lets clients go.
    pub fn is_on(&self) -> bool {
        self.clients.is_some()
    }

    /// It does no more: the server stops, and all are told at once.
    pub fn end(&mut self) {
        self.clients = None;
    }

    // How many of so many that are served have to go, once so much of the grace has passed. There were at the beginning as many as
    // the first time.
    fn due(&mut self, there: u64, passed: u64, grace: u64) -> u64
        ensures first { self.new.clients ≡ Some (unwrap_or self.old.clients there) }
        ensures leaves { Leaves there (unwrap_or self.old.clients there) passed grace result }
    {
        let clients = self.clients.unwrap_or(there);
        self.clients = Some(clients);
        leaving(there, clients, passed, grace)
    }

    /// Once so much of the grace has passed, tells as many clients that the server stops as have to go by now.
    pub fn let_go(&mut self, worker: &mut Worker<ClientSocket>, passed: u64, grace: u64) {
        let open = open_clients(worker);
        stop_first(worker, self.due(open, passed, grace));
    }
}
