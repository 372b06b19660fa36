//! What came over the WebSockets of a worker.
use serve_connections::{Client, Worker};
use serve_metrics::Counts;
use serve_sockets::ClientSocket;

// Bytes and texts that came.
#[derive(Clone, Copy)]
struct Traffic {
    bytes: u64,
    messages: u64,
}

impl Traffic {
    fn new() -> Traffic {
        Traffic {
            bytes: 0,
            messages: 0,
        }
    }

    // With what came from this client.
    fn and(self, client: &Client<ClientSocket>) -> Traffic {
        let stream = client.connection.socket.get_ref();
        Traffic {
            bytes: self.bytes.saturating_add(stream.received()),
            messages: self.messages.saturating_add(client.connection.messages),
        }
    }
}

/// What came over the WebSockets of a worker, those of clients that have gone among them.
#[derive(Clone, Copy)]
pub(crate) struct Received {
    /// From clients that have gone.
    gone: Traffic,
    /// How much of all was counted.
    counted: Traffic,
}

impl Received {
    /// Nothing came.
    pub fn new() -> Received {
        Received {
            gone: Traffic::new(),
            counted: Traffic::new(),
        }
    }

    /// This client is gone with the worker's next flush, before anything is counted.
    pub fn see_off(&mut self, client: &Client<ClientSocket>) {
        self.gone = self.gone.and(client);
    }

    /// Counts what came since this was done last.
    pub fn count(&mut self, worker: &Worker<ClientSocket>, counts: &Counts) {
        let mut all = self.gone;
        for place in 0..worker.len() {
            if let Some(client) = worker.at(place) {
                all = all.and(client);
            }
        }
        counts.heard(
            all.bytes.saturating_sub(self.counted.bytes),
            all.messages.saturating_sub(self.counted.messages),
        );
        self.counted = all;
    }
}
