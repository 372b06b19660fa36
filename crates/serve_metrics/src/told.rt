//! What is told of the server at one time.
use serve_ports::Tally;

/// How many requests got each answer.
#[derive(Clone, Copy, PartialEq, Eq, Debug)]
pub struct AnswersTold {
    pub sockets: u64,
    pub pages: u64,
    pub scripts: u64,
    pub health: u64,
    pub metrics: u64,
    pub bad_requests: u64,
    pub forbidden: u64,
    pub not_found: u64,
    pub not_allowed: u64,
    pub options: u64,
    pub no_host: u64,
    pub long_head: u64,
    pub long_body: u64,
    pub elsewhere: u64,
    pub unwell: u64,
    pub full: u64,
    pub crowded: u64,
    pub hasty: u64,
    pub unauthorized: u64,
}

/// How many sessions ended by each code of a close frame, and without one.
#[derive(Clone, Copy, PartialEq, Eq, Debug)]
pub struct EndsTold {
    pub normal: u64,
    pub away: u64,
    pub unsupported: u64,
    pub policy: u64,
    pub size: u64,
    pub error: u64,
    pub unauthorized: u64,
    pub client: u64,
    pub stream: u64,
}

/// What the server has counted.
#[derive(Clone, Copy, PartialEq, Eq, Debug)]
pub struct ServerTold {
    pub connections: u64,
    pub under_way: u64,
    pub handed_on: u64,
    pub no_room: u64,
    pub unwatched: u64,
    pub queue_full: u64,
    pub failed: u64,
    pub silent: u64,
    pub no_http: u64,
    pub answers: AnswersTold,
    pub begun: u64,
    /// How many sessions are open.
    pub sessions: u64,
    pub ends: EndsTold,
    pub calls: Tally,
    /// How many topics sessions have joined, those of each counted.
    pub joined: u64,
    /// How many bytes came over WebSockets, their handshakes among them.
    pub received_bytes: u64,
    /// How many texts came over them.
    pub messages: u64,
    /// How many clients have a place, or are promised one.
    pub clients: u64,
    /// How many places there are.
    pub clients_max: u64,
    pub due_checkpoints: u64,
    pub full_checkpoints: u64,
}

/// What the links have counted.
#[derive(Clone, Copy, PartialEq, Eq, Debug)]
pub struct LinksTold {
    /// How many are up.
    pub up: u64,
    pub came_up: u64,
    pub went_down: u64,
    pub beats: u64,
    pub wants: u64,
    /// How many were refused for their address.
    pub refused: u64,
    /// How many other nodes are to be dialled.
    pub peers: u64,
    /// To how many of these a link stands.
    pub peers_up: u64,
    pub rebirths: u64,
}

/// What the program is, and what it has of the machine.
#[derive(Clone, Copy, PartialEq, Eq, Debug)]
pub struct ProcessTold {
    pub version: &'static str,
    /// When the server started, in seconds since 1970.
    pub started: u64,
    /// How many bytes of memory it has, or 0 where that isn't known, as of the others.
    pub memory: u64,
    /// How many it may have.
    pub memory_max: u64,
    /// Whether it takes nothing more in for want of memory.
    pub is_tight: bool,
    /// How many files it has open.
    pub files: u64,
    /// How many it may have.
    pub files_max: u64,
}

/// What there is at each shard, in their order.
#[derive(Drop)]
pub struct ShardsTold {
    /// The entries of its journal.
    pub entries: Vec<u64>,
    /// The bytes that these keep beside themselves.
    pub kept_bytes: Vec<u64>,
    /// The rows that it shows of this node's sessions.
    pub own_rows: Vec<u64>,
    /// The rows that it shows of other nodes.
    pub other_rows: Vec<u64>,
    /// Its topics that a session of this node has joined.
    pub topics: Vec<u64>,
}
