//! The families of counts that `/metrics` tells.
use crate::text::Family;

pub(crate) const CONNECTIONS: Family = Family {
    name: "presence_node_connections_total",
    help: "Connections that were taken.",
    kind: "counter",
    label: "",
};

pub(crate) const DROPPED: Family = Family {
    name: "presence_node_connections_dropped_total",
    help: "Connections that were taken and dropped.",
    kind: "counter",
    label: "reason",
};

pub(crate) const UNDER_WAY: Family = Family {
    name: "presence_node_requests_under_way",
    help: "Connections whose request is waited for or being answered.",
    kind: "gauge",
    label: "",
};

pub(crate) const GIVEN_UP: Family = Family {
    name: "presence_node_requests_given_up_total",
    help: "Connections that ended before they were answered.",
    kind: "counter",
    label: "reason",
};

pub(crate) const REQUESTS: Family = Family {
    name: "presence_node_requests_total",
    help: "Requests at the port of clients, by their answer.",
    kind: "counter",
    label: "answer",
};

pub(crate) const SOCKETS: Family = Family {
    name: "presence_node_sockets_total",
    help: "WebSockets that were handed to the workers.",
    kind: "counter",
    label: "",
};

pub(crate) const SESSIONS: Family = Family {
    name: "presence_node_sessions",
    help: "Sessions that are open.",
    kind: "gauge",
    label: "",
};

pub(crate) const BEGUN: Family = Family {
    name: "presence_node_sessions_begun_total",
    help: "Sessions that began.",
    kind: "counter",
    label: "",
};

pub(crate) const ENDED: Family = Family {
    name: "presence_node_sessions_ended_total",
    help: "Sessions that ended, by the code that the server closed them with, or by what ended them without one.",
    kind: "counter",
    label: "close",
};

pub(crate) const PLACES: Family = Family {
    name: "presence_node_places",
    help: "The same as presence_node_joined_topics, by the name that it had.",
    kind: "gauge",
    label: "",
};

pub(crate) const CALLS: Family = Family {
    name: "presence_node_calls_total",
    help: "Accepted calls of sessions, by kind; a session that ends leaves each topic.",
    kind: "counter",
    label: "call",
};

pub(crate) const REFUSED: Family = Family {
    name: "presence_node_calls_refused_total",
    help: "Calls of sessions that were refused.",
    kind: "counter",
    label: "",
};

pub(crate) const DELIVERIES: Family = Family {
    name: "presence_node_deliveries_total",
    help: "What sessions were delivered of their topics, by kind.",
    kind: "counter",
    label: "kind",
};

pub(crate) const ENTRIES: Family = Family {
    name: "presence_node_journal_entries",
    help: "Entries of the journal since its last checkpoint.",
    kind: "gauge",
    label: "shard",
};

pub(crate) const BYTES: Family = Family {
    name: "presence_node_journal_bytes",
    help: "Bytes that the journal's entries keep beside themselves, since its last checkpoint.",
    kind: "gauge",
    label: "shard",
};

pub(crate) const OWN_ROWS: Family = Family {
    name: "presence_node_own_rows",
    help: "Rows that are shown of sessions of this node.",
    kind: "gauge",
    label: "shard",
};

pub(crate) const OTHER_ROWS: Family = Family {
    name: "presence_node_other_rows",
    help: "Rows that are shown of sessions of other nodes.",
    kind: "gauge",
    label: "shard",
};

pub(crate) const TOPICS: Family = Family {
    name: "presence_node_topics",
    help: "Topics that a session of this node has joined.",
    kind: "gauge",
    label: "shard",
};

pub(crate) const CHECKPOINTS: Family = Family {
    name: "presence_node_checkpoints_total",
    help: "Checkpoints, by why they were made.",
    kind: "counter",
    label: "reason",
};

pub(crate) const LINKS: Family = Family {
    name: "presence_node_links",
    help: "Links to other nodes that are up.",
    kind: "gauge",
    label: "",
};

pub(crate) const CAME_UP: Family = Family {
    name: "presence_node_links_up_total",
    help: "Links that came up.",
    kind: "counter",
    label: "",
};

pub(crate) const WENT_DOWN: Family = Family {
    name: "presence_node_links_down_total",
    help: "Links that went down.",
    kind: "counter",
    label: "",
};

pub(crate) const BEATS: Family = Family {
    name: "presence_node_link_beats_total",
    help: "Beats that went out over links.",
    kind: "counter",
    label: "",
};

pub(crate) const WANTS: Family = Family {
    name: "presence_node_link_wants_total",
    help: "Times that another node asked for what it lacks.",
    kind: "counter",
    label: "",
};

pub(crate) const JOINED: Family = Family {
    name: "presence_node_joined_topics",
    help: "Topics that sessions have joined, those of each session counted.",
    kind: "gauge",
    label: "",
};

pub(crate) const CLIENTS: Family = Family {
    name: "presence_node_clients",
    help: "Clients that have a place at a worker, or are promised one.",
    kind: "gauge",
    label: "",
};

pub(crate) const CLIENTS_MAX: Family = Family {
    name: "presence_node_clients_max",
    help: "Clients that the workers have places for.",
    kind: "gauge",
    label: "",
};

pub(crate) const RECEIVED: Family = Family {
    name: "presence_node_received_bytes_total",
    help: "Bytes that came over WebSockets, their handshakes among them.",
    kind: "counter",
    label: "",
};

pub(crate) const MESSAGES: Family = Family {
    name: "presence_node_messages_total",
    help: "Texts that came over WebSockets.",
    kind: "counter",
    label: "",
};

pub(crate) const REFUSALS: Family = Family {
    name: "presence_node_call_refusals_total",
    help: "Calls of sessions that were refused, by why.",
    kind: "counter",
    label: "reason",
};

pub(crate) const LINKS_REFUSED: Family = Family {
    name: "presence_node_links_refused_total",
    help: "Links that were refused for the address that they came from.",
    kind: "counter",
    label: "",
};

pub(crate) const PEERS: Family = Family {
    name: "presence_node_peers",
    help: "Other nodes that this one is told to dial.",
    kind: "gauge",
    label: "",
};

pub(crate) const PEERS_UP: Family = Family {
    name: "presence_node_peers_up",
    help: "Those of them to which a link stands.",
    kind: "gauge",
    label: "",
};

pub(crate) const REBIRTHS: Family = Family {
    name: "presence_node_rebirths_total",
    help: "Times that this node went on under its next incarnation.",
    kind: "counter",
    label: "",
};

pub(crate) const BUILD: Family = Family {
    name: "presence_node_build_info",
    help: "Always 1: which program it is.",
    kind: "gauge",
    label: "version",
};

pub(crate) const STARTED: Family = Family {
    name: "process_start_time_seconds",
    help: "When the server started, in seconds since 1970.",
    kind: "gauge",
    label: "",
};

pub(crate) const MEMORY: Family = Family {
    name: "process_resident_memory_bytes",
    help: "Memory that the program has, or 0 where the system doesn't say.",
    kind: "gauge",
    label: "",
};

pub(crate) const MEMORY_MAX: Family = Family {
    name: "presence_node_memory_max_bytes",
    help: "Memory that the program may have, beyond nine tenths of which it takes nothing more in.",
    kind: "gauge",
    label: "",
};

pub(crate) const MEMORY_TIGHT: Family = Family {
    name: "presence_node_memory_is_tight",
    help: "1 while it takes nothing more in for want of memory, and else 0.",
    kind: "gauge",
    label: "",
};

pub(crate) const FILES: Family = Family {
    name: "process_open_fds",
    help: "Files that the program has open, or 0 where the system doesn't say.",
    kind: "gauge",
    label: "",
};

pub(crate) const FILES_MAX: Family = Family {
    name: "process_max_fds",
    help: "Files that it may have open, or 0 where the system doesn't say.",
    kind: "gauge",
    label: "",
};
