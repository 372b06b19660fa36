//! All counts as a text.
ghost use Rattle.std.specs.Prelude.{◌≡◌, IfOk, string_bytes};
ghost use Rattle.serve_metrics.specs.Lines.{Leaves};
ghost use Rattle.serve_metrics.specs.Metrics.{accepted_behind, bytes_behind, calls_behind, checkpoints_behind, clients_behind, connections_behind, ends_behind, entries_behind, files_behind, heard_behind, joined_behind, journals_behind, link_words_behind, links_behind, links_up_behind, memory_behind, metrics_lines, nodes_behind, open_behind, other_rows_behind, own_rows_behind, peers_behind, process_behind, program_behind, refusals_behind, requests_behind, rows_behind, seats_behind, server_behind, sessions_behind, shards_behind, shown_behind, taken_behind, tight_behind, told_flag, topics_behind, waiting_behind};

use crate::families::*;
use crate::text::{count_text, named_text, numbered_text};
use crate::told::{AnswersTold, EndsTold, LinksTold, ProcessTold, ServerTold, ShardsTold};
use serve_ports::Tally;
use std::alloc::{AllocError, Global};

// The connections, and those that were dropped.
fn taken_text(alloc: Global, text: &mut String, told: &ServerTold) -> Result<(), AllocError>
    ensures { Leaves (string_bytes text.new) (taken_behind (string_bytes text.old) told.now) result }
{
    count_text(alloc, text, &CONNECTIONS, told.connections)?;
    named_text(
        alloc,
        text,
        &DROPPED,
        &[
            ("handshakes", told.no_room),
            ("watch", told.unwatched),
            ("queue", told.queue_full),
        ],
    )
}

// The requests that have no answer, or none yet.
fn waiting_text(alloc: Global, text: &mut String, told: &ServerTold) -> Result<(), AllocError>
    ensures { Leaves (string_bytes text.new) (waiting_behind (string_bytes text.old) told.now) result }
{
    count_text(alloc, text, &UNDER_WAY, told.under_way)?;
    named_text(
        alloc,
        text,
        &GIVEN_UP,
        &[
            ("failed", told.failed),
            ("silent", told.silent),
            ("no_http", told.no_http),
        ],
    )
}

// The connections, and what became of them.
#[tactic(auto, unfolding(crate::specs::Metrics::connections_behind))]
fn connections_text(alloc: Global, text: &mut String, told: &ServerTold) -> Result<(), AllocError>
    ensures { Leaves (string_bytes text.new) (connections_behind (string_bytes text.old) told.now) result }
{
    taken_text(alloc, text, told)?;
    waiting_text(alloc, text, told)
}

// The requests, by their answers.
#[tactic(auto, unfolding(crate::specs::Metrics::requests_behind))]
fn requests_text(alloc: Global, text: &mut String, answers: &AnswersTold) -> Result<(), AllocError>
    ensures { Leaves (string_bytes text.new) (requests_behind (string_bytes text.old) answers.now) result }
{
    named_text(
        alloc,
        text,
        &REQUESTS,
        &[
            ("socket", answers.sockets),
            ("page", answers.pages),
            ("script", answers.scripts),
            ("health", answers.health),
            ("metrics", answers.metrics),
            ("bad_request", answers.bad_requests),
            ("forbidden", answers.forbidden),
            ("not_found", answers.not_found),
            ("not_allowed", answers.not_allowed),
            ("options", answers.options),
            ("no_host", answers.no_host),
            ("long_head", answers.long_head),
            ("long_body", answers.long_body),
            ("elsewhere", answers.elsewhere),
            ("unwell", answers.unwell),
            ("full", answers.full),
            ("crowded", answers.crowded),
            ("hasty", answers.hasty),
            ("unauthorized", answers.unauthorized),
        ],
    )
}

// The sessions, and how they ended.
#[tactic(auto, unfolding(crate::specs::Metrics::ends_behind))]
fn ends_text(alloc: Global, text: &mut String, ends: &EndsTold) -> Result<(), AllocError>
    ensures { Leaves (string_bytes text.new) (ends_behind (string_bytes text.old) ends.now) result }
{
    named_text(
        alloc,
        text,
        &ENDED,
        &[
            ("1000", ends.normal),
            ("1001", ends.away),
            ("1003", ends.unsupported),
            ("1008", ends.policy),
            ("1009", ends.size),
            ("1011", ends.error),
            ("3000", ends.unauthorized),
            ("client", ends.client),
            ("stream", ends.stream),
        ],
    )
}

// The accepted calls of sessions.
#[tactic(auto, unfolding(crate::specs::Metrics::accepted_behind))]
fn accepted_text(alloc: Global, text: &mut String, calls: &Tally) -> Result<(), AllocError>
    ensures { Leaves (string_bytes text.new) (accepted_behind (string_bytes text.old) calls.now) result }
{
    named_text(
        alloc,
        text,
        &CALLS,
        &[
            ("join", calls.joins),
            ("leave", calls.leaves),
            ("track", calls.tracks),
            ("update", calls.updates),
            ("untrack", calls.untracks),
            ("list", calls.lists),
            ("get", calls.gets),
            ("shout", calls.shouts),
        ],
    )
}

// The refused calls of sessions, by why.
#[tactic(auto, unfolding(crate::specs::Metrics::refusals_behind))]
fn refusals_text(alloc: Global, text: &mut String, calls: &Tally) -> Result<(), AllocError>
    ensures { Leaves (string_bytes text.new) (refusals_behind (string_bytes text.old) calls.now) result }
{
    named_text(
        alloc,
        text,
        &REFUSALS,
        &[
            ("already_tracked", calls.already_tracked),
            ("no_presence", calls.no_presence),
            ("full", calls.full),
            ("journal_full", calls.journal_full),
            ("no_memory", calls.no_memory),
            ("others", calls.others),
        ],
    )
}

// The calls of sessions, and what they were delivered.
#[tactic(auto, unfolding(crate::specs::Metrics::calls_behind))]
fn calls_text(alloc: Global, text: &mut String, calls: &Tally) -> Result<(), AllocError>
    ensures { Leaves (string_bytes text.new) (calls_behind (string_bytes text.old) calls.now) result }
{
    accepted_text(alloc, text, calls)?;
    count_text(alloc, text, &REFUSED, calls.refused)?;
    refusals_text(alloc, text, calls)?;
    named_text(
        alloc,
        text,
        &DELIVERIES,
        &[
            ("state", calls.states),
            ("diff", calls.diffs),
            ("shout", calls.shouts_told),
        ],
    )
}

// The sessions that there are and were.
fn open_text(alloc: Global, text: &mut String, told: &ServerTold) -> Result<(), AllocError>
    ensures { Leaves (string_bytes text.new) (open_behind (string_bytes text.old) told.now) result }
{
    count_text(alloc, text, &SOCKETS, told.handed_on)?;
    count_text(alloc, text, &SESSIONS, told.sessions)?;
    count_text(alloc, text, &BEGUN, told.begun)
}

// The topics that sessions have joined, by both names.
fn joined_text(alloc: Global, text: &mut String, told: &ServerTold) -> Result<(), AllocError>
    ensures { Leaves (string_bytes text.new) (joined_behind (string_bytes text.old) told.now) result }
{
    count_text(alloc, text, &PLACES, told.joined)?;
    count_text(alloc, text, &JOINED, told.joined)
}

// The sessions, and what they did.
#[tactic(auto, unfolding(crate::specs::Metrics::sessions_behind))]
fn sessions_text(alloc: Global, text: &mut String, told: &ServerTold) -> Result<(), AllocError>
    ensures { Leaves (string_bytes text.new) (sessions_behind (string_bytes text.old) told.now) result }
{
    open_text(alloc, text, told)?;
    ends_text(alloc, text, &told.ends)?;
    joined_text(alloc, text, told)?;
    calls_text(alloc, text, &told.calls)
}

// The clients that there are, and may be.
#[tactic(auto, unfolding(crate::specs::Metrics::seats_behind))]
fn seats_text(alloc: Global, text: &mut String, told: &ServerTold) -> Result<(), AllocError>
    ensures { Leaves (string_bytes text.new) (seats_behind (string_bytes text.old) told.now) result }
{
    count_text(alloc, text, &CLIENTS, told.clients)?;
    count_text(alloc, text, &CLIENTS_MAX, told.clients_max)
}

// What came from the clients.
#[tactic(auto, unfolding(crate::specs::Metrics::heard_behind))]
fn heard_text(alloc: Global, text: &mut String, told: &ServerTold) -> Result<(), AllocError>
    ensures { Leaves (string_bytes text.new) (heard_behind (string_bytes text.old) told.now) result }
{
    count_text(alloc, text, &RECEIVED, told.received_bytes)?;
    count_text(alloc, text, &MESSAGES, told.messages)
}

// The clients.
#[tactic(auto, unfolding(crate::specs::Metrics::clients_behind))]
fn clients_text(alloc: Global, text: &mut String, told: &ServerTold) -> Result<(), AllocError>
    ensures { Leaves (string_bytes text.new) (clients_behind (string_bytes text.old) told.now) result }
{
    connections_text(alloc, text, told)?;
    requests_text(alloc, text, &told.answers)?;
    seats_text(alloc, text, told)?;
    heard_text(alloc, text, told)?;
    sessions_text(alloc, text, told)
}

// The checkpoints, by why they were made.
#[tactic(auto, unfolding(crate::specs::Metrics::checkpoints_behind))]
fn checkpoints_text(alloc: Global, text: &mut String, told: &ServerTold) -> Result<(), AllocError>
    ensures { Leaves (string_bytes text.new) (checkpoints_behind (string_bytes text.old) told.now) result }
{
    named_text(
        alloc,
        text,
        &CHECKPOINTS,
        &[
            ("due", told.due_checkpoints),
            ("full", told.full_checkpoints),
        ],
    )
}

// The links that there are and were.
fn links_up_text(alloc: Global, text: &mut String, links: &LinksTold) -> Result<(), AllocError>
    ensures { Leaves (string_bytes text.new) (links_up_behind (string_bytes text.old) links.now) result }
{
    count_text(alloc, text, &LINKS, links.up)?;
    count_text(alloc, text, &CAME_UP, links.came_up)?;
    count_text(alloc, text, &WENT_DOWN, links.went_down)
}

// What went over links, and those that were refused.
fn link_words_text(alloc: Global, text: &mut String, links: &LinksTold) -> Result<(), AllocError>
    ensures { Leaves (string_bytes text.new) (link_words_behind (string_bytes text.old) links.now) result }
{
    count_text(alloc, text, &BEATS, links.beats)?;
    count_text(alloc, text, &WANTS, links.wants)?;
    count_text(alloc, text, &LINKS_REFUSED, links.refused)
}

// The other nodes that are to be dialled, and the lives of this one.
fn peers_text(alloc: Global, text: &mut String, links: &LinksTold) -> Result<(), AllocError>
    ensures { Leaves (string_bytes text.new) (peers_behind (string_bytes text.old) links.now) result }
{
    count_text(alloc, text, &PEERS, links.peers)?;
    count_text(alloc, text, &PEERS_UP, links.peers_up)?;
    count_text(alloc, text, &REBIRTHS, links.rebirths)
}

// The links, and what went over them.
#[tactic(auto, unfolding(crate::specs::Metrics::links_behind))]
fn links_text(alloc: Global, text: &mut String, links: &LinksTold) -> Result<(), AllocError>
    ensures { Leaves (string_bytes text.new) (links_behind (string_bytes text.old) links.now) result }
{
    links_up_text(alloc, text, links)?;
    link_words_text(alloc, text, links)?;
    peers_text(alloc, text, links)
}

// The clients, and the checkpoints.
#[tactic(auto, unfolding(crate::specs::Metrics::server_behind))]
fn server_text(alloc: Global, text: &mut String, told: &ServerTold) -> Result<(), AllocError>
    ensures { Leaves (string_bytes text.new) (server_behind (string_bytes text.old) told.now) result }
{
    clients_text(alloc, text, told)?;
    checkpoints_text(alloc, text, told)
}

// The entries of each shard's journal.
fn entries_text(alloc: Global, text: &mut String, shards: &ShardsTold) -> Result<(), AllocError>
    ensures { Leaves (string_bytes text.new) (entries_behind (string_bytes text.old) shards.now) result }
{
    numbered_text(alloc, text, &ENTRIES, shards.entries.as_slice())
}

// The bytes of their texts.
fn bytes_text(alloc: Global, text: &mut String, shards: &ShardsTold) -> Result<(), AllocError>
    ensures { Leaves (string_bytes text.new) (bytes_behind (string_bytes text.old) shards.now) result }
{
    numbered_text(alloc, text, &BYTES, shards.kept_bytes.as_slice())
}

// The rows that each shard shows of this node's sessions.
fn own_rows_text(alloc: Global, text: &mut String, shards: &ShardsTold) -> Result<(), AllocError>
    ensures { Leaves (string_bytes text.new) (own_rows_behind (string_bytes text.old) shards.now) result }
{
    numbered_text(alloc, text, &OWN_ROWS, shards.own_rows.as_slice())
}

// Those of other nodes.
fn other_rows_text(alloc: Global, text: &mut String, shards: &ShardsTold) -> Result<(), AllocError>
    ensures { Leaves (string_bytes text.new) (other_rows_behind (string_bytes text.old) shards.now) result }
{
    numbered_text(alloc, text, &OTHER_ROWS, shards.other_rows.as_slice())
}

// The joined topics of each shard.
fn topics_text(alloc: Global, text: &mut String, shards: &ShardsTold) -> Result<(), AllocError>
    ensures { Leaves (string_bytes text.new) (topics_behind (string_bytes text.old) shards.now) result }
{
    numbered_text(alloc, text, &TOPICS, shards.topics.as_slice())
}

// The rows that each shard shows.
fn rows_text(alloc: Global, text: &mut String, shards: &ShardsTold) -> Result<(), AllocError>
    ensures { Leaves (string_bytes text.new) (rows_behind (string_bytes text.old) shards.now) result }
{
    own_rows_text(alloc, text, shards)?;
    other_rows_text(alloc, text, shards)
}

// The rows that each shard shows, and its topics.
fn shown_text(alloc: Global, text: &mut String, shards: &ShardsTold) -> Result<(), AllocError>
    ensures { Leaves (string_bytes text.new) (shown_behind (string_bytes text.old) shards.now) result }
{
    rows_text(alloc, text, shards)?;
    topics_text(alloc, text, shards)
}

// Each shard's journal.
fn journals_text(alloc: Global, text: &mut String, shards: &ShardsTold) -> Result<(), AllocError>
    ensures { Leaves (string_bytes text.new) (journals_behind (string_bytes text.old) shards.now) result }
{
    entries_text(alloc, text, shards)?;
    bytes_text(alloc, text, shards)
}

// What there is at each shard.
#[tactic(auto, unfolding(crate::specs::Metrics::shards_behind))]
fn shards_text(alloc: Global, text: &mut String, shards: &ShardsTold) -> Result<(), AllocError>
    ensures { Leaves (string_bytes text.new) (shards_behind (string_bytes text.old) shards.now) result }
{
    journals_text(alloc, text, shards)?;
    shown_text(alloc, text, shards)
}

// What there is at each shard, and the links.
#[tactic(auto, unfolding(crate::specs::Metrics::nodes_behind))]
fn nodes_text(
    alloc: Global,
    text: &mut String,
    shards: &ShardsTold,
    links: &LinksTold,
) -> Result<(), AllocError>
    ensures { Leaves (string_bytes text.new) (nodes_behind (string_bytes text.old) shards.now links.now) result }
{
    shards_text(alloc, text, shards)?;
    links_text(alloc, text, links)
}

// Which program it is, and since when.
#[tactic(auto, unfolding(crate::specs::Metrics::program_behind))]
fn program_text(alloc: Global, text: &mut String, process: &ProcessTold) -> Result<(), AllocError>
    ensures { Leaves (string_bytes text.new) (program_behind (string_bytes text.old) process.now) result }
{
    named_text(alloc, text, &BUILD, &[(process.version, 1)])?;
    count_text(alloc, text, &STARTED, process.started)
}

// Yes as a number.
fn flag(is_so: bool) -> u64
    ensures { result ≡ told_flag is_so }
{
    if is_so { 1 } else { 0 }
}

// Whether it takes nothing more in.
fn tight_text(alloc: Global, text: &mut String, process: &ProcessTold) -> Result<(), AllocError>
    ensures { Leaves (string_bytes text.new) (tight_behind (string_bytes text.old) process.now) result }
{
    let is_tight = flag(process.is_tight);
    count_text(alloc, text, &MEMORY_TIGHT, is_tight)
}

// Its memory.
#[tactic(auto, unfolding(crate::specs::Metrics::memory_behind))]
fn memory_text(alloc: Global, text: &mut String, process: &ProcessTold) -> Result<(), AllocError>
    ensures { Leaves (string_bytes text.new) (memory_behind (string_bytes text.old) process.now) result }
{
    count_text(alloc, text, &MEMORY, process.memory)?;
    count_text(alloc, text, &MEMORY_MAX, process.memory_max)?;
    tight_text(alloc, text, process)
}

// Its files.
#[tactic(auto, unfolding(crate::specs::Metrics::files_behind))]
fn files_text(alloc: Global, text: &mut String, process: &ProcessTold) -> Result<(), AllocError>
    ensures { Leaves (string_bytes text.new) (files_behind (string_bytes text.old) process.now) result }
{
    count_text(alloc, text, &FILES, process.files)?;
    count_text(alloc, text, &FILES_MAX, process.files_max)
}

// What the program is, and what it has of the machine.
#[tactic(auto, unfolding(crate::specs::Metrics::process_behind))]
fn process_text(alloc: Global, text: &mut String, process: &ProcessTold) -> Result<(), AllocError>
    ensures { Leaves (string_bytes text.new) (process_behind (string_bytes text.old) process.now) result }
{
    program_text(alloc, text, process)?;
    memory_text(alloc, text, process)?;
    files_text(alloc, text, process)
}

/// All of it in Prometheus's text form: its version 0.0.4.
pub fn metrics_text(
    alloc: Global,
    told: &ServerTold,
    shards: &ShardsTold,
    links: &LinksTold,
    process: &ProcessTold,
) -> Result<String, AllocError>
    ensures { IfOk result (λ s. string_bytes s ≡ metrics_lines told.now shards.now links.now process.now) }
{
    let mut text = String::new(alloc);
    server_text(alloc, &mut text, told)?;
    nodes_text(alloc, &mut text, shards, links)?;
    process_text(alloc, &mut text, process)?;
    Ok(text)
}
