//! How often what happened, as the threads of the server count it.
use crate::count::Count;
use crate::ended::Ended;
use crate::told::{AnswersTold, EndsTold};
use serve_handshakes::Answer;
use serve_ports::Tally;

/// How many requests got each answer.
#[derive(Drop)]
pub(crate) struct Answers {
    sockets: Count,
    pages: Count,
    scripts: Count,
    health: Count,
    metrics: Count,
    bad_requests: Count,
    forbidden: Count,
    not_found: Count,
    not_allowed: Count,
    options: Count,
    no_host: Count,
    long_head: Count,
    long_body: Count,
    elsewhere: Count,
    unwell: Count,
    full: Count,
    crowded: Count,
    hasty: Count,
    unauthorized: Count,
}

impl Answers {
    pub fn new() -> Answers {
        Answers {
            sockets: Count::new(),
            pages: Count::new(),
            scripts: Count::new(),
            health: Count::new(),
            metrics: Count::new(),
            bad_requests: Count::new(),
            forbidden: Count::new(),
            not_found: Count::new(),
            not_allowed: Count::new(),
            options: Count::new(),
            no_host: Count::new(),
            long_head: Count::new(),
            long_body: Count::new(),
            elsewhere: Count::new(),
            unwell: Count::new(),
            full: Count::new(),
            crowded: Count::new(),
            hasty: Count::new(),
            unauthorized: Count::new(),
        }
    }

    /// Where this answer is counted.
    pub fn of(&self, answer: Answer) -> &Count {
        match answer {
            Answer::Socket(_) => &self.sockets,
            Answer::Page => &self.pages,
            Answer::Script => &self.scripts,
            Answer::Health => &self.health,
            Answer::Metrics => &self.metrics,
            Answer::BadRequest => &self.bad_requests,
            Answer::Forbidden => &self.forbidden,
            Answer::NotFound => &self.not_found,
            Answer::NotAllowed => &self.not_allowed,
            Answer::Options => &self.options,
            Answer::NoHost => &self.no_host,
            Answer::LongHead => &self.long_head,
            Answer::LongBody => &self.long_body,
            Answer::Elsewhere => &self.elsewhere,
            Answer::Unwell | Answer::Draining => &self.unwell,
            Answer::Full => &self.full,
            Answer::Crowded => &self.crowded,
            Answer::Hasty => &self.hasty,
            Answer::Unauthorized(_) => &self.unauthorized,
        }
    }

    pub fn told(&self) -> AnswersTold {
        AnswersTold {
            sockets: self.sockets.get(),
            pages: self.pages.get(),
            scripts: self.scripts.get(),
            health: self.health.get(),
            metrics: self.metrics.get(),
            bad_requests: self.bad_requests.get(),
            forbidden: self.forbidden.get(),
            not_found: self.not_found.get(),
            not_allowed: self.not_allowed.get(),
            options: self.options.get(),
            no_host: self.no_host.get(),
            long_head: self.long_head.get(),
            long_body: self.long_body.get(),
            elsewhere: self.elsewhere.get(),
            unwell: self.unwell.get(),
            full: self.full.get(),
            crowded: self.crowded.get(),
            hasty: self.hasty.get(),
            unauthorized: self.unauthorized.get(),
        }
    }
}

/// How many sessions ended by each close code, and without one.
#[derive(Drop)]
pub(crate) struct Ends {
    normal: Count,
    away: Count,
    unsupported: Count,
    policy: Count,
    size: Count,
    error: Count,
    unauthorized: Count,
    client: Count,
    stream: Count,
}

impl Ends {
    pub fn new() -> Ends {
        Ends {
            normal: Count::new(),
            away: Count::new(),
            unsupported: Count::new(),
            policy: Count::new(),
            size: Count::new(),
            error: Count::new(),
            unauthorized: Count::new(),
            client: Count::new(),
            stream: Count::new(),
        }
    }

    /// Where an end is counted.
    pub fn of(&self, end: Ended) -> &Count {
        match end {
            Ended::Normal => &self.normal,
            Ended::Away => &self.away,
            Ended::Unsupported => &self.unsupported,
            Ended::Policy => &self.policy,
            Ended::Size => &self.size,
            Ended::Error => &self.error,
            Ended::Unauthorized => &self.unauthorized,
            Ended::Client => &self.client,
            Ended::Stream => &self.stream,
        }
    }

    pub fn told(&self) -> EndsTold {
        EndsTold {
            normal: self.normal.get(),
            away: self.away.get(),
            unsupported: self.unsupported.get(),
            policy: self.policy.get(),
            size: self.size.get(),
            error: self.error.get(),
            unauthorized: self.unauthorized.get(),
            client: self.client.get(),
            stream: self.stream.get(),
        }
    }
}

/// How many calls sessions made, and what they were delivered.
#[derive(Drop)]
pub(crate) struct Calls {
    joins: Count,
    leaves: Count,
    tracks: Count,
    updates: Count,
    untracks: Count,
    lists: Count,
    gets: Count,
    shouts: Count,
    refused: Count,
    already_tracked: Count,
    no_presence: Count,
    full: Count,
    journal_full: Count,
    no_memory: Count,
    others: Count,
    states: Count,
    diffs: Count,
    shouts_told: Count,
}

impl Calls {
    pub fn new() -> Calls {
        Calls {
            joins: Count::new(),
            leaves: Count::new(),
            tracks: Count::new(),
            updates: Count::new(),
            untracks: Count::new(),
            lists: Count::new(),
            gets: Count::new(),
            shouts: Count::new(),
            refused: Count::new(),
            already_tracked: Count::new(),
            no_presence: Count::new(),
            full: Count::new(),
            journal_full: Count::new(),
            no_memory: Count::new(),
            others: Count::new(),
            states: Count::new(),
            diffs: Count::new(),
            shouts_told: Count::new(),
        }
    }

    /// These calls were made too.
    pub fn add(&self, calls: &Tally) {
        self.joins.add(calls.joins);
        self.leaves.add(calls.leaves);
        self.tracks.add(calls.tracks);
        self.updates.add(calls.updates);
        self.untracks.add(calls.untracks);
        self.lists.add(calls.lists);
        self.gets.add(calls.gets);
        self.shouts.add(calls.shouts);
        self.refused.add(calls.refused);
        self.already_tracked.add(calls.already_tracked);
        self.no_presence.add(calls.no_presence);
        self.full.add(calls.full);
        self.journal_full.add(calls.journal_full);
        self.no_memory.add(calls.no_memory);
        self.others.add(calls.others);
        self.states.add(calls.states);
        self.diffs.add(calls.diffs);
        self.shouts_told.add(calls.shouts_told);
    }

    pub fn told(&self) -> Tally {
        Tally {
            joins: self.joins.get(),
            leaves: self.leaves.get(),
            tracks: self.tracks.get(),
            updates: self.updates.get(),
            untracks: self.untracks.get(),
            lists: self.lists.get(),
            gets: self.gets.get(),
            shouts: self.shouts.get(),
            refused: self.refused.get(),
            already_tracked: self.already_tracked.get(),
            no_presence: self.no_presence.get(),
            full: self.full.get(),
            journal_full: self.journal_full.get(),
            no_memory: self.no_memory.get(),
            others: self.others.get(),
            states: self.states.get(),
            diffs: self.diffs.get(),
            shouts_told: self.shouts_told.get(),
        }
    }
}
