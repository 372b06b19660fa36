//! A journal's Start, and what is kept of one.
ghost use Rattle.std.specs.Prelude.{◌≡◌, ◌<◌, ◌^◌, true, false, [], IfOk};
ghost use Rattle.presence_journal.specs.History.{Begin, last_number};
ghost use Rattle.presence_journal.specs.Table.{IsStart, IsLegal};
ghost use Rattle.tracker_index.specs.Parts.{IsKeptOf, IsAt};
ghost use Rattle.tracker_feeds.specs.Listed.{AreListed, AreCurrent};
ghost use Rattle.tracker_index.specs.Starting.{seats, seats_in, CountsWhere, IsStartOf};
ghost use Rattle.tracker_index.specs.declared.parts.Stage.TheVariants.{Done};

use crate::parts::{Parts, Stage};
use presence_journal::{Entry, Journal, Start};
use presence_journal_cuts::Untold;
use presence_journal_lists::{Numbers, Subscribers};
use std::alloc::{AllocError, Global};
use tracker_feeds::Feeds;
use tracker_known::Known;
use tracker_shown::Shown;

// How many of the entries were made through seats.
fn count_seats(entries: &[Entry]) -> u64
    ensures { result ≡ seats_in entries.now }
{
    let mut count = 0;
    for entry in entries {
        if entry.seat.is_some() {
            count += 1;
        }
    }
    count
}

// How many entries were made through seats, those that came before the Start among them.
fn seats_of(journal: &Journal) -> u64
    ensures { result ≡ seats journal.now }
{
    let entries = journal.entries();
    let total = journal.start().seated + count_seats(entries);
    total
}

// The subscribers that a Start counts as current: those for which nothing waits, or none.
fn current_of(
    alloc: Global,
    feeds: &Feeds,
    subscribers: &Subscribers,
    stay: bool,
) -> Result<Numbers, AllocError>
    requires { AreListed feeds.now subscribers.now }
    ensures stay { IfOk result (λ ns. stay ≡ true → AreCurrent feeds.now ns) }
    ensures none { IfOk result (λ ns. stay ≡ false → ns ≡ []) }
{
    if stay {
        feeds.current(alloc, subscribers.as_slice())
    } else {
        Ok(Numbers::new(Vec::new(alloc)))
    }
}

/// The Start that stands for a journal, of which this is kept. The subscribers for which nothing waits stay current, or each
/// of them is behind. It costs what is kept, and a walk over the entries.
pub(crate) fn start_of(
    alloc: Global,
    journal: &Journal,
    parts: &Parts,
    stay: bool,
) -> Result<Start, AllocError>
    requires kept { IsKeptOf journal.now parts.now }
    requires legal { IsLegal journal.now }
    requires room { last_number journal.now < 2 ^ 62 }
    ensures stands { IfOk result (IsStartOf journal.now) }
    ensures current { IfOk result (CountsWhere stay journal.now) }
{
    let content = parts.known.content(alloc)?;
    let standings = parts.known.standings()?;
    let older = parts.untold.older(alloc)?;
    let chains = parts.untold.chains(alloc)?;
    let kept = parts.untold.kept()?;
    let subscribers = parts.feeds.subscribers(alloc)?;
    let current = current_of(alloc, &parts.feeds, &subscribers, stay)?;
    Ok(Start {
        number: journal.last_number() + 1,
        own: journal.own(),
        count: parts.known.count(),
        content,
        standings,
        time: parts.known.time(),
        last_cut: parts.untold.last_cut(),
        older,
        chains,
        kept,
        subscribers,
        current,
        seated: seats_of(journal),
    })
}

/// What is kept of a journal that begins with a Start. It costs the logarithm of the Start's rows for each, and for one
/// of another replica the replicas that are listed.
pub(crate) fn kept_of(alloc: Global, start: &Start) -> Result<Parts, AllocError>
    requires { IsStart start.now }
    ensures kept { IfOk result (λ p. IsAt p.stage (Begin start.now) p) }
    ensures stage { IfOk result (λ p. p.stage ≡ Done) }
{
    let known = Known::of_start(alloc, start)?;
    let shown = Shown::of_start(alloc, start)?;
    let feeds = Feeds::start(
        alloc,
        start.subscribers.as_slice(),
        start.current.as_slice(),
    )?;
    let untold = Untold::of_start(alloc, start)?;
    Ok(Parts {
        known,
        shown,
        feeds,
        untold,
        stage: Stage::Done,
    })
}
