//! What is kept of a journal, and how it comes up to an entry.
ghost use Rattle.std.specs.Prelude.{◌≡◌, false, IfOk, OnOk, OnErr};
ghost use Rattle.tracker_feeds.specs.Fed.{SameFed};
ghost use Rattle.tracker_feeds.specs.Laws.{is_of_subscriber};
ghost use Rattle.tracker_index.specs.Parts.{CanFeed, FeedsFollow, IsUntoldAgain, changes_rows};
ghost use Rattle.tracker_known.specs.Known.{IsOfOne};

use presence_base::Replica;
use presence_journal::{Entry, Outcome, Step, own_after};
use presence_journal_cuts::Untold;
use std::alloc::{AllocError, Global};
use tracker_feeds::{Feeds, items_of};
use tracker_known::Known;
use tracker_shown::{Shown, Turn};

/// How far what is kept has come up to the last entry.
#[derive(Clone, Copy)]
pub(crate) enum Stage {
    /// All of it has.
    Done,
    /// Each place that is shown is as before or as after the entry, and all else as before it.
    Begun,
    /// What is shown and what waits has.
    Delivered,
    /// All but what is untold has.
    Learned,
}

/// What is kept of a journal.
#[derive(Drop)]
pub(crate) struct Parts {
    pub known: Known,
    pub shown: Shown,
    pub feeds: Feeds,
    pub untold: Untold,
    pub stage: Stage,
}

// Delivers what an entry makes, where it is of no subscriber alone.
fn deliver_items(
    alloc: Global,
    feeds: &mut Feeds,
    entry: &Entry,
    turn: &Turn,
) -> Result<(), AllocError>
    requires follows { CanFeed feeds.old entry.now }
    requires other { is_of_subscriber entry.now.step ≡ false }
    ensures ok { OnOk result (FeedsFollow entry.now turn.now feeds.old feeds.new) }
    ensures err { OnErr result (SameFed feeds.old feeds.new) }
{
    let mut made = items_of(alloc, feeds, &entry.step, turn)?;
    feeds.deliver(&mut made)
}

// Brings what waits up to an entry.
fn feed(alloc: Global, feeds: &mut Feeds, entry: &Entry, turn: &Turn) -> Result<(), AllocError>
    requires { CanFeed feeds.old entry.now }
    ensures ok { OnOk result (FeedsFollow entry.now turn.now feeds.old feeds.new) }
    ensures err { OnErr result (SameFed feeds.old feeds.new) }
{
    match &entry.step {
        Step::Subscribe { topic } => feeds.subscribe(alloc, entry.number, topic),
        Step::Take { subscriber, max } => {
            feeds.took(*subscriber, max.get());
            Ok(())
        }
        Step::Unsubscribe { subscriber } => {
            feeds.unsubscribe(*subscriber);
            Ok(())
        }
        _ => deliver_items(alloc, feeds, entry, turn),
    }
}

// Whether the step may change more than what waits.
fn changes_rows(step: &Step) -> bool
    ensures { result ≡ changes_rows step.now }
{
    !matches!(
        step,
        Step::List { .. }
            | Step::Get { .. }
            | Step::Subscribe { .. }
            | Step::Take { .. }
            | Step::Unsubscribe { .. }
            | Step::Shout { .. }
    )
}

// What is untold after a rebirth: all own rows.
fn untold_again(alloc: Global, known: &Known) -> Result<Untold, AllocError>
    requires { IsOfOne known.now }
    ensures { IfOk result (IsUntoldAgain known.now) }
{
    let own = known.own();
    Untold::reborn(alloc, own, known.count(), known.rows_of(&own))
}

impl Parts {
    ghost use Rattle.std.specs.Prelude.{◌≡◌, true, false, OnOk};
    ghost use Rattle.presence_journal.specs.History.{begun};
    ghost use Rattle.presence_journal.specs.Walk.{is_reborn};
    ghost use Rattle.tracker_index.specs.Parts.{IsAt, CanGoOn, GoesOn, changes_rows};
    ghost use Rattle.tracker_index.specs.declared.parts.Stage.TheVariants.{Done, Begun, Delivered, Learned};

    /// What is kept of an empty journal.
    pub(crate) fn new(alloc: Global, own: &Replica) -> Parts
        ensures kept { IsAt result.stage (begun own.now) result }
        ensures stage { result.stage ≡ Done }
    {
        let known = Known::new(alloc, *own);
        let shown = Shown::new(alloc, *own);
        let feeds = Feeds::new(alloc);
        let untold = Untold::new(alloc, *own);
        Parts {
            known,
            shown,
            feeds,
            untold,
            stage: Stage::Done,
        }
    }

    // Brings what is shown and what waits up to the last entry.
    fn deliver(&mut self, alloc: Global, entry: &Entry) -> Result<(), AllocError>
        requires follows { CanGoOn self.old entry.now }
        requires stage { self.old.stage ≡ Begun }
        ensures kept { GoesOn entry.now self.old self.new }
        ensures stage { OnOk result (self.new.stage ≡ Delivered) }
    {
        let turn = self.known.turn_of(alloc, entry)?;
        let own = own_after(&entry.step, self.known.own());
        self.shown.bring_up(&turn, &own)?;
        feed(alloc, &mut self.feeds, entry, &turn)?;
        self.shown.go_on_as(own);
        self.stage = Stage::Delivered;
        Ok(())
    }

    // Brings what is known up to the last entry, behind what is shown and what waits.
    fn learn(&mut self, alloc: Global, entry: &Entry) -> Result<(), AllocError>
        requires follows { CanGoOn self.old entry.now }
        requires stage { self.old.stage ≡ Delivered }
        ensures kept { GoesOn entry.now self.old self.new }
        ensures stage { OnOk result (self.new.stage ≡ Learned) }
    {
        self.known.apply(alloc, entry)?;
        self.stage = Stage::Learned;
        Ok(())
    }

    // Makes what is untold anew behind a rebirth.
    fn finish_again(&mut self, alloc: Global, entry: &Entry) -> Result<(), AllocError>
        requires follows { CanGoOn self.old entry.now }
        requires stage { self.old.stage ≡ Learned }
        requires again { is_reborn entry.now.outcome ≡ true }
        ensures kept { GoesOn entry.now self.old self.new }
        ensures stage { OnOk result (self.new.stage ≡ Done) }
    {
        self.untold = untold_again(alloc, &self.known)?;
        self.stage = Stage::Done;
        Ok(())
    }

    // Brings what is untold up to the last entry, where that is no rebirth.
    fn finish_plain(&mut self, alloc: Global, entry: &Entry) -> Result<(), AllocError>
        requires follows { CanGoOn self.old entry.now }
        requires stage { self.old.stage ≡ Learned }
        requires plain { is_reborn entry.now.outcome ≡ false }
        ensures kept { GoesOn entry.now self.old self.new }
        ensures stage { OnOk result (self.new.stage ≡ Done) }
    {
        self.untold.apply(alloc, entry, self.known.set())?;
        self.stage = Stage::Done;
        Ok(())
    }

    // Brings what is untold up to the last entry, behind all else.
    fn finish(&mut self, alloc: Global, entry: &Entry) -> Result<(), AllocError>
        requires follows { CanGoOn self.old entry.now }
        requires stage { self.old.stage ≡ Learned }
        ensures kept { GoesOn entry.now self.old self.new }
        ensures stage { OnOk result (self.new.stage ≡ Done) }
    {
        match &entry.outcome {
            Outcome::Reborn(_) => self.finish_again(alloc, entry),
            _ => self.finish_plain(alloc, entry),
        }
    }

    // Brings what waits up to the last entry, where that is of a step that changes no more: all else is as it was.
    fn pass(&mut self, alloc: Global, entry: &Entry) -> Result<(), AllocError>
        requires follows { CanGoOn self.old entry.now }
        requires stage { self.old.stage ≡ Begun }
        requires rows { changes_rows entry.now.step ≡ false }
        ensures kept { GoesOn entry.now self.old self.new }
        ensures stage { OnOk result (self.new.stage ≡ Done) }
    {
        let turn = Turn {
            joins: Vec::new(alloc),
            leaves: Vec::new(alloc),
        };
        feed(alloc, &mut self.feeds, entry, &turn)?;
        self.stage = Stage::Done;
        Ok(())
    }

    // Brings all up to the last entry, where nothing of it was.
    fn bring_up(&mut self, alloc: Global, entry: &Entry) -> Result<(), AllocError>
        requires follows { CanGoOn self.old entry.now }
        requires stage { self.old.stage ≡ Begun }
        ensures kept { GoesOn entry.now self.old self.new }
        ensures stage { OnOk result (self.new.stage ≡ Done) }
    {
        if !changes_rows(&entry.step) {
            return self.pass(alloc, entry);
        }
        self.deliver(alloc, entry)?;
        self.learn(alloc, entry)?;
        self.finish(alloc, entry)
    }

    /// Brings all up to the last entry. After a refusal the same call goes on from there.
    pub(crate) fn go_on(&mut self, alloc: Global, entry: &Entry) -> Result<(), AllocError>
        requires { CanGoOn self.old entry.now }
        ensures kept { GoesOn entry.now self.old self.new }
        ensures stage { OnOk result (self.new.stage ≡ Done) }
    {
        match self.stage {
            Stage::Done => Ok(()),
            Stage::Learned => self.finish(alloc, entry),
            Stage::Delivered => {
                self.learn(alloc, entry)?;
                self.finish(alloc, entry)
            }
            Stage::Begun => self.bring_up(alloc, entry),
        }
    }
}
