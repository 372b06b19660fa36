//! The journal and `append`.
ghost use Rattle.std.specs.Prelude.{◌≡◌};
ghost use Rattle.presence_journal.specs.History.{Begin, onto, own, own_after};

use crate::entries::Entries;
use crate::entry::{Entry, Outcome, Start};
use crate::step::Step;
use delta_range::Generations;
use orswot_core::Told;
use presence_base::{MAX_COUNT, Replica};
use presence_journal_lists::{Chains, Numbers, Runs, Standings, Subscribers};
use std::alloc::{AllocError, Global};
use std::marker::Model;

/// How many entries a journal may have, the Start among them.
pub const MAX_ENTRIES: usize = 262_144;

/// What was asked of a shard, in order, each with the outcome of the sequential presence table.
pub struct Journal {
    start: Start,
    entries: Entries,
}

impl Drop for Journal {
    fn drop(self) {
        let Journal { start, entries } = self;
        drop(start);
        drop(entries);
    }
}

impl Model for Journal {
    ghost use Rattle.presence_journal.specs.History.{History};
    ghost use Rattle.presence_journal.specs.Codes.{history_code};

    ghost Value = { History };

    ghost coded = { history_code };

    ghost use Rattle.presence_journal.specs.History.{Begin, onto};
    ghost use Rattle.presence_journal.specs.Table.{IsKept};

    ghost view = { λ j. onto (Begin j.start) j.entries };

    ghost invariant = { λ j. IsKept (onto (Begin j.start) j.entries) };
}

impl Clone for Journal {
    ghost use Rattle.std.specs.Prelude.{◌≡◌};

    ghost is_clone = { λ j k. k ≡ j };

    fn clone(&self) -> Result<Journal, AllocError> {
        let start = self.start.clone()?;
        let entries = self.entries.clone()?;
        Ok(Journal { start, entries })
    }
}

impl Journal {
    ghost use Rattle.std.specs.Prelude.{◌≡◌, ◌≤◌, ◌^◌, ◌+◌, ◌-◌, min, length, true, false, Some, OnOk, OnErr};
    ghost use Rattle.presence_base.specs.Refs.{IsCount};
    ghost use Rattle.presence_journal.specs.History.{Begin, begun, onto, start_of, own, last_number, entry_count, is_full};
    ghost use Rattle.presence_journal.specs.KeptBytes.{kept_bytes};
    ghost use Rattle.presence_journal.specs.StepLimits.{is_within_limits};
    ghost use Rattle.presence_journal.specs.Table.{IsStart, IsLegal, AreWithinLimits, outcome_of, after};

    /// The journal of a new shard: an empty Start with number 0.
    pub fn new(alloc: Global, own: Replica) -> Journal
        requires { IsCount own.incarnation }
        ensures { result ≡ begun own }
    {
        let _name = own.name.as_str();
        Journal {
            start: Start {
                number: 0,
                own,
                count: 0,
                content: Told::new(Vec::new(alloc), Vec::new(alloc), Vec::new(alloc)),
                standings: Standings::new(alloc),
                time: 0,
                last_cut: 0,
                older: Runs::new(Vec::new(alloc)),
                chains: Chains::new(Vec::new(alloc)),
                kept: Generations::new(),
                subscribers: Subscribers::new(Vec::new(alloc)),
                current: Numbers::new(Vec::new(alloc)),
                seated: 0,
            },
            entries: Entries::new(alloc),
        }
    }

    /// The journal that begins with a Start, without an entry after it.
    pub fn of_start(alloc: Global, start: Start) -> Journal
        requires { IsStart start }
        ensures { result ≡ Begin start }
    {
        Journal {
            start,
            entries: Entries::new(alloc),
        }
    }

    /// The first entry.
    pub fn start(&self) -> &Start
        ensures { result.now ≡ start_of self.now }
    {
        &self.start
    }

    /// The entries after the Start, the oldest first.
    pub fn entries(&self) -> &[Entry]
        ensures history { onto (Begin (start_of self.now)) result.now ≡ self.now }
        ensures legal { IsLegal self.now }
        ensures limits { AreWithinLimits self.now }
        ensures count { length result.now + 1 ≡ entry_count self.now }
    {
        self.entries.as_slice()
    }

    /// The bytes that the entries keep beside themselves, or the most that a count of 64 bits tells: metas, what was shouted,
    /// what was told, and dots, but those of lists. Those of the Start are not counted.
    pub fn kept_bytes(&self) -> u64
        ensures { result ≡ min (kept_bytes self.now) (2 ^ 64 - 1) }
    {
        self.entries.kept_bytes()
    }

    /// Takes the room of all entries that the journal may have at once: none is refused for want of it then, and none is moved
    /// when others come. What no entry was in yet costs no memory but addresses.
    pub fn reserve(&mut self) -> Result<(), AllocError>
        ensures { self.new ≡ self.old }
    {
        let more = MAX_ENTRIES.saturating_sub(self.entries.len());
        self.entries.reserve(more)
    }

    /// The replica that counts here.
    pub fn own(&self) -> Replica
        ensures { result ≡ own self.now }
    {
        own_of(&self.start, self.entries.as_slice())
    }

    /// The number of the newest entry.
    pub fn last_number(&self) -> u64
        ensures number { result ≡ last_number self.now }
        ensures limit { result ≤ 2 ^ 62 }
    {
        match self.entries.as_slice().last() {
            Some(entry) => entry.number,
            None => self.start.number,
        }
    }

    /// Whether no entry can follow: the journal has its most entries, or its last number is the highest.
    pub fn is_full(&self) -> bool
        ensures { result ≡ is_full self.now }
    {
        self.entries.len() >= MAX_ENTRIES - 1 || self.last_number() >= MAX_COUNT
    }

    /// Adds the entry of a step with its outcome.
    pub fn append(
        &mut self,
        seat: Option<u32>,
        step: Step,
        outcome: Outcome,
    ) -> Result<(), AllocError>
        requires legal { outcome_of self.old step ≡ Some outcome }
        requires room { is_full self.old ≡ false }
        requires step { is_within_limits step ≡ true }
        ensures ok { OnOk result (self.new ≡ after self.old step seat) }
        ensures err { OnErr result (self.new ≡ self.old) }
    {
        let number = self.last_number() + 1;
        let entry = Entry {
            number,
            seat,
            step,
            outcome,
        };
        self.entries.push(entry)
    }
}

/// The own replica after a step.
pub fn own_after(step: &Step, own: Replica) -> Replica
    ensures { result ≡ own_after step.now own }
{
    match step {
        Step::Rebirth { incarnation } => Replica {
            name: own.name,
            incarnation: *incarnation,
        },
        _ => own,
    }
}

/// The own replica after these entries.
pub fn own_of(start: &Start, entries: &[Entry]) -> Replica
    ensures { result ≡ own (onto (Begin start.now) entries.now) }
{
    let mut own = start.own;
    for entry in entries {
        own = own_after(&entry.step, own);
    }
    own
}
