// The states of topics that were asked for, so that a topic that stays is listed once and written once.
ghost use Rattle.std.specs.Prelude.{◌≡◌, IfOk, IfSome, Some};
ghost use Rattle.tracker_shown.specs.States.{state_at, IsNoState, IsSameStates, LosesSome, Forgets, ForgetsAll, KeepsToo};

use presence_base::{Dot, Row, Topic};
use presence_journal::{ListedDots, SharedRows};
use std::alloc::{AllocError, Global};
use std::collections::BTreeMap;

/// How many topics' states are kept at once.
const MAX_TOPICS: usize = 1_024;

/// A state of fewer rows than this is not kept.
const MIN_KEPT: usize = 2;

/// How many dots of the last lists of topics are kept at once, but that one list may have more.
const MAX_LAST: usize = 131_072;

/// The dots of a list of fewer rows than this are not kept.
const MIN_LAST: usize = 65;

// The dots of a topic's last list, and how many they are.
#[derive(Drop)]
struct LastList {
    dots: ListedDots,
    len: usize,
}

/// The states of topics that were asked for, each with its text from its second ask on. The dots of each topic's last list
/// are kept when its rows change, so that the next list shares what stayed.
pub(crate) struct States {
    kept: BTreeMap<Topic, SharedRows>,
    last: BTreeMap<Topic, LastList>,
    // How many dots these are.
    last_dots: usize,
    // What the lists took for dots that they share with no list before them, in bytes.
    list_bytes: u64,
}

impl Drop for States {
    fn drop(self) {
        let States {
            kept,
            last,
            last_dots: _,
            list_bytes: _,
        } = self;
        drop(kept);
        drop(last);
    }
}

// Writes the text of a state that has none yet, as far as memory reaches.
fn write_text(alloc: Global, state: &mut SharedRows)
    ensures { state.new ≡ state.old }
{
    if state.text().is_some() {
        return;
    }
    if let Ok(written) = state.with_text(alloc) {
        *state = written;
    }
}

impl States {
    pub(crate) fn new(alloc: Global) -> States
        ensures { IsNoState result.kept }
    {
        States {
            kept: BTreeMap::new(alloc),
            last: BTreeMap::new(alloc),
            last_dots: 0,
            list_bytes: 0,
        }
    }

    /// Forgets the state of a topic.
    pub(crate) fn forget(&mut self, topic: &Topic)
        ensures { Forgets topic.now self.old.kept self.new.kept }
    {
        self.kept.remove(topic);
    }

    /// Forgets the state of the topic of each row.
    pub(crate) fn forget_all(&mut self, rows: &[(Dot, Row)])
        ensures { ForgetsAll rows.now self.old.kept self.new.kept }
    {
        for row in rows {
            self.forget(&row.1.topic);
        }
    }

    /// The state of a topic, where it is kept. A further ask writes its text.
    pub(crate) fn state(
        &mut self,
        alloc: Global,
        topic: &Topic,
    ) -> Result<Option<SharedRows>, AllocError>
        ensures state { IfOk result (λ o. IfSome o (λ s. state_at self.old.kept topic.now ≡ Some s)) }
        ensures same { IsSameStates self.old.kept self.new.kept }
    {
        match self.kept.get_mut(topic) {
            Some(state) => {
                write_text(alloc, state);
                Ok(Some(state.share()?))
            }
            None => Ok(None),
        }
    }

    /// What the lists took for dots that they share with no list before them, in bytes, and what was counted beside. No
    /// contract speaks of it.
    pub(crate) fn list_bytes(&self) -> u64 {
        self.list_bytes
    }

    /// Counts what a list took.
    pub(crate) fn count(&mut self, bytes: u64)
        ensures { self.new.kept ≡ self.old.kept }
    {
        self.list_bytes = self.list_bytes.saturating_add(bytes);
    }

    // Lets go the dots of a topic's last list, and those of all where there would be too many.
    fn make_room_for(&mut self, topic: &Topic, len: usize)
        ensures { self.new.kept ≡ self.old.kept }
    {
        if let Some(last) = self.last.remove(topic) {
            self.last_dots = self.last_dots.saturating_sub(last.len);
        }
        if self.last.len() >= MAX_TOPICS || self.last_dots.saturating_add(len) > MAX_LAST {
            self.last.clear();
            self.last_dots = 0;
        }
    }

    // Keeps the dots of a topic's last list.
    fn keep_last(&mut self, topic: &Topic, state: &SharedRows) -> Result<(), AllocError>
        ensures { self.new.kept ≡ self.old.kept }
    {
        let len = state.as_slice().len();
        if len < MIN_LAST {
            return Ok(());
        }
        self.make_room_for(topic, len);
        let dots = state.dots()?;
        let topic = topic.clone()?;
        self.last.insert(topic, LastList { dots, len })?;
        self.last_dots = self.last_dots.saturating_add(len);
        Ok(())
    }

    // The dots of a topic's last list.
    fn last_dots_of(&self, topic: &Topic) -> Option<&ListedDots> {
        let last = self.last.get(topic)?;
        Some(&last.dots)
    }

    /// The state of a topic's rows, which shares the dots that stayed since its last list. What it took is counted.
    pub(crate) fn list(
        &mut self,
        alloc: Global,
        topic: &Topic,
        rows: Vec<(Dot, Row)>,
    ) -> Result<SharedRows, AllocError>
        ensures state { IfOk result (λ s. s ≡ rows.items) }
        ensures same { self.new.kept ≡ self.old.kept }
    {
        let state = SharedRows::after(alloc, rows, self.last_dots_of(topic))?;
        self.count(state.new_bytes());
        // Where memory is wanting they aren't kept, and the next list shares nothing.
        let _kept = self.keep_last(topic, &state);
        Ok(state)
    }

    // Forgets all of them where there are as many as are kept.
    fn make_room(&mut self)
        ensures { LosesSome self.old.kept self.new.kept }
    {
        if self.kept.len() >= MAX_TOPICS {
            self.kept.clear();
        }
    }

    /// Keeps the state of a topic, where it has some rows.
    pub(crate) fn keep(&mut self, topic: &Topic, state: &SharedRows) -> Result<(), AllocError>
        ensures { KeepsToo topic.now state.now self.old.kept self.new.kept }
    {
        if state.as_slice().len() < MIN_KEPT {
            return Ok(());
        }
        self.make_room();
        let topic = topic.clone()?;
        let state = state.share()?;
        self.kept.insert(topic, state)?;
        Ok(())
    }
}
