//! The state that a subscriber is being told.
use crate::piece::{MAX_STATE_BYTES, next_piece, text_within};
use presence_base::Topic;
use presence_journal::{Item, SharedRows};
use std::alloc::{AllocError, Global};

// A state of which the first rows were told.
#[derive(Drop)]
struct UntoldState {
    // The topic and the number of its subscriber.
    topic: Topic,
    number: u64,
    rows: SharedRows,
    // How many rows were told.
    told: usize,
}

impl UntoldState {
    ghost use Rattle.std.specs.Prelude.{◌≡◌, IfOk};
    ghost use Rattle.channel_pieces.specs.Pieces.{is_to, ComesNext};

    // Whether it is told to the subscriber of this topic and number.
    fn is_to(&self, topic: &Topic, number: u64) -> bool
        ensures { result ≡ is_to topic.now number self.now }
    {
        self.topic.as_str() == topic.as_str() && self.number == number
    }

    // What comes next, and how many rows are told then.
    fn next(&self, alloc: Global) -> Result<(Item, usize), AllocError>
        ensures { IfOk result (λ p. ComesNext self.now.rows self.now.told p.1 p.0) }
    {
        if self.told > 0 {
            return next_piece(alloc, self.rows.as_slice(), self.told);
        }
        match text_within(alloc, &self.rows, MAX_STATE_BYTES)? {
            Some(state) => Ok((Item::State(state), self.rows.as_slice().len())),
            None => next_piece(alloc, self.rows.as_slice(), 0),
        }
    }
}

/// What a client is yet to be told of a state: of one at a time.
#[derive(Drop)]
pub struct Telling {
    untold: Option<UntoldState>,
}

impl Telling {
    ghost use Rattle.std.specs.Prelude.{◌≡◌, None, Some, IfOk, IfErr, is_some};
    ghost use Rattle.channel_pieces.specs.Pieces.{begun, is_told_to, left_behind, without, Tells};

    /// Nothing is untold.
    pub fn new() -> Telling
        ensures { result.untold ≡ None }
    {
        Telling { untold: None }
    }

    /// Whether a state is being told.
    pub fn is_under_way(&self) -> bool
        ensures { result ≡ is_some self.now.untold }
    {
        self.untold.is_some()
    }

    /// Whether one is being told to the subscriber of this topic and number.
    pub fn is_to(&self, topic: &Topic, number: u64) -> bool
        ensures { result ≡ is_told_to topic.now number self.now.untold }
    {
        match &self.untold {
            Some(state) => state.is_to(topic, number),
            None => false,
        }
    }

    /// This state is to be told to the subscriber of this topic and number, in place of what else was to be told.
    pub fn begin(&mut self, topic: Topic, number: u64, rows: SharedRows)
        ensures { self.new.untold ≡ Some (begun topic number rows) }
    {
        self.untold = Some(UntoldState {
            topic,
            number,
            rows,
            told: 0,
        });
    }

    /// The subscriber of this topic and number is told nothing more.
    pub fn forget(&mut self, topic: &Topic, number: u64)
        ensures { self.new.untold ≡ without topic.now number self.old.untold }
    {
        if self.is_to(topic, number) {
            self.untold = None;
        }
    }

    // So many rows of the state are told.
    fn told(&mut self, next: usize)
        ensures { self.new.untold ≡ left_behind self.old.untold next }
    {
        if let Some(state) = &mut self.untold {
            if next < state.rows.as_slice().len() {
                state.told = next;
                return;
            }
        }
        self.untold = None;
    }

    /// What comes next of the state, if one is being told. Where memory is wanting all stays as it was.
    pub fn next(&mut self, alloc: Global) -> Result<Vec<Item>, AllocError>
        ensures told { IfOk result (λ v. Tells self.old.untold v.items self.new.untold) }
        ensures kept { IfErr result (λ e. self.new ≡ self.old) }
    {
        let mut items = Vec::with_capacity(alloc, 1)?;
        let Some(state) = &self.untold else {
            return Ok(items);
        };
        let (item, next) = state.next(alloc)?;
        items.push(item)?;
        self.told(next);
        Ok(items)
    }
}
