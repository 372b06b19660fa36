//! The client's lists.
ghost use Rattle.std.specs.Prelude.{◌≡◌, [], IfOk, OnOk, OnErr, List, ℕ};
ghost use Rattle.serde_json.specs.View.{view};
ghost use Rattle.presence_metas.specs.Fold.{meta_at, folded, after_frame, fold_frame};
ghost use Rattle.presence_metas.specs.Listing.{applied};
ghost use Rattle.presence_metas.specs.Values.{listing_value};

use crate::frame::Frame;
use crate::presences::{Diff, Presences};
use serde_json::Value;
use std::alloc::{AllocError, Global};
use std::marker::Model;

/// A client's list of who is present on a topic, folded from the frames that it was sent.
#[derive(Debug)]
pub struct Mirror {
    presences: Presences,
}

impl Drop for Mirror {
    fn drop(self) {
        let Mirror { presences } = self;
        drop(presences);
    }
}

impl Model for Mirror {
    ghost use Rattle.std.specs.Prelude.{List, ℕ};
    ghost use Rattle.presence_metas.specs.declared.tracked.TrackedMeta.{TrackedMeta};
    ghost use Rattle.presence_metas.specs.Codes.{listing_code};

    ghost Value = { List (List ℕ × List TrackedMeta) };

    ghost coded = { listing_code };

    ghost view = { λ m. m.presences };
}

impl Mirror {
    /// The list before the first frame.
    pub fn new(alloc: Global) -> Mirror
        ensures { result ≡ [] }
    {
        Mirror {
            presences: Presences::new(alloc),
        }
    }

    /// Takes a state in the place of what was held.
    pub fn set_state(&mut self, state: Presences)
        ensures { self.new ≡ state }
    {
        self.presences = state;
    }

    /// Takes in a diff: of each key of its joins the metas whose references are not joined stay,
    /// and the joined ones follow; then of each key of its leaves the metas whose references are
    /// named go.
    ///
    /// It works on a copy, so that an `Err` leaves the list as it was: the cost is that of the
    /// whole list.
    pub fn apply(&mut self, alloc: Global, diff: &Diff) -> Result<(), AllocError>
        ensures ok { OnOk result (self.new ≡ applied self.old diff.now) }
        ensures as_map { OnOk result ((k r : List ℕ) → meta_at self.new k r
            ≡ folded (meta_at self.old) diff.now k r) }
        ensures err { OnErr result (self.new ≡ self.old) }
    {
        let next = self.presences.with_diff(alloc, diff)?;
        self.presences = next;
        Ok(())
    }

    /// Folds in what a frame tells.
    pub fn take_frame(&mut self, alloc: Global, frame: Frame) -> Result<(), AllocError>
        ensures ok { OnOk result (self.new ≡ after_frame self.old frame) }
        ensures as_map { OnOk result ((k r : List ℕ) → meta_at self.new k r
            ≡ fold_frame (meta_at self.old) frame k r) }
        ensures err { OnErr result (self.new ≡ self.old) }
    {
        match frame {
            Frame::State(state) => {
                self.set_state(state);
                Ok(())
            }
            Frame::Diff(diff) => self.apply(alloc, &diff),
        }
    }

    /// The object from each key to its list of metas.
    pub fn to_value(&self, alloc: Global) -> Result<Value, AllocError>
        ensures { IfOk result (λ v. view v ≡ listing_value self.now) }
    {
        self.presences.to_value(alloc)
    }
}
