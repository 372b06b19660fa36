//! The kept deltas.
ghost use Rattle.std.specs.Prelude.{◌≡◌, true, None, is_some, IfOk, IfErr, OnOk, OnErr, option_copied};
ghost use Rattle.delta_range.specs.Planning.{was, becomes};
ghost use Rattle.delta_range.specs.Keeping.{Kept, AreKept, is_nothing, alone, grown, pushed, IsNext, GoesOnFrom, IsDeltaIfSome, begun, from_count};

use crate::delta::Delta;
use crate::growth::{Growth, is_join_within, is_sum_within, removal_of};
use orswot_core::Form;
use presence_base::Replica;
use std::alloc::{AllocError, Global};
use std::marker::Model;
use std::mem;

/// The most rows and older runs that the shortest generation keeps.
pub const SHORT_CAP: usize = 100;

/// The most that the middle one keeps.
pub const MIDDLE_CAP: usize = 1_000;

/// The most that the longest one keeps.
pub const LONG_CAP: usize = 10_000;

/// The last deltas of one owner, joined in three generations, each of which keeps live rows and older runs together up to its
/// cap.
#[derive(Debug)]
pub struct Generations {
    last: Option<(Replica, u64)>,
    short: Option<Delta>,
    middle: Option<Delta>,
    long: Option<Delta>,
}

impl Drop for Generations {
    fn drop(self) {
        let Generations {
            last,
            short,
            middle,
            long,
        } = self;
        drop(last);
        drop(short);
        drop(middle);
        drop(long);
    }
}

impl Model for Generations {
    ghost use Rattle.delta_range.specs.Keeping.{Kept, AreKept};
    ghost use Rattle.delta_range.specs.Codes.{kept_code};

    ghost Value = { Kept };

    ghost coded = { kept_code };

    ghost view = { λ g. record { last = g.last; short = g.short; middle = g.middle; long = g.long } };

    ghost invariant = { λ g. AreKept (record { last = g.last; short = g.short; middle = g.middle; long = g.long }) };
}

impl Generations {
    /// Three empty generations.
    pub fn new() -> Generations
        ensures { result ≡ record { last = None; short = None; middle = None; long = None } }
    {
        Generations {
            last: None,
            short: None,
            middle: None,
            long: None,
        }
    }

    /// Joins the delta to each generation. One that would pass its cap becomes the delta alone, or
    /// empty where the delta passes the cap by itself. It costs the delta, and copies no row that is kept:
    /// room for more is made as a vector makes it. Where the delta has older runs, it also looks at the rows
    /// that are kept, and joins its runs with those that are. A delta that tells nothing costs nothing, once
    /// each generation keeps something.
    pub fn push(&mut self, alloc: Global, delta: Delta) -> Result<(), AllocError>
        requires { IsNext self.old.last delta }
        ensures ok { OnOk result (self.new ≡ pushed self.old delta) }
        ensures err { OnErr result (self.new ≡ self.old) }
    {
        if self.stays_behind(&delta) {
            return Ok(());
        }
        let kept = mem::replace(self, Generations::new());
        match kept.followed_by(alloc, &delta) {
            Ok(kept) => {
                *self = kept;
                Ok(())
            }
            Err(kept) => {
                *self = kept;
                Err(AllocError)
            }
        }
    }

    fn keeping(
        last: Option<(Replica, u64)>,
        short: Option<Delta>,
        middle: Option<Delta>,
        long: Option<Delta>,
    ) -> Generations
        requires { AreKept (record { last = last; short = short; middle = middle; long = long }) }
        ensures { result ≡ record { last = last; short = short; middle = middle; long = long } }
    {
        Generations {
            last,
            short,
            middle,
            long,
        }
    }

    // The generations after the delta, or as they were where memory is refused. All that may want memory comes first.
    fn followed_by(self, alloc: Global, delta: &Delta) -> Result<Generations, Generations>
        requires { IsNext self.last delta.now }
        ensures ok { IfOk result (λ g. g ≡ pushed self delta.now) }
        ensures err { IfErr result (λ g. g ≡ self) }
    {
        let Generations {
            last,
            short,
            middle,
            long,
        } = self;
        let short = match plan_next(alloc, short, delta, SHORT_CAP) {
            Ok(next) => next,
            Err(short) => return Err(Generations::keeping(last, short, middle, long)),
        };
        let middle = match plan_next(alloc, middle, delta, MIDDLE_CAP) {
            Ok(next) => next,
            Err(middle) => return Err(Generations::keeping(last, short.undo(), middle, long)),
        };
        let long = match plan_next(alloc, long, delta, LONG_CAP) {
            Ok(next) => next,
            Err(long) => return Err(Generations::keeping(last, short.undo(), middle.undo(), long)),
        };
        Ok(Generations {
            last: Some((delta.owner(), delta.to())),
            short: short.commit(),
            middle: middle.commit(),
            long: long.commit(),
        })
    }

    // Whether all three are the same behind the delta, since it tells nothing.
    fn stays_behind(&self, delta: &Delta) -> bool
        requires { IsNext self.now.last delta.now }
        ensures { result ≡ true → pushed self.now delta.now ≡ self.now }
    {
        if !tells_nothing(delta) {
            return false;
        }
        if !keeps_something(&self.short) {
            return false;
        }
        if !keeps_something(&self.middle) {
            return false;
        }
        keeps_something(&self.long)
    }

    /// Of the generations that begin at or below `count` and tell no more in the form than a node takes in, the one with the
    /// smallest cap. It costs a look at each older run that is kept, and no dot is made of one. Takes no memory.
    pub fn from_count(&self, count: u64, form: Form) -> Option<&Delta>
        ensures { option_copied result ≡ from_count form self.now count }
    {
        begun_by(&self.short, count, form)
            .or(begun_by(&self.middle, count, form))
            .or(begun_by(&self.long, count, form))
    }
}

impl Clone for Generations {
    ghost use Rattle.std.specs.Prelude.{◌≡◌};

    ghost is_clone = { λ g h. h ≡ g };

    fn clone(&self) -> Result<Generations, AllocError> {
        let short = clone_kept(&self.short)?;
        let middle = clone_kept(&self.middle)?;
        let long = clone_kept(&self.long)?;
        Ok(Generations {
            last: self.last,
            short,
            middle,
            long,
        })
    }
}

fn clone_kept(kept: &Option<Delta>) -> Result<Option<Delta>, AllocError>
    ensures { IfOk result (λ o. o ≡ kept.now) }
{
    let Some(delta) = kept else {
        return Ok(None);
    };
    let delta = delta.clone()?;
    Ok(Some(delta))
}

fn begun_by(kept: &Option<Delta>, count: u64, form: Form) -> Option<&Delta>
    ensures { option_copied result ≡ begun form count kept.now }
{
    match kept {
        Some(delta) if delta.from() <= count && delta.fits_line(form) => Some(delta),
        _ => None,
    }
}

fn tells_nothing(delta: &Delta) -> bool
    ensures { result ≡ is_nothing delta.now }
{
    delta.from() == delta.to() && delta.older().is_empty() && delta.live().is_empty()
}

fn keeps_something(kept: &Option<Delta>) -> bool
    ensures some { result ≡ is_some kept.now }
    ensures delta { IsDeltaIfSome kept.now }
{
    let Some(delta) = kept else {
        return false;
    };
    // Read for the proof alone: what is kept is a delta.
    let _live = delta.live();
    true
}

// What a generation keeps before the delta and after it, with all the memory that this needs: it begins
// anew with the delta, or empty, or it grows.
enum Next {
    Anew {
        kept: Option<Delta>,
        next: Option<Delta>,
    },
    Grows(Growth),
}

impl Next {
    fn commit(self) -> Option<Delta>
        ensures { result ≡ becomes self }
    {
        match self {
            Next::Anew { kept, next } => {
                drop(kept);
                next
            }
            Next::Grows(growth) => Some(growth.commit()),
        }
    }

    fn undo(self) -> Option<Delta>
        ensures { result ≡ was self }
    {
        match self {
            Next::Anew { kept, next } => {
                drop(next);
                kept
            }
            Next::Grows(growth) => Some(growth.undo()),
        }
    }
}

// Begins anew with the delta, or empty where that passes the cap by itself.
fn plan_alone(kept: Option<Delta>, delta: &Delta, cap: usize) -> Result<Next, Option<Delta>>
    ensures before { IfOk result (λ n. was n ≡ kept) }
    ensures after { IfOk result (λ n. becomes n ≡ alone cap delta.now) }
    ensures err { IfErr result (λ k. k ≡ kept) }
{
    if !is_sum_within(delta.older().len(), delta.live().len(), 0, cap) {
        return Ok(Next::Anew { kept, next: None });
    }
    match delta.clone() {
        Ok(delta) => Ok(Next::Anew {
            kept,
            next: Some(delta),
        }),
        Err(_) => Err(kept),
    }
}

// Takes all the memory that the generation needs to take in the delta. Where it is refused, it answers what was kept.
fn plan_next(
    alloc: Global,
    kept: Option<Delta>,
    delta: &Delta,
    cap: usize,
) -> Result<Next, Option<Delta>>
    requires { GoesOnFrom kept delta.now }
    ensures before { IfOk result (λ n. was n ≡ kept) }
    ensures after { IfOk result (λ n. becomes n ≡ grown cap kept delta.now) }
    ensures err { IfErr result (λ k. k ≡ kept) }
{
    let Some(old) = kept else {
        return plan_alone(None, delta, cap);
    };
    let Ok(removal) = removal_of(alloc, &old, delta) else {
        return Err(Some(old));
    };
    if !is_join_within(&old, &removal, delta, cap) {
        return plan_alone(Some(old), delta, cap);
    }
    match old.plan_join(alloc, removal, delta) {
        Ok(growth) => Ok(Next::Grows(growth)),
        Err(old) => Err(Some(old)),
    }
}
