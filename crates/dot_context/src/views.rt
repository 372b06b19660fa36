//! The compact form of a context, handed out without memory.
ghost use Rattle.std.specs.Prelude.{◌≡◌, ◌<◌, length, Some, None, true, false};
ghost use Rattle.std.specs.Bool.{MatchBool};
ghost use Rattle.std.specs.Map.Iter.{TakesFirst};
ghost use Rattle.dot_context.specs.Forms.{vector_of, cloud_of, tops_of, range_shown, runs_shown};

use crate::runs::Runs;
use presence_base::Replica;
use std::collections::btree_map::{Iter, Range};
use std::iter::Iterator;
use std::marker::Model;

/// The vector of a context: each replica of which the count 1 is in the set, with the count up to which all are.
#[derive(Drop)]
pub struct Ranges<'a> {
    pub(crate) entries: Iter<'a, Replica, Runs>,
}

impl<'a> Model for Ranges<'a> {
    ghost use Rattle.std.specs.Prelude.{ℕ, List};
    ghost use Rattle.presence_base.specs.declared.dots.Replica.{Replica};
    ghost use Rattle.presence_base.specs.Codes.{replica_code};
    ghost use Rattle.std.specs.Coded.{coded_ℕ, coded_list, coded×};
    ghost use Rattle.dot_context.specs.Forms.{vector_of};

    ghost Value = { List (Replica × ℕ) };

    ghost coded = { coded_list (coded× replica_code coded_ℕ) };

    ghost view = { λ a. vector_of a.entries };
}

impl<'a> Iterator for Ranges<'a> {
    ghost use Rattle.std.specs.Prelude.{length};
    ghost use Rattle.std.specs.Iterator.{at_most};
    ghost use Rattle.std.specs.Map.Iter.{TakesFirst};
    ghost use Rattle.dot_context.specs.Forms.{range_shown};

    type Item = (&'a Replica, u64);

    ghost next_gives = { TakesFirst range_shown };

    ghost remaining = { λ s. at_most (length s) };

    fn next(&mut self) -> Option<(&'a Replica, u64)> {
        next_range(&mut self.entries)
    }
}

fn next_range<'a>(entries: &mut Iter<'a, Replica, Runs>) -> Option<(&'a Replica, u64)>
    ensures { TakesFirst range_shown (vector_of entries.old) result (vector_of entries.new) }
{
    while let Some((replica, runs)) = entries.next() {
        let top = runs.top();
        if top > 0 {
            return Some((replica, top));
        }
    }
    None
}

/// The tops of a context: each replica that has dots in the set, with the count up to which all are. It is 0 where the
/// count 1 is not in the set.
#[derive(Drop)]
pub struct Tops<'a> {
    pub(crate) entries: Iter<'a, Replica, Runs>,
}

impl<'a> Model for Tops<'a> {
    ghost use Rattle.std.specs.Prelude.{ℕ, List};
    ghost use Rattle.presence_base.specs.declared.dots.Replica.{Replica};
    ghost use Rattle.presence_base.specs.Codes.{replica_code};
    ghost use Rattle.std.specs.Coded.{coded_ℕ, coded_list, coded×};
    ghost use Rattle.dot_context.specs.Forms.{tops_of};

    ghost Value = { List (Replica × ℕ) };

    ghost coded = { coded_list (coded× replica_code coded_ℕ) };

    ghost view = { λ a. tops_of a.entries };
}

impl<'a> Iterator for Tops<'a> {
    ghost use Rattle.std.specs.Prelude.{length};
    ghost use Rattle.std.specs.Iterator.{at_most};
    ghost use Rattle.std.specs.Map.Iter.{TakesFirst};
    ghost use Rattle.dot_context.specs.Forms.{range_shown};

    type Item = (&'a Replica, u64);

    ghost next_gives = { TakesFirst range_shown };

    ghost remaining = { λ s. at_most (length s) };

    fn next(&mut self) -> Option<(&'a Replica, u64)> {
        next_top(&mut self.entries)
    }
}

fn next_top<'a>(entries: &mut Iter<'a, Replica, Runs>) -> Option<(&'a Replica, u64)>
    ensures { TakesFirst range_shown (tops_of entries.old) result (tops_of entries.new) }
{
    match entries.next() {
        Some((replica, runs)) => Some((replica, runs.top())),
        None => None,
    }
}

/// The cloud of a context: each replica that has dots above its first gap, with the runs of these.
/// A run is a pair: the count below its first one, and its last one.
#[derive(Drop)]
pub struct Cloud<'a> {
    pub(crate) entries: Iter<'a, Replica, Runs>,
}

impl<'a> Model for Cloud<'a> {
    ghost use Rattle.std.specs.Prelude.{ℕ, List};
    ghost use Rattle.presence_base.specs.declared.dots.Replica.{Replica};
    ghost use Rattle.presence_base.specs.Codes.{replica_code};
    ghost use Rattle.std.specs.Coded.{coded_ℕ, coded_list, coded×};
    ghost use Rattle.dot_context.specs.Forms.{cloud_of};

    ghost Value = { List (Replica × List (ℕ × ℕ)) };

    ghost coded = { coded_list (coded× replica_code (coded_list (coded× coded_ℕ coded_ℕ))) };

    ghost view = { λ a. cloud_of a.entries };
}

impl<'a> Iterator for Cloud<'a> {
    ghost use Rattle.std.specs.Prelude.{length};
    ghost use Rattle.std.specs.Iterator.{at_most};
    ghost use Rattle.std.specs.Map.Iter.{TakesFirst};
    ghost use Rattle.dot_context.specs.Forms.{runs_shown};

    type Item = (&'a Replica, Range<'a, u64, u64>);

    ghost next_gives = { TakesFirst runs_shown };

    ghost remaining = { λ s. at_most (length s) };

    fn next(&mut self) -> Option<(&'a Replica, Range<'a, u64, u64>)> {
        next_cloud(&mut self.entries)
    }
}

fn next_cloud<'a>(
    entries: &mut Iter<'a, Replica, Runs>,
) -> Option<(&'a Replica, Range<'a, u64, u64>)>
    ensures { TakesFirst runs_shown (cloud_of entries.old) result (cloud_of entries.new) }
{
    while let Some((replica, runs)) = entries.next() {
        if runs.has_above_top() {
            return Some((replica, runs.above_top()));
        }
    }
    None
}

/// The runs of a context: each replica that has dots in the set, with its longest runs in order.
/// A run is a pair: the count below its first one, and its last one.
#[derive(Drop)]
pub struct ReplicaRuns<'a> {
    pub(crate) entries: Iter<'a, Replica, Runs>,
}

impl<'a> Model for ReplicaRuns<'a> {
    ghost use Rattle.std.specs.Prelude.{ℕ, List};
    ghost use Rattle.presence_base.specs.declared.dots.Replica.{Replica};
    ghost use Rattle.presence_base.specs.Codes.{replica_code};
    ghost use Rattle.std.specs.Coded.{coded_ℕ, coded_list, coded×};

    ghost Value = { List (Replica × List (ℕ × ℕ)) };

    ghost coded = { coded_list (coded× replica_code (coded_list (coded× coded_ℕ coded_ℕ))) };

    ghost view = { λ a. a.entries };
}

impl<'a> Iterator for ReplicaRuns<'a> {
    ghost use Rattle.std.specs.Prelude.{length};
    ghost use Rattle.std.specs.Iterator.{at_most};
    ghost use Rattle.std.specs.Map.Iter.{TakesFirst};
    ghost use Rattle.dot_context.specs.Forms.{runs_shown};

    type Item = (&'a Replica, Iter<'a, u64, u64>);

    ghost next_gives = { TakesFirst runs_shown };

    ghost remaining = { λ s. at_most (length s) };

    fn next(&mut self) -> Option<(&'a Replica, Iter<'a, u64, u64>)> {
        next_runs(&mut self.entries)
    }
}

fn next_runs<'a>(entries: &mut Iter<'a, Replica, Runs>) -> Option<(&'a Replica, Iter<'a, u64, u64>)>
    ensures { TakesFirst runs_shown entries.old result entries.new }
{
    match entries.next() {
        Some((replica, runs)) => Some((replica, runs.iter())),
        None => None,
    }
}
