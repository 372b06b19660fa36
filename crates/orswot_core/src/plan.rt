//! A join with its memory.
ghost use Rattle.std.specs.Prelude.{◌≡◌, IfOk, IfErr};
ghost use Rattle.orswot_core.specs.Sets.{rows_of, seen, IsSound, IsJoinWith, AreNeeded};

use crate::joins::{Parts, drop_dots, insert_missing};
use crate::set::Orswot;
use dot_context::{Context, ContextPlan};
use presence_base::{Dot, Row};
use std::alloc::Global;
use std::collections::BTreeMap;
use std::marker::Model;

/// A set with all the memory that a join needs. It is joined by `commit`, or is as it was by `undo`: neither takes memory.
pub struct JoinPlan {
    covered: ContextPlan,
    live: BTreeMap<Dot, Row>,
    added: Vec<Dot>,
    gone: Vec<Dot>,
}

impl Model for JoinPlan {
    ghost use Rattle.std.specs.FinSet as set;
    ghost use Rattle.orswot_core.specs.Sets.{Planned, leaving, rows_of, ArePlanned};
    ghost use Rattle.orswot_core.specs.Codes.{planned_code};

    ghost Value = { Planned };

    ghost coded = { planned_code };

    ghost view = { λ a. record {
      before = leaving a.covered.held (rows_of a.live.entries) a.added.items;
      after = leaving (set.union a.covered.held a.covered.more) (rows_of a.live.entries) a.gone.items;
    } };

    ghost invariant = { λ a. ArePlanned (record {
      before = leaving a.covered.held (rows_of a.live.entries) a.added.items;
      after = leaving (set.union a.covered.held a.covered.more) (rows_of a.live.entries) a.gone.items;
    }) };
}

impl JoinPlan {
    /// The joined set.
    pub fn commit(self) -> Orswot
        ensures { result ≡ self.after }
    {
        let JoinPlan {
            covered,
            mut live,
            added,
            gone,
        } = self;
        drop(added);
        drop_dots(&mut live, &gone);
        Orswot {
            covered: covered.commit(),
            live,
        }
    }

    /// The set as it was.
    pub fn undo(self) -> Orswot
        ensures { result ≡ self.before }
    {
        let JoinPlan {
            covered,
            mut live,
            added,
            gone,
        } = self;
        drop(gone);
        drop_dots(&mut live, &added);
        Orswot {
            covered: covered.undo(),
            live,
        }
    }
}

// Adds the rows, and makes room for the dots. Where memory is refused, the rows are taken out again.
pub(crate) fn plan_parts(
    alloc: Global,
    covered: Context,
    mut live: BTreeMap<Dot, Row>,
    parts: Parts,
) -> Result<JoinPlan, Orswot>
    requires sound { IsSound covered (rows_of live.entries) }
    requires needed { AreNeeded covered live parts.heard parts.rows parts.added.items parts.gone.items }
    ensures before { IfOk result (λ p. p.before ≡ seen covered live) }
    ensures joined { IfOk result (λ p. IsJoinWith (seen covered live) parts.heard parts.rows p.after) }
    ensures err { IfErr result (λ s. s ≡ seen covered live) }
{
    let Parts {
        heard,
        rows,
        added,
        gone,
    } = parts;
    match insert_missing(&mut live, &covered, &rows) {
        Ok(()) => {}
        Err(_) => {
            drop_dots(&mut live, &added);
            return Err(Orswot { covered, live });
        }
    }
    match covered.plan_join(alloc, heard) {
        Ok(covered) => Ok(JoinPlan {
            covered,
            live,
            added,
            gone,
        }),
        Err(covered) => {
            drop_dots(&mut live, &added);
            Err(Orswot { covered, live })
        }
    }
}
