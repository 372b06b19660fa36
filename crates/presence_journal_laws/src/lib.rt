//! Laws of a shard's journal: of the presence table that presence_journal defines (its `Laws` and `Merges`); of a
//! Start that stands for a history (presence_journal_cuts' `Checkpoints`), a checkpoint, by which the entries
//! before it can go; of what another node's history says once it merged what cuts tell; and of what stays true of a
//! history and of all that is told, whatever happens: that nodes make no rows up, and that what an owner removed is
//! told with what it removed before. No program uses them.
//!
//! The contracts of `laws` cite these definitions of its own:
//! - `specs/Laws`: what a history says, and its checkpoint too
//! - `specs/Later`: what both say behind later entries
//! - `specs/Worked`: a worked checkpoint
//! - `specs/Joined`: what a history says once it merged joined deltas
//! - `specs/Plain`: what goes wrong with less than a cut tells
//!
//! Those of `deed_laws` cite these:
//! - `specs/Deeds`: what an owner did, by its counts
//! - `specs/Truth`: what is true of deeds, of a history and of a told value
//! - `specs/DeedLaws`: that each kind of event keeps it
#![tactic(auto)]

pub mod deed_laws;
pub mod laws;
