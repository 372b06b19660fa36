//! The presence list as a client keeps it (Phoenix.Presence): the objects of states and diffs, the frames that
//! carry them, the mirror that folds them, and the objects' texts, written from rows in order of their keys with no
//! value in between.
//!
//! Its contracts cite these definitions:
//! - `specs/Codes`: how the logic stores presences
//! - `specs/Fold`: the fold of a client's frames, as a map from key and reference to meta
//! - `specs/Frames`: what a message tells a client of presences, or the first thing that is wrong with it
//! - `specs/KeyOrder`: rows in order of their keys
//! - `specs/Laws`: what lists, objects and frames hold, key by key; and that the frames that rows make are read as
//!   these rows
//! - `specs/Listing`: a client's lists: keys in order, each with its metas; and how the joins and leaves of a diff
//!   change them
//! - `specs/Lists`: what lists keep: keys in order, each with metas
//! - `specs/Rows`: the lists that rows make
//! - `specs/Values`: the objects that tell presences
//!
//! `specs/Texts` and `specs/RefTexts` are of the texts row by row.
#![tactic(auto)]

mod frame;
pub mod laws;
mod members;
mod metas;
mod mirror;
mod order;
mod presences;
mod refs;
mod rows;
mod states;
mod tracked;

pub use frame::{Frame, FrameFault, read_frame};
pub use members::{insert_member, put_member};
pub use mirror::Mirror;
pub use order::are_in_key_order;
pub use presences::{
    Diff, Presences, diff_object, diff_value, state_value, value_of_metas, values_of,
};
pub use states::{diff_text, push_state, state_text};
pub use tracked::{TrackedMeta, tracked_meta};
