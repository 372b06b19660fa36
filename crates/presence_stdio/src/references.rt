//! Notices of references.
ghost use Rattle.std.specs.Prelude.{◌≡◌, ◌≤◌, IfOk, length, string_bytes};
ghost use Rattle.presence_base.specs.Refs.{ref_of};
ghost use Rattle.presence_stdio.specs.Notes.{note};

use hook_registry::{Extra, Notice, PresenceHooks};
use presence_base::{Dot, Key, Topic, ref_text};
use std::alloc::{AllocError, Global};

// The words before a reference.
const JOIN: &str = "join";

const LEAVE: &str = "leave";

// A name has at most 32 bytes, and a number of 64 bits at most 20 digits.
#[tactic(auto, using(crate::proofs::Short::short_text))]
fn reference_of(alloc: Global, dot: &Dot) -> Result<String, AllocError>
    ensures text { IfOk result (λ s. string_bytes s ≡ ref_of dot.now) }
    ensures short { IfOk result (λ s. length (string_bytes s) ≤ 74) }
{
    let _name = dot.replica.name.as_str();
    let _incarnation = dot.replica.incarnation;
    let _count = dot.count;
    ref_text(alloc, dot)
}

// The notice of a word and a reference, as in `join a.1.2`.
fn noted(alloc: Global, word: &str, dot: &Dot) -> Result<Notice, AllocError>
    requires { length word.now ≤ 5 }
    ensures { IfOk result (λ n. n ≡ note word.now dot.now) }
{
    let reference = reference_of(alloc, dot)?;
    let text = format!(in alloc; "{word} {reference}")?;
    match Notice::new(alloc, text.as_str())? {
        Some(notice) => Ok(notice),
        None => unreachable!(),
    }
}

/// Notes each row that joins or leaves by its reference, as in `join a.1.2`, and adds nothing to
/// metas.
#[derive(Clone, Copy, Debug)]
pub struct ReferenceNotices;

impl PresenceHooks for ReferenceNotices {
    ghost use Rattle.std.specs.Prelude.{◌≡◌, true, false, refl};
    ghost use Rattle.serde_json.specs.Data.{no_members};
    ghost use Rattle.presence_stdio.specs.Notes.{join_note, leave_note};

    ghost fetched = { λ h kind topic key e. e ≡ no_members };

    ghost joined = { λ h kind topic key dot n. n ≡ join_note dot };

    ghost left = { λ h kind topic key dot n. n ≡ leave_note dot };

    ghost plain = { λ h. true };

    ghost quiet = { λ h. false };

    ghost plain_adds_nothing = { λ h kind topic key p. refl };

    fn fetch(
        &self,
        alloc: Global,
        _kind: u32,
        _topic: &Topic,
        _key: &Key,
    ) -> Result<Extra, AllocError> {
        Ok(Extra::none(alloc))
    }

    fn on_join(
        &self,
        alloc: Global,
        _kind: u32,
        _topic: &Topic,
        _key: &Key,
        dot: &Dot,
    ) -> Result<Notice, AllocError> {
        noted(alloc, JOIN, dot)
    }

    fn on_leave(
        &self,
        alloc: Global,
        _kind: u32,
        _topic: &Topic,
        _key: &Key,
        dot: &Dot,
    ) -> Result<Notice, AllocError> {
        noted(alloc, LEAVE, dot)
    }

    fn is_plain(&self) -> bool {
        true
    }

    fn is_quiet(&self) -> bool {
        false
    }
}
