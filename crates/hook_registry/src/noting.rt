//! The notices of a diff.
ghost use Rattle.std.specs.Prelude.{◌≡◌, true, false, [], IfOk};
ghost use Rattle.hook_registry.specs.Noted.{Noticed, NoticesOf};

use crate::hooks::PresenceHooks;
use crate::notice::Notice;
use presence_base::{Dot, Row, Topic};
use presence_journal::RowDiff;
use std::alloc::{AllocError, Global};

// The notices of the rows that joined.
fn joined_notices<H: PresenceHooks>(
    alloc: Global,
    hooks: &H,
    kind: u32,
    topic: &Topic,
    rows: &[(Dot, Row)],
) -> Result<Vec<Notice>, AllocError>
    ensures { IfOk result (λ v. Noticed (H.joined hooks.now kind topic.now) rows.now v.items) }
{
    let mut notices = Vec::new(alloc);
    for (dot, row) in rows {
        notices.push(hooks.on_join(alloc, kind, topic, &row.key, dot)?)?;
    }
    Ok(notices)
}

// The notices of the rows that left.
fn left_notices<H: PresenceHooks>(
    alloc: Global,
    hooks: &H,
    kind: u32,
    topic: &Topic,
    rows: &[(Dot, Row)],
) -> Result<Vec<Notice>, AllocError>
    ensures { IfOk result (λ v. Noticed (H.left hooks.now kind topic.now) rows.now v.items) }
{
    let mut notices = Vec::new(alloc);
    for (dot, row) in rows {
        notices.push(hooks.on_leave(alloc, kind, topic, &row.key, dot)?)?;
    }
    Ok(notices)
}

/// A notice for each row that joined and then for each that left, in their order, each an answer
/// of `on_join` or `on_leave` for that row. There are none where the hooks note nothing.
pub fn notices<H: PresenceHooks>(
    alloc: Global,
    hooks: &H,
    kind: u32,
    topic: &Topic,
    diff: &RowDiff,
) -> Result<Vec<Notice>, AllocError>
    ensures notices { IfOk result (λ v. H.quiet hooks.now ≡ false
        → NoticesOf (H.joined hooks.now kind topic.now) (H.left hooks.now kind topic.now)
        diff.now.joins diff.now.leaves v.items) }
    ensures quiet { H.quiet hooks.now ≡ true → IfOk result (λ v. v.items ≡ []) }
{
    if hooks.is_quiet() {
        return Ok(Vec::new(alloc));
    }
    let mut all = joined_notices(alloc, hooks, kind, topic, diff.joins.as_slice())?;
    let mut left = left_notices(alloc, hooks, kind, topic, diff.leaves.as_slice())?;
    all.append(&mut left)?;
    Ok(all)
}
