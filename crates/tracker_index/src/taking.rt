// What a take gives, and what it comes to.
ghost use Rattle.std.specs.Prelude.{◌≡◌, ◌∷◌, [], true, false, length, Some, IfOk};
ghost use Rattle.tracker_feeds.specs.Rings.{values};

use presence_journal::{Item, Outcome, SharedRows};
use std::alloc::{AllocError, Global};
use std::sync::Arc;
use tracker_feeds::copy_item;

/// Copies of items that are shared.
pub(crate) fn copy_items(alloc: Global, items: &[Arc<Item>]) -> Result<Vec<Item>, AllocError>
    ensures { IfOk result (λ v. v.items ≡ values items.now) }
{
    let mut copies = Vec::new(alloc);
    for item in items {
        let copy = copy_item(item)?;
        copies.push(copy)?;
    }
    Ok(copies)
}

/// The state of a topic as the one item.
pub(crate) fn state_item(alloc: Global, state: SharedRows) -> Result<Vec<Item>, AllocError>
    ensures { IfOk result (λ v. v.items ≡ Item.State state ∷ []) }
{
    let mut items = Vec::new(alloc);
    items.push(Item::State(state))?;
    Ok(items)
}

/// What a take of these items comes to.
pub(crate) fn taken(items: &[Item]) -> Outcome
    ensures { result ≡ Outcome.Taken false (length items.now) }
{
    Outcome::Taken(false, items.len() as u64)
}

/// What a take of these shared items comes to.
pub(crate) fn taken_shared(items: &[Arc<Item>]) -> Outcome
    ensures { result ≡ Outcome.Taken false (length items.now) }
{
    Outcome::Taken(false, items.len() as u64)
}
