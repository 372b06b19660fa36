//! An item for one subscriber more.
ghost use Rattle.std.specs.Prelude.{◌≡◌, IfOk};

use presence_journal::Item;
use std::alloc::AllocError;

/// An item for one subscriber more. What it tells is shared with its text.
pub fn copy_item(item: &Item) -> Result<Item, AllocError>
    ensures { IfOk result (λ i. i ≡ item.now) }
{
    match item {
        Item::State(rows) => Ok(Item::State(rows.share()?)),
        Item::Diff(diff) => Ok(Item::Diff(diff.share()?)),
        Item::Shout(shout) => Ok(Item::Shout(shout.share()?)),
    }
}
