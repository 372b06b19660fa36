// Which entry of a journal has a number, and how many of its entries have a seat.
ghost use Rattle.std.specs.Prelude.{◌≡◌, slice_get, option_copied};
ghost use Rattle.shard_pool_settled.specs.Seated.{entry_at, seated, seated_in};

use presence_journal::{Entry, Journal};

// The entry at a place of the list.
fn placed_entry(entries: &[Entry], place: usize) -> Option<&Entry>
    ensures { option_copied result ≡ slice_get entries.now place }
{
    let entry = entries.get(place)?;
    Some(entry)
}

// The entry of a number.
pub(crate) fn numbered_entry(journal: &Journal, number: u64) -> Option<&Entry>
    ensures { option_copied result ≡ entry_at journal.now number }
{
    let entries = journal.entries();
    let first = journal.start().number;
    if number <= first {
        return None;
    }
    placed_entry(entries, (number - first - 1) as usize)
}

// How many of the entries have a seat.
fn count_seated(entries: &[Entry]) -> u64
    ensures { result ≡ seated_in entries.now }
{
    let mut count = 0;
    for entry in entries {
        if entry.seat.is_some() {
            count += 1;
        }
    }
    count
}

// How many entries above the Start have a seat.
pub(crate) fn seated_entries(journal: &Journal) -> u64
    ensures { result ≡ seated journal.now }
{
    count_seated(journal.entries())
}
