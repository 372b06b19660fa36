// What a journal begins with.
ghost use Rattle.std.specs.Prelude.{◌≡◌, ◌<◌, ℕ, nat_eq, None};
ghost use Rattle.std.specs.Map.{lookup};

use presence_journal_lists::Runs;

/// A count above which none has a chain in the list.
pub(crate) fn most_listed(listed: &[(u64, Runs)]) -> u64
    ensures { (c : ℕ) → result < c → lookup (nat_eq c) listed.now ≡ None }
{
    let mut most = 0;
    for chain in listed {
        most = chain.0.max(most);
    }
    most
}
