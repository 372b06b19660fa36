// Counting runs by their ends.
ghost use Rattle.std.specs.Prelude.{◌≡◌, nat_le};
ghost use Rattle.delta_range.specs.Fitting.{counts_in};

// Whether the runs have so many counts at most. A run is counted by its ends, however long it is.
pub(crate) fn have_at_most(runs: &[(u64, u64)], most: u64) -> bool
    ensures { result ≡ nat_le (counts_in runs.now) most }
{
    let mut left = most;
    for run in runs {
        let counts = run.1.saturating_sub(run.0);
        if counts > left {
            return false;
        }
        left -= counts;
    }
    true
}
