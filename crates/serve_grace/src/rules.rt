//! How many clients stay.
ghost use Rattle.serve_grace.specs.Staying.{Leaves, Stays};

/// How many of so many clients stay, once so much of the grace has passed: as many as the part of it that is left, rounded down.
/// Without a grace nobody does.
pub fn staying(clients: u64, passed: u64, grace: u64) -> u64
    ensures { Stays clients passed grace result }
{
    if grace == 0 {
        return 0;
    }
    let left = u128::from(grace.saturating_sub(passed));
    let stay = u128::from(clients) * left / u128::from(grace);
    stay as u64
}

/// How many of those that are there are let go now, where so many were at the beginning.
pub fn leaving(there: u64, clients: u64, passed: u64, grace: u64) -> u64
    ensures { Leaves there clients passed grace result }
{
    there.saturating_sub(staying(clients, passed, grace))
}
