// Whether two outcomes are the same.
ghost use Rattle.std.specs.Prelude.{◌≡◌, ◌&&◌};
ghost use Rattle.presence_journal.specs.ListedDots.{same_dots};
ghost use Rattle.shard_pool_settled.specs.Alike.{same_outcome, is_added, is_already_tracked, is_replaced, is_no_presence, is_removed, is_shown, is_subscribed, is_taken, is_ended, is_sent, is_noted, is_cut_at, is_merged, same_pairs, is_reborn};

use presence_base::Dot;
use presence_journal::{Dots, ListedDots, Outcome, Pairs};

fn are_dots_alike(a: &Dots, b: &Dots) -> bool
    ensures { result ≡ same_dots a.now b.now }
{
    a.as_slice().cmp(b.as_slice()).is_eq()
}

fn is_that_added(dot: &Dot, outcome: &Outcome) -> bool
    ensures { result ≡ is_added dot.now outcome.now }
{
    match outcome {
        Outcome::Added(d) => d.get().cmp(dot).is_eq(),
        _ => false,
    }
}

fn is_that_already_tracked(outcome: &Outcome) -> bool
    ensures { result ≡ is_already_tracked outcome.now }
{
    match outcome {
        Outcome::AlreadyTracked => true,
        _ => false,
    }
}

fn is_that_replaced(dot: &Dot, old: &Dot, outcome: &Outcome) -> bool
    ensures { result ≡ is_replaced dot.now old.now outcome.now }
{
    match outcome {
        Outcome::Replaced(d, o) => d.get().cmp(dot).is_eq() && o.get().cmp(old).is_eq(),
        _ => false,
    }
}

fn is_that_no_presence(outcome: &Outcome) -> bool
    ensures { result ≡ is_no_presence outcome.now }
{
    match outcome {
        Outcome::NoPresence => true,
        _ => false,
    }
}

fn is_that_removed(dots: &Dots, outcome: &Outcome) -> bool
    ensures { result ≡ is_removed dots.now outcome.now }
{
    match outcome {
        Outcome::Removed(ds) => are_dots_alike(ds, dots),
        _ => false,
    }
}

fn is_that_shown(dots: &ListedDots, outcome: &Outcome) -> bool
    ensures { result ≡ is_shown dots.now outcome.now }
{
    match outcome {
        Outcome::Shown(ds) => ds.is_same(dots),
        _ => false,
    }
}

fn is_that_subscribed(number: u64, outcome: &Outcome) -> bool
    ensures { result ≡ is_subscribed number outcome.now }
{
    match outcome {
        Outcome::Subscribed(n) => *n == number,
        _ => false,
    }
}

fn is_that_taken(state: bool, items: u64, outcome: &Outcome) -> bool
    ensures { result ≡ is_taken state items outcome.now }
{
    match outcome {
        Outcome::Taken(s, n) => *s == state && *n == items,
        _ => false,
    }
}

fn is_that_ended(outcome: &Outcome) -> bool
    ensures { result ≡ is_ended outcome.now }
{
    match outcome {
        Outcome::Ended => true,
        _ => false,
    }
}

fn is_that_sent(outcome: &Outcome) -> bool
    ensures { result ≡ is_sent outcome.now }
{
    match outcome {
        Outcome::Sent => true,
        _ => false,
    }
}

fn is_that_noted(outcome: &Outcome) -> bool
    ensures { result ≡ is_noted outcome.now }
{
    match outcome {
        Outcome::Noted => true,
        _ => false,
    }
}

fn is_that_cut_at(from: u64, to: u64, outcome: &Outcome) -> bool
    ensures { result ≡ is_cut_at from to outcome.now }
{
    match outcome {
        Outcome::CutAt(f, t) => *f == from && *t == to,
        _ => false,
    }
}

fn is_that_merged(outcome: &Outcome) -> bool
    ensures { result ≡ is_merged outcome.now }
{
    match outcome {
        Outcome::Merged => true,
        _ => false,
    }
}

fn are_pairs_alike(a: &Pairs, b: &Pairs) -> bool
    ensures { result ≡ same_pairs a.now b.now }
{
    a.as_slice().cmp(b.as_slice()).is_eq()
}

fn is_that_reborn(pairs: &Pairs, outcome: &Outcome) -> bool
    ensures { result ≡ is_reborn pairs.now outcome.now }
{
    match outcome {
        Outcome::Reborn(ps) => are_pairs_alike(ps, pairs),
        _ => false,
    }
}

pub(crate) fn are_outcomes_alike(a: &Outcome, b: &Outcome) -> bool
    ensures { result ≡ same_outcome a.now b.now }
{
    match a {
        Outcome::Added(dot) => is_that_added(dot.get(), b),
        Outcome::AlreadyTracked => is_that_already_tracked(b),
        Outcome::Replaced(dot, old) => is_that_replaced(dot.get(), old.get(), b),
        Outcome::NoPresence => is_that_no_presence(b),
        Outcome::Removed(dots) => is_that_removed(dots, b),
        Outcome::Shown(dots) => is_that_shown(dots, b),
        Outcome::Subscribed(number) => is_that_subscribed(*number, b),
        Outcome::Taken(state, items) => is_that_taken(*state, *items, b),
        Outcome::Ended => is_that_ended(b),
        Outcome::Sent => is_that_sent(b),
        Outcome::Noted => is_that_noted(b),
        Outcome::CutAt(from, to) => is_that_cut_at(*from, *to, b),
        Outcome::Merged => is_that_merged(b),
        Outcome::Reborn(pairs) => is_that_reborn(pairs, b),
    }
}
