//! What is kept of replicas that are gone.
use super::rows::named;
use presence_base::Replica;
use presence_journal_lists::Standings;
use replica_status::Standing;
use std::alloc::Global;

fn life(alloc: Global, name: &str, incarnation: u64) -> Option<Replica> {
    named(alloc, name, incarnation).ok()
}

fn hear(alloc: Global, standings: &mut Standings, life: u64, now: u64) -> Option<()> {
    standings.heard(named(alloc, "b", life).ok()?, now).ok()
}

fn is_gone(alloc: Global, standings: &Standings, name: &str, incarnation: u64) -> Option<bool> {
    let replica = life(alloc, name, incarnation)?;
    Some(standings.standing(&replica) == Standing::Gone)
}

// How many replicas have a whole standing, how many names are gone, and how many lives of the first name are, where it
// has more than one.
fn places(standings: &Standings) -> (usize, usize, Option<usize>) {
    let (gone, others) = standings.parts();
    let lives = match gone.further.iter().next() {
        Some((_name, further)) => Some(further.as_slice().len() + 1),
        None => None,
    };
    (others.len(), gone.first.len(), lives)
}

// `b` ends each 2 s and comes back under the next even incarnation, 900 times in half an hour.
fn comes_back(alloc: Global) -> Option<Standings> {
    let mut standings = Standings::new(alloc);
    for round in 1..901 {
        hear(alloc, &mut standings, 2 * round, 2_000 * round)?;
        standings.tick(alloc, 2_000 * round);
    }
    Some(standings)
}

// The lives that were heard 1,200,000 ms ago or less still have a standing: those of 600 s to 1,800 s, 601 of them.
fn keeps_numbers(alloc: Global) -> Option<bool> {
    let standings = comes_back(alloc)?;
    let at_rest = places(&standings) == (601, 1, Some(299));
    let gone = is_gone(alloc, &standings, "b", 2)? && is_gone(alloc, &standings, "b", 598)?;
    let not_gone = is_gone(alloc, &standings, "b", 600)? || is_gone(alloc, &standings, "b", 3)?;
    let other = is_gone(alloc, &standings, "c", 2)?;
    Some(at_rest && gone && !not_gone && !other)
}

#[test]
fn of_a_life_that_is_gone_a_number_is_kept(rt: HostRuntime) {
    assert_eq!(rt; keeps_numbers(rt.alloc()), Some(true));
}

// All are gone 1,200,001 ms behind the last; a beat of the first changes nothing.
fn stays_gone(alloc: Global) -> Option<bool> {
    let mut standings = comes_back(alloc)?;
    standings.tick(alloc, 3_000_001);
    let all = places(&standings) == (0, 1, Some(900));
    hear(alloc, &mut standings, 2, 3_000_002)?;
    let stays = is_gone(alloc, &standings, "b", 2)? && places(&standings) == (0, 1, Some(900));
    hear(alloc, &mut standings, 3, 3_000_003)?;
    Some(all && stays && places(&standings) == (1, 1, Some(900)))
}

#[test]
fn a_life_that_is_gone_is_not_heard_again(rt: HostRuntime) {
    assert_eq!(rt; stays_gone(rt.alloc()), Some(true));
}

// Lives are put down in no order, one of them twice; one is forgotten.
fn put_down(alloc: Global) -> Option<bool> {
    let mut standings = Standings::new(alloc);
    for incarnation in [5, 1, 9, 5, 3] {
        let replica = life(alloc, "b", incarnation)?;
        standings.put_down(alloc, &replica).ok()?;
    }
    standings.put_down(alloc, &life(alloc, "c", 1)?).ok()?;
    let all = places(&standings) == (0, 2, Some(4));
    standings.forget(&life(alloc, "b", 3)?);
    let forgotten = !is_gone(alloc, &standings, "b", 3)?;
    let copy = standings.clone().ok()?;
    let kept = is_gone(alloc, &copy, "b", 1)?
        && is_gone(alloc, &copy, "b", 5)?
        && is_gone(alloc, &copy, "b", 9)?;
    Some(all && forgotten && kept && places(&copy) == (0, 2, Some(3)))
}

#[test]
fn lives_are_put_down_in_any_order(rt: HostRuntime) {
    assert_eq!(rt; put_down(rt.alloc()), Some(true));
}
