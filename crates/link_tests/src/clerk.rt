//! A thread that answers others, one question at a time.
use link_streams::{Clerk, LONG_LINE_BYTES, is_long};
use std::sync::{Arc, Wait};
use std::test::Fail;
use std::thread;
use std::time::Clock;

// Doubles the numbers that it is asked, until it is to end: how many there were.
fn double<R: Wait>(rt: &R, clerk: &Clerk<u64, u64>) -> u64 {
    let mut asked: u64 = 0;
    for _ in rt.forever() {
        let Some(number) = clerk.next(rt) else {
            break;
        };
        asked = asked.saturating_add(1);
        clerk.answer(rt, number.saturating_mul(2));
    }
    asked
}

// Asks so many numbers, each as often as it takes: how many were answered well.
fn ask_all<R: Wait + Clock>(rt: &R, clerk: &Clerk<u64, u64>, from: u64, count: u64) -> u64 {
    let mut well: u64 = 0;
    for number in from..from.saturating_add(count) {
        for _ in 0..1_000 {
            if clerk.ask(rt, number, 200).is_ok() {
                if clerk.take(rt, 30_000) == Some(number.saturating_mul(2)) {
                    well = well.saturating_add(1);
                }
                break;
            }
        }
    }
    well
}

#[test]
fn each_is_answered(rt: HostRuntime) -> Result<(), Fail> {
    let clerk: Arc<Clerk<u64, u64>> = Arc::new(rt.alloc(), Clerk::new())?;
    let (his, first, second) = (
        Arc::try_clone(&clerk)?,
        Arc::try_clone(&clerk)?,
        Arc::try_clone(&clerk)?,
    );
    let doubling = thread::spawn(&rt, move || double(&rt, &*his))?;
    let one = thread::spawn(&rt, move || ask_all(&rt, &*first, 0, 200))?;
    let other = thread::spawn(&rt, move || ask_all(&rt, &*second, 1_000, 200))?;
    assert_eq!(rt; one.join(&rt), 200);
    assert_eq!(rt; other.join(&rt), 200);
    clerk.end(&rt);
    assert_eq!(rt; doubling.join(&rt), 400);
    Ok(())
}

// Whoever asks while another one's question is open gets its own back, until that one has taken its answer.
#[test]
fn one_question_is_open_at_a_time(rt: HostRuntime) {
    let clerk: Clerk<u64, u64> = Clerk::new();
    assert!(rt; clerk.ask(&rt, 1, 0) == Ok(()));
    assert!(rt; clerk.ask(&rt, 2, 0) == Err(2));
    assert!(rt; clerk.next(&rt) == Some(1));
    assert!(rt; clerk.ask(&rt, 2, 30) == Err(2));
    assert!(rt; clerk.take(&rt, 30) == None);
    clerk.answer(&rt, 11);
    assert!(rt; clerk.ask(&rt, 2, 30) == Err(2));
    assert!(rt; clerk.take(&rt, 30) == Some(11));
    assert!(rt; clerk.ask(&rt, 2, 0) == Ok(()));
}

// What was asked before the end is answered, and nothing else.
#[test]
fn what_was_asked_is_answered_at_the_end(rt: HostRuntime) {
    let clerk: Clerk<u64, u64> = Clerk::new();
    assert!(rt; clerk.ask(&rt, 1, 0) == Ok(()));
    clerk.end(&rt);
    assert!(rt; clerk.next(&rt) == Some(1));
    clerk.answer(&rt, 11);
    assert!(rt; clerk.next(&rt) == None);
    assert!(rt; clerk.take(&rt, 0) == Some(11));
    assert!(rt; clerk.ask(&rt, 2, 30_000) == Err(2));
    assert!(rt; clerk.next(&rt) == None);
}

#[test]
fn a_line_is_long_above_the_limit(rt: HostRuntime) {
    assert!(rt; !is_long(0) && !is_long(LONG_LINE_BYTES));
    assert!(rt; is_long(LONG_LINE_BYTES + 1));
}
