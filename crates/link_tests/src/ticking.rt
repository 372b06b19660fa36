//! The time that a node goes by, with a clock that is handed in.
use crate::desk::replica;
use link_streams::Ticker;
use replica_status::{Board, Status};
use std::alloc::Global;
use std::io;
use std::io::ErrorKind;
use std::time::{Clock, Duration};

// A clock that shows so many milliseconds, or can't be read.
#[derive(Drop)]
struct Hand {
    time: Option<u64>,
}

impl Clock for Hand {
    fn monotonic(&self) -> io::Result<Duration> {
        match self.time {
            Some(time) => Ok(Duration::from_millis(time)),
            None => Err(io::Error::from(ErrorKind::Other)),
        }
    }

    fn since_1970(&self) -> io::Result<Duration> {
        Err(io::Error::from(ErrorKind::Other))
    }
}

fn clock_at(time: u64) -> Hand {
    Hand { time: Some(time) }
}

// What the clock shows, and what is handed in: a minute's pause behind the second period, a clock that goes back, and one
// that can't be read.
const TIMES: [(Option<u64>, u64); 8] = [
    (Some(11_500), 11_500),
    (Some(13_100), 13_100),
    (Some(73_100), 16_100),
    (Some(74_600), 19_100),
    (Some(76_100), 22_100),
    (Some(23_000), 23_000),
    (Some(22_000), 23_000),
    (None, 23_000),
];

#[test]
fn a_pause_is_handed_in_bit_by_bit(rt: HostRuntime) {
    let mut ticker = Ticker::new(&clock_at(10_000), 1_500);
    for (time, handed) in TIMES {
        assert!(rt; ticker.next(&Hand { time }) == handed, "{handed}");
    }
}

// The status of `b`, heard each period by the ticker's time, in the period behind a pause of so many milliseconds.
fn status_behind(alloc: Global, pause: u64) -> Option<Status> {
    let own = replica(alloc, "a", 1)?;
    let other = replica(alloc, "b", 1)?;
    let mut board = Board::new(alloc, own);
    let mut ticker = Ticker::new(&clock_at(0), 1_500);
    let time = ticker.next(&clock_at(1_500));
    board.heard(alloc, other, time).ok()?;
    let later = ticker.next(&clock_at(pause.saturating_add(3_000)));
    board.tick(alloc, later).ok()?;
    Some(board.status(&other))
}

#[test]
fn nobody_is_put_down_for_a_pause_of_the_hearer(rt: HostRuntime) {
    for pause in [0, 31_000, 3_600_000] {
        assert!(rt;
            status_behind(rt.alloc(), pause) == Some(Status::Up),
            "{pause}"
        );
    }
}
