//! A thread that does for others what is to be done one at a time.
use std::mem;
use std::sync::{Condvar, CondvarTimeouts, Mutex, Wait};
use std::time::{Clock, Duration};

// What lies before a clerk.
#[derive(Drop)]
enum Work<Q, A> {
    Nothing,
    Question(Q),
    // The clerk has it in hand.
    UnderWay,
    Answer(A),
}

impl<Q, A> Work<Q, A> {
    fn is_nothing(&self) -> bool {
        matches!(self, Work::Nothing)
    }

    fn is_question(&self) -> bool {
        matches!(self, Work::Question(_))
    }

    fn is_answer(&self) -> bool {
        matches!(self, Work::Answer(_))
    }
}

#[derive(Drop)]
struct Desk<Q, A> {
    work: Work<Q, A>,
    has_ended: bool,
}

/// What a thread is asked by others, each of which waits for its answer. It has one question at a time, so that what it
/// takes to answer one is taken once, however many ask.
pub struct Clerk<Q, A> {
    desk: Mutex<Desk<Q, A>>,
    bell: Condvar,
}

impl<Q: Drop, A: Drop> Drop for Clerk<Q, A> {
    fn drop(self) {
        let Clerk { desk, bell } = self;
        drop(desk);
        drop(bell);
    }
}

impl<Q: Drop, A: Drop> Clerk<Q, A> {
    /// Nothing is asked yet.
    pub fn new() -> Clerk<Q, A> {
        let desk = Desk {
            work: Work::Nothing,
            has_ended: false,
        };
        Clerk {
            desk: Mutex::new(desk),
            bell: Condvar::new(),
        }
    }

    /// Asks, where nobody else does any more within so many milliseconds: else the question comes back. Who asked takes the
    /// answer.
    pub fn ask<R: Wait + Clock>(&self, rt: &R, question: Q, milliseconds: u64) -> Result<(), Q> {
        let first = self.desk.lock(rt);
        let time = Duration::from_millis(milliseconds);
        let (woken, _) = self.bell.wait_timeout_while(rt, first, time, |desk| {
            !desk.has_ended && !desk.work.is_nothing()
        });
        let mut guard = woken;
        let desk = &mut *guard;
        if desk.has_ended || !desk.work.is_nothing() {
            return Err(question);
        }
        desk.work = Work::Question(question);
        drop(guard);
        self.bell.notify_all();
        Ok(())
    }

    /// Waits for the answer to what was asked, for so many milliseconds, and takes it. From then on others may ask.
    pub fn take<R: Wait + Clock>(&self, rt: &R, milliseconds: u64) -> Option<A> {
        let first = self.desk.lock(rt);
        let time = Duration::from_millis(milliseconds);
        let (woken, _) = self
            .bell
            .wait_timeout_while(rt, first, time, |desk| !desk.work.is_answer());
        let mut guard = woken;
        let desk = &mut *guard;
        match mem::replace(&mut desk.work, Work::Nothing) {
            Work::Answer(answer) => {
                drop(guard);
                self.bell.notify_all();
                Some(answer)
            }
            work => {
                desk.work = work;
                None
            }
        }
    }

    /// The next question, which the clerk is to answer, or none once it is to end and nobody waits for an answer.
    pub fn next<R: Wait>(&self, rt: &R) -> Option<Q> {
        let first = self.desk.lock(rt);
        let mut guard = self.bell.wait_while(rt, first, |desk| {
            !desk.has_ended && !desk.work.is_question()
        });
        let desk = &mut *guard;
        match mem::replace(&mut desk.work, Work::UnderWay) {
            Work::Question(question) => Some(question),
            work => {
                desk.work = work;
                None
            }
        }
    }

    /// Answers the question that came last.
    pub fn answer<R: Wait>(&self, rt: &R, answer: A) {
        let mut guard = self.desk.lock(rt);
        guard.work = Work::Answer(answer);
        drop(guard);
        self.bell.notify_all();
    }

    /// Nobody may ask any more. What was asked is still answered.
    pub fn end<R: Wait>(&self, rt: &R) {
        let mut guard = self.desk.lock(rt);
        guard.has_ended = true;
        drop(guard);
        self.bell.notify_all();
    }
}
