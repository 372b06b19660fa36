//! The stream of a link: a socket that is given up after a silence, where a line takes too long, or once the link is to end.
ghost use Rattle.std.specs.Prelude.{◌≡◌};
ghost use Rattle.link_streams.specs.Lines.{is_long_line};

use crate::clerk::Clerk;
use crate::stopping::{Stopping, time_behind};
use memchr::memchr;
use std::alloc::Global;
use std::io;
use std::io::{BufRead, BufReader, ErrorKind, Read, Write};
use std::net::TcpStream;
use std::sync::Wait;
use std::sync::atomic::{AtomicU64, Ordering};
use std::time::{Clock, Duration};

/// How long one look at a socket lasts, in milliseconds.
const LOOK_MILLISECONDS: u64 = 200;

/// After so many looks that find nothing a link is given up: 30,000 milliseconds.
pub const MAX_LOOKS: u32 = 150;

/// How long the first line of a link that came in may take, in milliseconds.
pub const HELLO_MILLISECONDS: u64 = 5_000;

/// How many bytes the first line of a link that came in may have: so much is read for somebody who isn't known yet.
pub const MAX_HELLO_BYTES: usize = 4_096;

/// How long any other line may take, in milliseconds, from the end of the one before it.
pub const LINE_MILLISECONDS: u64 = 30_000;

/// A line of more bytes is a long one, its line feed among them. An answer to a line that was written has so many at most.
pub const LONG_LINE_BYTES: usize = 65_536;

/// Whether a line of so many bytes is a long one.
pub fn is_long(bytes: usize) -> bool
    ensures { result ≡ is_long_line bytes }
{
    bytes > LONG_LINE_BYTES
}

/// The number of the link that came last from a node, and that of a link which ends once another one came.
#[derive(Clone, Copy)]
struct Newest<'a> {
    newest: &'a AtomicU64,
    number: u64,
}

/// A socket whose reads and writes last for `MAX_LOOKS` looks at most, until the line under way is late, and once the links
/// are to end for so many looks in all as are left.
#[derive(Drop)]
struct Patient<'a, R: Clock> {
    rt: &'a R,
    socket: TcpStream,
    stopping: &'a Stopping,
    /// How many looks that find nothing it may still have once the links are to end.
    last_looks: u32,
    /// Whether a read has met the end of the stream.
    is_ended: bool,
    /// The time from which on the line under way is late.
    deadline: u64,
    newest: Option<Newest<'a>>,
}

// Whether a look found nothing, or was interrupted.
fn is_silence(kind: ErrorKind) -> bool {
    matches!(
        kind,
        ErrorKind::WouldBlock | ErrorKind::TimedOut | ErrorKind::Interrupted
    )
}

impl<R: Clock> Patient<'_, R> {
    // Whether a link of the same node came in behind this one.
    fn is_replaced(&self) -> bool {
        match self.newest {
            Some(link) => link.newest.load(Ordering::SeqCst) > link.number,
            None => false,
        }
    }

    // Whether a look that found nothing was the last one, since this link or all are to end.
    fn gives_up(&mut self) -> bool {
        if self.is_replaced() {
            return true;
        }
        if !self.stopping.is_stopped() {
            return false;
        }
        if self.last_looks == 0 {
            return true;
        }
        self.last_looks -= 1;
        false
    }

    // The next line may take so many milliseconds.
    fn begins(&mut self, milliseconds: u64) {
        self.deadline = time_behind(self.rt, 0).saturating_add(milliseconds);
    }

    // Whether the line under way is late. Where the clock can't be read it is not.
    fn is_late(&self) -> bool {
        time_behind(self.rt, 0) >= self.deadline
    }

    // Whether nothing more is read or asked: the line under way is late, or a link of the same node came in behind this one.
    fn is_over(&self) -> bool {
        self.is_late() || self.is_replaced()
    }
}

impl<R: Clock> Read for Patient<'_, R> {
    fn read(&mut self, buf: &mut [u8]) -> io::Result<usize> {
        for _ in 0..MAX_LOOKS {
            if self.is_over() {
                break;
            }
            match self.socket.read(buf) {
                Err(e) if is_silence(e.kind()) => {
                    if self.gives_up() {
                        break;
                    }
                }
                Ok(0) => {
                    self.is_ended = true;
                    return Ok(0);
                }
                done => return done,
            }
        }
        Err(io::Error::from(ErrorKind::TimedOut))
    }
}

impl<R: Clock> Write for Patient<'_, R> {
    fn write(&mut self, buf: &[u8]) -> io::Result<usize> {
        for _ in 0..MAX_LOOKS {
            if self.is_late() {
                break;
            }
            match self.socket.write(buf) {
                Err(e) if is_silence(e.kind()) => {
                    if self.gives_up() {
                        break;
                    }
                }
                done => return done,
            }
        }
        Err(io::Error::from(ErrorKind::TimedOut))
    }

    fn flush(&mut self) -> io::Result<()> {
        self.socket.flush()
    }
}

// The first of these bytes, so many at most, up to the line feed among them, which is the last.
fn up_to_line_feed(bytes: &[u8], most: usize) -> &[u8] {
    let bytes = &bytes[..bytes.len().min(most)];
    match memchr(b'\n', bytes) {
        Some(at) => &bytes[..at + 1],
        None => bytes,
    }
}

/// What became of a question.
#[derive(Drop)]
pub enum Asking<Q> {
    /// The clerk has it.
    Asked,
    /// The clerk has another one.
    Waits(Q),
    /// It isn't asked any more.
    GivenUp,
}

/// The stream of a link. Each line that is read or written is to be whole within a time, however it trickles.
#[derive(Drop)]
pub struct LinkStream<'a, R: Clock> {
    reader: BufReader<Patient<'a, R>>,
    /// Whether it was written to last.
    is_writing: bool,
    /// How many bytes may still be read of the line under way.
    left: usize,
}

impl<'a, R: Clock> LinkStream<'a, R> {
    /// The stream over this socket, which may be one that never blocks. Once the links are to end it looks so many times
    /// more for what was begun, each for 200 milliseconds.
    pub fn new(
        rt: &'a R,
        alloc: Global,
        socket: TcpStream,
        stopping: &'a Stopping,
        last_looks: u32,
    ) -> io::Result<LinkStream<'a, R>> {
        let look = Duration::from_millis(LOOK_MILLISECONDS);
        socket.set_nonblocking(false)?;
        socket.set_nodelay(true)?;
        socket.set_read_timeout(Some(look))?;
        socket.set_write_timeout(Some(look))?;
        let patient = Patient {
            rt,
            socket,
            stopping,
            last_looks,
            is_ended: false,
            deadline: time_behind(rt, 0).saturating_add(LINE_MILLISECONDS),
            newest: None,
        };
        let reader = BufReader::new(alloc, patient)?;
        Ok(LinkStream {
            reader,
            is_writing: false,
            left: usize::MAX,
        })
    }

    /// Whether the other end has closed the link: a read has met the end of the stream.
    pub fn is_ended(&self) -> bool {
        self.reader.get_ref().is_ended
    }

    /// The line that is read next is the first one: it is to be short, and to come soon.
    pub fn awaits_hello(&mut self) {
        self.left = MAX_HELLO_BYTES;
        self.is_writing = false;
        self.reader.get_mut().begins(HELLO_MILLISECONDS);
    }

    /// The line that is read next is one behind the first.
    pub fn awaits_line(&mut self) {
        self.left = usize::MAX;
        self.is_writing = false;
        self.reader.get_mut().begins(LINE_MILLISECONDS);
    }

    // The line that is read next answers one that was written: no answer is long.
    fn awaits_answer(&mut self) {
        self.awaits_line();
        self.left = LONG_LINE_BYTES;
    }

    // The line is read from now on: an answer, where one was written, and of no more bytes than it may have.
    fn begins_to_read(&mut self) -> io::Result<()> {
        if self.is_writing {
            self.awaits_answer();
        }
        if self.left == 0 {
            return Err(io::Error::from(ErrorKind::InvalidData));
        }
        Ok(())
    }

    /// Reads on: what a read brings of the next line, up to its line feed, which is the last of its bytes, or up to so many in
    /// all, or to the end. Whether nothing more of it comes.
    pub fn reads_on(&mut self, line: &mut Vec<u8>, most: usize) -> io::Result<bool> {
        let room = most.saturating_sub(line.len());
        if room == 0 {
            return Ok(true);
        }
        self.begins_to_read()?;
        let next = up_to_line_feed(self.reader.fill_buf()?, room.min(self.left));
        let taken = next.len();
        let is_whole = next.is_empty() || next.last() == Some(&b'\n');
        line.extend_from_slice(next)?;
        self.reader.consume(taken);
        self.left = self.left.saturating_sub(taken);
        Ok(is_whole || taken == room)
    }

    /// Asks the clerk about the line that was read, if it has nothing else to do within a look. Who asks waits for others that
    /// do, so it holds no lock. A link that was replaced asks nothing, nor does one whose line is late.
    pub fn asks<Q: Drop, A: Drop>(&mut self, clerk: &Clerk<Q, A>, question: Q) -> Asking<Q>
    where
        R: Wait,
    {
        let patient = self.reader.get_mut();
        if patient.is_over() {
            return Asking::GivenUp;
        }
        match clerk.ask(patient.rt, question, LOOK_MILLISECONDS) {
            Ok(()) => Asking::Asked,
            Err(_) if patient.gives_up() => Asking::GivenUp,
            Err(question) => Asking::Waits(question),
        }
    }

    /// The clerk's answer to what was asked, if it comes within a look.
    pub fn takes<Q: Drop, A: Drop>(&mut self, clerk: &Clerk<Q, A>) -> Option<A>
    where
        R: Wait,
    {
        clerk.take(self.reader.get_ref().rt, LOOK_MILLISECONDS)
    }

    /// Whether a newer link of the same node came in.
    pub fn is_replaced(&self) -> bool {
        self.reader.get_ref().is_replaced()
    }

    /// The link has this number, and ends once the newest one has a higher.
    pub fn ends_behind(&mut self, newest: &'a AtomicU64, number: u64) {
        self.reader.get_mut().newest = Some(Newest { newest, number });
    }
}

impl<R: Clock> Read for LinkStream<'_, R> {
    fn read(&mut self, buf: &mut [u8]) -> io::Result<usize> {
        self.begins_to_read()?;
        let read = self.reader.read(buf)?;
        self.left = self.left.saturating_sub(read);
        Ok(read)
    }
}

impl<R: Clock> Write for LinkStream<'_, R> {
    fn write(&mut self, buf: &[u8]) -> io::Result<usize> {
        if !self.is_writing {
            self.is_writing = true;
            self.reader.get_mut().begins(LINE_MILLISECONDS);
        }
        self.reader.get_mut().write(buf)
    }

    fn flush(&mut self) -> io::Result<()> {
        self.reader.get_mut().flush()
    }
}
