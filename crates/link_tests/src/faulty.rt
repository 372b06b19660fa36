//! Streams that fail.
use std::io;
use std::io::ErrorKind;

// Gives the rest a byte a call, after some interrupted calls each. The call of number `fails` fails, and no other.
#[derive(Drop)]
pub(super) struct Source<'a> {
    pub rest: &'a [u8],
    pub interrupts: u32,
    pub waited: u32,
    pub calls: usize,
    pub fails: usize,
}

impl io::Read for Source<'_> {
    fn read(&mut self, buf: &mut [u8]) -> io::Result<usize> {
        if self.calls == self.fails {
            self.calls = self.calls.saturating_add(1);
            return Err(io::Error::from(ErrorKind::ConnectionReset));
        }
        if self.waited < self.interrupts {
            self.waited += 1;
            return Err(io::Error::from(ErrorKind::Interrupted));
        }
        self.waited = 0;
        self.calls = self.calls.saturating_add(1);
        let n = buf.len().min(self.rest.len()).min(1);
        buf[..n].copy_from_slice(&self.rest[..n]);
        self.rest = &self.rest[n..];
        Ok(n)
    }
}

// Takes at most `step` bytes a call. The call of number `fails`, and no other, takes none, or fails so.
#[derive(Drop)]
pub(super) struct Sink {
    pub taken: Vec<u8>,
    pub step: usize,
    pub calls: usize,
    pub fails: usize,
    pub so: Option<ErrorKind>,
}

impl io::Write for Sink {
    fn write(&mut self, buf: &[u8]) -> io::Result<usize> {
        let call = self.calls;
        self.calls = self.calls.saturating_add(1);
        if call == self.fails {
            return match self.so {
                Some(kind) => Err(io::Error::from(kind)),
                None => Ok(0),
            };
        }
        let n = buf.len().min(self.step);
        if self.taken.extend_from_slice(&buf[..n]).is_err() {
            return Err(io::Error::from(ErrorKind::OutOfMemory));
        }
        Ok(n)
    }

    fn flush(&mut self) -> io::Result<()> {
        Ok(())
    }
}
