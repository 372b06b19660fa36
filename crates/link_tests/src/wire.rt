//! A stream that fails.
use std::io;
use std::io::ErrorKind;

// Gives the rest a byte a call, and takes at most eight bytes a call. The call of number `fails`, and no other, fails.
pub(super) struct Wire<'a> {
    pub rest: &'a [u8],
    pub taken: Vec<u8>,
    pub calls: usize,
    pub fails: usize,
}

impl Drop for Wire<'_> {
    fn drop(self) {
        let Wire {
            rest: _,
            taken,
            calls: _,
            fails: _,
        } = self;
        drop(taken);
    }
}

impl<'a> Wire<'a> {
    // Gives these bytes from here on.
    pub fn give(&mut self, rest: &'a [u8]) {
        self.rest = rest;
    }

    fn is_failing(&mut self) -> bool {
        let call = self.calls;
        self.calls = call.saturating_add(1);
        call == self.fails
    }
}

impl io::Read for Wire<'_> {
    fn read(&mut self, buf: &mut [u8]) -> io::Result<usize> {
        if self.is_failing() {
            return Err(io::Error::from(ErrorKind::ConnectionReset));
        }
        let n = buf.len().min(self.rest.len()).min(1);
        buf[..n].copy_from_slice(&self.rest[..n]);
        self.rest = &self.rest[n..];
        Ok(n)
    }
}

impl io::Write for Wire<'_> {
    fn write(&mut self, buf: &[u8]) -> io::Result<usize> {
        if self.is_failing() {
            return Err(io::Error::from(ErrorKind::BrokenPipe));
        }
        let n = buf.len().min(8);
        if self.taken.extend_from_slice(&buf[..n]).is_err() {
            return Err(io::Error::from(ErrorKind::OutOfMemory));
        }
        Ok(n)
    }

    fn flush(&mut self) -> io::Result<()> {
        Ok(())
    }
}
