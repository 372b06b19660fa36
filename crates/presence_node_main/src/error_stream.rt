//! Standard error as a writer.
use std::io::ErrorKind;
use std::{io, str};

/// Standard error, as a writer of texts.
#[derive(Drop)]
pub(crate) struct ErrorStream<'a, R> {
    pub to: &'a R,
}

impl<R: Eprint> io::Write for ErrorStream<'_, R> {
    fn write(&mut self, buf: &[u8]) -> io::Result<usize> {
        let Ok(text) = str::from_utf8(buf) else {
            return Err(io::Error::from(ErrorKind::InvalidData));
        };
        self.to.eprint(text)?;
        Ok(buf.len())
    }

    fn flush(&mut self) -> io::Result<()> {
        Ok(())
    }
}
