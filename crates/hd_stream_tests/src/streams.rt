//! Streams that fail, for the tests.
use std::io::{self, BufRead, Read, Write};

/// A reader that gives some bytes and then fails.
#[derive(Drop)]
pub struct FailingReader<'a> {
    pub rest: &'a [u8],
}

impl Read for FailingReader<'_> {
    fn read(&mut self, _buf: &mut [u8]) -> io::Result<usize> {
        Err(io::Error::from(io::ErrorKind::Other))
    }
}

impl BufRead for FailingReader<'_> {
    fn fill_buf(&mut self) -> io::Result<&[u8]> {
        if self.rest.is_empty() {
            return Err(io::Error::from(io::ErrorKind::Interrupted));
        }
        Ok(self.rest)
    }

    fn consume(&mut self, amount: usize) {
        let amount = amount.min(self.rest.len());
        self.rest = &self.rest[amount..];
    }
}

/// A writer that takes `room` bytes and then fails, or then takes none.
#[derive(Drop)]
pub struct FailingWriter {
    pub taken: Vec<u8>,
    pub room: usize,
    pub fails: bool,
}

impl Write for FailingWriter {
    fn write(&mut self, buf: &[u8]) -> io::Result<usize> {
        let count = buf.len().min(self.room);
        if count == 0 && self.fails {
            return Err(io::Error::from(io::ErrorKind::Interrupted));
        }
        self.taken.extend_from_slice(&buf[..count])?;
        self.room -= count;
        Ok(count)
    }

    fn flush(&mut self) -> io::Result<()> {
        Ok(())
    }
}
