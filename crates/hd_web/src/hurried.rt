//! Reading a stream up to a deadline.
use std::io::{self, ErrorKind, Read};
use std::net::TcpStream;
use std::sync::atomic::{AtomicBool, Ordering};
use std::time::{Clock, Duration, Instant};

/// How many milliseconds are waited before it is looked whether all sessions have ended.
const TURN: u64 = 250;

/// The most turns of a read: more than any deadline here has.
const MOST_TURNS: u32 = 1024;

/// A stream whose reads fail once a deadline has passed, or a flag says that nothing is to be waited for.
#[derive(Drop)]
pub(crate) struct Hurried<'a, R> {
    rt: &'a R,
    stream: &'a TcpStream,
    deadline: Instant,
    is_over: &'a AtomicBool,
}

impl<'a, R: Clock> Hurried<'a, R> {
    /// A stream that may be read for `within` from now on.
    ///
    /// # Errors
    ///
    /// The clock can't be read.
    pub(crate) fn new(
        rt: &'a R,
        stream: &'a TcpStream,
        within: Duration,
        is_over: &'a AtomicBool,
    ) -> io::Result<Hurried<'a, R>> {
        let Some(deadline) = Instant::now(rt)?.checked_add(within) else {
            return Err(io::Error::from(ErrorKind::TimedOut));
        };
        Ok(Hurried {
            rt,
            stream,
            deadline,
            is_over,
        })
    }

    /// Waits for the stream up to the next turn, and no longer than to the deadline.
    ///
    /// # Errors
    ///
    /// The deadline has passed, or nothing is to be waited for.
    fn set_turn(&self) -> io::Result<()> {
        let now = Instant::now(self.rt)?;
        let left = self.deadline.saturating_duration_since(now);
        if left.is_zero() || self.is_over.load(Ordering::SeqCst) {
            return Err(io::Error::from(ErrorKind::TimedOut));
        }
        self.stream
            .set_read_timeout(Some(left.min(Duration::from_millis(TURN))))
    }
}

impl<R: Clock> Read for Hurried<'_, R> {
    fn read(&mut self, buf: &mut [u8]) -> io::Result<usize> {
        for _ in 0..MOST_TURNS {
            self.set_turn()?;
            let mut stream = self.stream;
            match stream.read(buf) {
                Ok(count) => return Ok(count),
                Err(error) => match error.kind() {
                    ErrorKind::WouldBlock | ErrorKind::TimedOut | ErrorKind::Interrupted => {}
                    _ => return Err(error),
                },
            }
        }
        Err(io::Error::from(ErrorKind::TimedOut))
    }
}
