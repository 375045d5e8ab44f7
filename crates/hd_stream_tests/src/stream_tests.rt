//! Streams that fail, hold what they are given, or never end, and the texts of what ended a run.
use crate::streams::{FailingReader, FailingWriter};
use hd_protocol::{RunFault, SAMPLE, ServeFault, run_bytes, stat_bytes};
use hd_terms::{Cause, Mode, ReadFault};
use std::io::{self, BufRead, Read, Write};

#[test]
fn reader_that_fails(rt: HostRuntime) {
    let mut written = Vec::new(rt.alloc());
    let ended = run_bytes(
        &rt,
        &SAMPLE,
        1,
        Mode::Direct,
        &mut FailingReader {
            rest: b"strength 0x",
        },
        &mut written,
    );
    assert_eq!(rt; ended, Err(RunFault::Serve(ServeFault::Read)));
    assert_eq!(rt; written.len(), 0);
    let ended = run_bytes(
        &rt,
        &SAMPLE,
        1,
        Mode::Direct,
        &mut FailingReader {
            rest: b"strength 0x2\nstrength 0x",
        },
        &mut written,
    );
    assert_eq!(rt; ended, Err(RunFault::Serve(ServeFault::Read)));
    assert_eq!(rt; written.as_slice(), b"ok 1\nSTRONG\n".as_slice());
}

/// A reader that gives one space at a time, without end, and counts them.
#[derive(Drop)]
struct Spaces {
    given: u64,
}

impl Read for Spaces {
    fn read(&mut self, _buf: &mut [u8]) -> io::Result<usize> {
        Err(io::Error::from(io::ErrorKind::Other))
    }
}

impl BufRead for Spaces {
    fn fill_buf(&mut self) -> io::Result<&[u8]> {
        self.given = self.given.saturating_add(1);
        Ok(b" ")
    }

    fn consume(&mut self, _amount: usize) {}
}

#[test]
fn reader_without_end(rt: HostRuntime) {
    let mut written = Vec::new(rt.alloc());
    let mut spaces = Spaces { given: 0 };
    let ended = run_bytes(&rt, &SAMPLE, 1, Mode::Direct, &mut spaces, &mut written);
    assert_eq!(rt; ended, Err(RunFault::Serve(ServeFault::Read)));
    assert_eq!(rt; spaces.given, 16_777_216);
    assert_eq!(rt; written.len(), 0);
}

#[test]
fn writer_that_fails(rt: HostRuntime) {
    for fails in [true, false] {
        let mut output = FailingWriter {
            taken: Vec::new(rt.alloc()),
            room: 7,
            fails,
        };
        let mut input: &[u8] = b"strength 0x2\nstrength 0x1\n";
        let ended = run_bytes(&rt, &SAMPLE, 1, Mode::Direct, &mut input, &mut output);
        assert_eq!(rt; ended, Err(RunFault::Serve(ServeFault::Write)));
        assert_eq!(rt; output.taken.as_slice(), b"ok 1\nST".as_slice());
    }
}

#[test]
fn stat_that_cannot_be_written(rt: HostRuntime) {
    let mut output = FailingWriter {
        taken: Vec::new(rt.alloc()),
        room: 14,
        fails: true,
    };
    let bytes = Vec::from_array(rt.alloc(), SAMPLE).expect(&rt, "the dump is copied");
    let ended = stat_bytes(&rt, bytes, 1, Mode::Direct, &mut output);
    assert_eq!(rt; ended, Err(RunFault::Serve(ServeFault::Write)));
    assert_eq!(rt; output.taken.as_slice(), b"objects 2\nroot".as_slice());
}

/// A writer that hands on what it has taken when it is flushed, and can be flushed `flushes` times.
#[derive(Drop)]
struct HoldingWriter {
    taken: Vec<u8>,
    handed_on: usize,
    flushes: u32,
}

impl Write for HoldingWriter {
    fn write(&mut self, buf: &[u8]) -> io::Result<usize> {
        self.taken.extend_from_slice(buf)?;
        Ok(buf.len())
    }

    fn flush(&mut self) -> io::Result<()> {
        if self.flushes == 0 {
            return Err(io::Error::from(io::ErrorKind::Interrupted));
        }
        self.flushes -= 1;
        self.handed_on = self.taken.len();
        Ok(())
    }
}

#[test]
fn writer_that_holds(rt: HostRuntime) {
    for (flushes, handed_on, ended) in [
        (3, 12, Ok(())),
        (2, 0, Err(RunFault::Serve(ServeFault::Write))),
        (0, 0, Err(RunFault::Serve(ServeFault::Write))),
    ] {
        let mut output = HoldingWriter {
            taken: Vec::new(rt.alloc()),
            handed_on: 0,
            flushes,
        };
        let mut input: &[u8] = b"strength 0x2";
        assert_eq!(rt;
            run_bytes(&rt, &SAMPLE, 1, Mode::Direct, &mut input, &mut output),
            ended
        );
        assert_eq!(rt; output.handed_on, handed_on);
    }
}

#[test]
fn texts_of_faults(rt: HostRuntime) {
    let truncated = RunFault::Dump(ReadFault {
        cause: Cause::Truncated,
        offset: 31,
    });
    let rows = [
        (truncated, "Truncated at 31"),
        (RunFault::Memory, "OutOfMemory"),
        (
            RunFault::Serve(ServeFault::Read),
            "cannot read standard input",
        ),
        (RunFault::Serve(ServeFault::Write), "cannot write"),
        (RunFault::Serve(ServeFault::OutOfMemory), "OutOfMemory"),
        (RunFault::Close, "cannot close"),
    ];
    for (fault, text) in rows {
        let said = fault
            .to_string(rt.alloc())
            .expect(&rt, "the fault has a text");
        assert_eq!(rt; said.as_str(), text);
    }
}
