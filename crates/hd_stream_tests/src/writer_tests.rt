//! Two desks that are served at once: neither waits for the other's writer.
use crate::serving::board_of;
use hd_board::{Board, Desk};
use hd_protocol::{ServeFault, serve};
use std::alloc::Global;
use std::io::{self, Write};
use std::sync::Wait;
use std::sync::atomic::{AtomicU64, Ordering};
use std::thread;
use std::thread::Threads;

/// The most times that a writer looks for the other.
const MOST_LOOKS: u32 = 10_000_000;

/// A writer that says in its first write that it has begun, and waits there until another has.
#[derive(Drop)]
struct MeetingWriter<'a> {
    written: Vec<u8>,
    begun: &'a AtomicU64,
    met: bool,
}

impl MeetingWriter<'_> {
    /// Says that it has begun, and looks for the other.
    fn meet(&mut self) {
        self.begun.fetch_add(1, Ordering::SeqCst);
        for _ in 0..MOST_LOOKS {
            if self.begun.load(Ordering::SeqCst) >= 2 {
                self.met = true;
                return;
            }
            thread::yield_now();
        }
    }
}

impl Write for MeetingWriter<'_> {
    fn write(&mut self, buf: &[u8]) -> io::Result<usize> {
        if self.written.is_empty() {
            self.meet();
        }
        self.written.extend_from_slice(buf)?;
        Ok(buf.len())
    }

    fn flush(&mut self) -> io::Result<()> {
        Ok(())
    }
}

/// What came of serving a desk to such a writer: whether it met the other, what was written, and how serving ended.
#[derive(Drop)]
struct Meeting {
    met: bool,
    written: Vec<u8>,
    ended: Result<(), ServeFault>,
}

/// Serves a desk one line, to a writer that waits for another.
fn serve_meeting<R: AllocGlobal + Threads + Wait + Sync>(
    rt: &R,
    alloc: Global,
    board: &Board,
    desk: &mut Desk,
    begun: &AtomicU64,
) -> Meeting {
    let mut input: &[u8] = b"strength 0x2\n";
    let mut output = MeetingWriter {
        written: Vec::new(alloc),
        begun,
        met: false,
    };
    let ended = serve(rt, false, &mut input, &mut output, board, desk);
    Meeting {
        met: output.met,
        written: output.written,
        ended,
    }
}

#[test]
fn two_writers_at_once(rt: HostRuntime) {
    let (board, mut desks) = board_of(&rt, 2);
    let begun = AtomicU64::new(0);
    let alloc = rt.alloc();
    let mut second = desks.pop().expect(&rt, "there is a second desk");
    let mut first = desks.pop().expect(&rt, "there is a first desk");
    let (one, two) = thread::join(
        &rt,
        || serve_meeting(&rt, alloc, &board, &mut first, &begun),
        || serve_meeting(&rt, alloc, &board, &mut second, &begun),
    );
    for meeting in [one, two] {
        assert!(rt; meeting.met);
        assert_eq!(rt; meeting.ended, Ok(()));
        assert_eq!(rt; meeting.written.as_slice(), b"ok 1\nSTRONG\n".as_slice());
    }
}
