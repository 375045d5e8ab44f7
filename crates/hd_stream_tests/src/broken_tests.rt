//! One session with a stream that breaks after each number of bytes.
use crate::serving::{Served, board_of};
use crate::streams::{FailingReader, FailingWriter};
use hd_protocol::{ServeFault, serve};
use std::process::Abort;
use std::random::RandomSource;
use std::sync::Wait;
use std::thread::Threads;

/// The lines of a session.
const LINES: [&str; 8] = [
    "strength 0x2\n",
    "cut 0x1 e0\n",
    "strength 0x2\n",
    "fell 0\n",
    "undo\n",
    "undo 0\n",
    "events\n",
    "quit\n",
];

/// Their replies.
const REPLIES: [&str; 8] = [
    "ok 1\nSTRONG\n",
    "ok 1\nevent 0 fell 1 back 0\n",
    "ok 1\nUNREACHABLE\n",
    "ok 1\n0x2\n",
    "ok 1\nevent 1 fell 0 back 1\n",
    "no NotLive\n",
    "ok 2\n0 0 cut 0x1 e0 undone\n1 0 undo 0\n",
    "ok 0\n",
];

/// How many events the log has after no line, one line, and so on.
const EVENTS: [u32; 9] = [0, 0, 1, 1, 1, 2, 2, 2, 2];

/// The first `count` of some bytes.
fn first(bytes: &[u8], count: usize) -> &[u8] {
    if count < bytes.len() {
        &bytes[..count]
    } else {
        bytes
    }
}

/// How many of some texts, one after another, end within `bytes` bytes.
fn whole_within(texts: &[&str], bytes: usize) -> usize {
    let mut count = 0usize;
    let mut len = 0usize;
    for text in texts {
        len = len.saturating_add(text.len());
        if len <= bytes {
            count = count.saturating_add(1);
        }
    }
    count
}

/// How many bytes the first `count` of some texts have.
fn len_of_first(texts: &[&str], count: usize) -> usize {
    let mut len = 0usize;
    let mut left = count;
    for text in texts {
        if left > 0 {
            len = len.saturating_add(text.len());
            left -= 1;
        }
    }
    len
}

/// What a session over a reader that fails after some bytes comes to, and how many events the desk has seen then.
fn read_some<R: Abort + AllocGlobal + RandomSource + Threads + Wait + Sync>(
    rt: &R,
    input: &[u8],
) -> (Served, u32) {
    let (board, mut desks) = board_of(rt, 1);
    let mut desk = desks.pop().expect(rt, "there is a desk");
    let mut reader = FailingReader { rest: input };
    let mut written = Vec::new(rt.alloc());
    let ended = serve(rt, false, &mut reader, &mut written, &board, &mut desk);
    (Served { written, ended }, desk.seen().len())
}

/// The same over a writer that fails after `room` bytes.
fn write_some<R: Abort + AllocGlobal + RandomSource + Threads + Wait + Sync>(
    rt: &R,
    input: &[u8],
    room: usize,
) -> (Served, u32) {
    let (board, mut desks) = board_of(rt, 1);
    let mut desk = desks.pop().expect(rt, "there is a desk");
    let mut reader = input;
    let mut writer = FailingWriter {
        taken: Vec::new(rt.alloc()),
        room,
        fails: true,
    };
    let ended = serve(rt, false, &mut reader, &mut writer, &board, &mut desk);
    let written = writer.taken;
    (Served { written, ended }, desk.seen().len())
}

#[test]
fn reader_breaks_at_each_byte(rt: HostRuntime) {
    let input = LINES
        .concat(rt.alloc())
        .expect(&rt, "the lines are put together");
    let replies = REPLIES
        .concat(rt.alloc())
        .expect(&rt, "the replies are put together");
    for k in 0..input.len() {
        let (served, events) = read_some(&rt, first(input.as_bytes(), k));
        let lines = whole_within(&LINES, k);
        let wanted = first(replies.as_bytes(), len_of_first(&REPLIES, lines));
        assert_eq!(rt; served.ended, Err(ServeFault::Read));
        assert_eq!(rt; served.written.as_slice(), wanted);
        assert_eq!(rt; Some(&events), EVENTS.get(lines));
    }
}

#[test]
fn writer_breaks_at_each_byte(rt: HostRuntime) {
    let input = LINES
        .concat(rt.alloc())
        .expect(&rt, "the lines are put together");
    let replies = REPLIES
        .concat(rt.alloc())
        .expect(&rt, "the replies are put together");
    for k in 0..replies.len() {
        let (served, events) = write_some(&rt, input.as_bytes(), k);
        let lines = whole_within(&REPLIES, k).saturating_add(1);
        assert_eq!(rt; served.ended, Err(ServeFault::Write));
        assert_eq!(rt; served.written.as_slice(), first(replies.as_bytes(), k));
        assert_eq!(rt; Some(&events), EVENTS.get(lines));
    }
}

/// A line that is too long is answered once it has ended, so a reader that fails before leaves no reply.
#[test]
fn reader_breaks_in_a_line_too_long(rt: HostRuntime) {
    let mut line = Vec::new(rt.alloc());
    line.resize(4_097, b'x').expect(&rt, "the line is made");
    let (served, events) = read_some(&rt, line.as_slice());
    assert_eq!(rt; served.ended, Err(ServeFault::Read));
    assert_eq!(rt; served.written.len(), 0);
    assert_eq!(rt; events, 0);
}
