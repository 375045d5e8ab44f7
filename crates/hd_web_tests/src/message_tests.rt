//! Messages of one desk.
use crate::clients::{answers, is_closed, quits, send, take_desk};
use crate::servers::{has_printed, listen, serve_desks};
use std::alloc::Global;
use std::net::{Net, TcpListener, TcpStream};
use std::process::Abort;
use std::thread;

/// Messages, and what they are answered, in their order.
const MESSAGES: [(&[u8], &[u8]); 12] = [
    (b"strength 0x2", b"ok 1\nSTRONG\n"),
    (b"strength 0x2\n", b"ok 1\nSTRONG\n"),
    (b"strength 0x2\r\n", b"ok 1\nSTRONG\n"),
    (b"strength 0x2\nmark", b"no BadArgument\n"),
    (b"mark\nmark", b"no BadArgument\n"),
    (b"nothing\n\n", b"no BadArgument\n"),
    (b"", b"no UnknownCommand\n"),
    (b"\n", b"no UnknownCommand\n"),
    (b"quit now", b"no BadArgument\n"),
    (b"cut 0x1 e0", b"ok 1\nevent 0 fell 1 back 0\n"),
    (b"strength 0x2", b"ok 1\nUNREACHABLE\n"),
    (b"mark", b"ok 1\nmark 1\n"),
];

/// How many messages are answered otherwise. At the end the desk ends.
fn wrong_messages<R: Abort + Net<Listener = TcpListener, Stream = TcpStream>>(
    rt: &R,
    alloc: Global,
    port: u16,
) -> usize {
    let mut wrong: usize = 0;
    let mut desk = take_desk(rt, alloc, port);
    for (message, reply) in MESSAGES {
        if !answers(rt, alloc, &mut desk, message, reply) {
            wrong = wrong.saturating_add(1);
        }
    }
    if !quits(rt, alloc, &mut desk) {
        wrong = wrong.saturating_add(1);
    }
    wrong
}

#[test]
fn messages_in_their_order(rt: HostRuntime) {
    let (listener, port) = listen(&rt);
    let alloc = rt.alloc();
    let (served, wrong) = thread::join(
        &rt,
        || serve_desks(&rt, alloc, listener, port, 1),
        || wrong_messages(&rt, alloc, port),
    );
    assert_eq!(rt; wrong, 0);
    assert!(rt; has_printed(served, b"0 0 cut 0x1 e0 live\n"));
}

/// Whether messages of 4,097 bytes and more are too long for a line, and the session goes on; and whether a binary message closes
/// with 1003. At the end the desk ends.
fn long_and_binary<R: Abort + Net<Listener = TcpListener, Stream = TcpStream>>(
    rt: &R,
    alloc: Global,
    port: u16,
) -> bool {
    let mut desk = take_desk(rt, alloc, port);
    let mut right = true;
    for count in [4_097, 65_536, 65_537, 100_000] {
        let spaces = vec![in alloc; b' '; count].expect(rt, "there is room");
        right = right && answers(rt, alloc, &mut desk, spaces.as_slice(), b"no LineTooLong\n");
    }
    right = right && answers(rt, alloc, &mut desk, b"strength 0x1", b"ok 1\nSTRONG\n");
    send(rt, alloc, &mut desk, 2, b"quit");
    right = right && is_closed(rt, alloc, &mut desk, &[0x03, 0xeb]);
    drop(desk);
    let mut again = take_desk(rt, alloc, port);
    quits(rt, alloc, &mut again) && right
}

#[test]
fn long_and_binary_messages(rt: HostRuntime) {
    let (listener, port) = listen(&rt);
    let alloc = rt.alloc();
    let (served, right) = thread::join(
        &rt,
        || serve_desks(&rt, alloc, listener, port, 1),
        || long_and_binary(&rt, alloc, port),
    );
    assert!(rt; right);
    assert!(rt; has_printed(served, b""));
}
