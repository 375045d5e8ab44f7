//! Desks that are taken again, two desks, and connections that stay silent.
use crate::clients::{answers, ask_desk, connect, quits, send, take_desk};
use crate::servers::{has_printed, listen, serve_desks};
use std::alloc::Global;
use std::io::{Read, Write};
use std::net::{Net, TcpListener, TcpStream};
use std::process::Abort;
use std::thread;

/// Messages of a first connection, and what they are answered: names, a mark, and a private part with an edit in it.
const FIRST: [(&[u8], &[u8]); 4] = [
    (b"names on", b"ok 0\n"),
    (b"mark", b"ok 1\nmark 1\n"),
    (b"private", b"ok 1\nprivate 0\n"),
    (b"cut 0x1 e0", b"ok 1\nevent 0 fell 1 back 0\n"),
];

/// Messages of a second one, which takes the desk again: it has the names, the mark and the private part, and then goes back.
const SECOND: [(&[u8], &[u8]); 6] = [
    (b"fell 1", b"ok 1\n0x2 ?\n"),
    (b"strength 0x2", b"ok 1\nUNREACHABLE\n"),
    (b"private", b"no AlreadyPrivate\n"),
    (b"back", b"ok 1\nback 1\n"),
    (b"strength 0x2", b"ok 1\nSTRONG\n"),
    (b"mark", b"ok 1\nmark 2\n"),
];

/// How many messages are answered otherwise.
fn wrong_of<R: Abort>(
    rt: &R,
    alloc: Global,
    desk: &mut TcpStream,
    messages: &[(&[u8], &[u8])],
) -> usize {
    let mut wrong: usize = 0;
    for (message, reply) in messages {
        if !answers(rt, alloc, desk, message, reply) {
            wrong = wrong.saturating_add(1);
        }
    }
    wrong
}

/// A desk that is free again soon after its connection has gone.
fn take_again<R: Abort + Net<Listener = TcpListener, Stream = TcpStream>>(
    rt: &R,
    alloc: Global,
    port: u16,
) -> TcpStream {
    for _ in 0..1000 {
        if let Some(desk) = ask_desk(rt, alloc, port) {
            return desk;
        }
    }
    take_desk(rt, alloc, port)
}

/// How many messages are answered otherwise, over two connections to one desk. At the end the desk ends.
fn wrong_again<R: Abort + Net<Listener = TcpListener, Stream = TcpStream>>(
    rt: &R,
    alloc: Global,
    port: u16,
) -> usize {
    let mut desk = take_desk(rt, alloc, port);
    let first = wrong_of(rt, alloc, &mut desk, &FIRST);
    drop(desk);
    let mut again = take_again(rt, alloc, port);
    let second = wrong_of(rt, alloc, &mut again, &SECOND);
    let last: usize = if quits(rt, alloc, &mut again) { 0 } else { 1 };
    first.saturating_add(second).saturating_add(last)
}

#[test]
fn desk_taken_again(rt: HostRuntime) {
    let (listener, port) = listen(&rt);
    let alloc = rt.alloc();
    let (served, wrong) = thread::join(
        &rt,
        || serve_desks(&rt, alloc, listener, port, 1),
        || wrong_again(&rt, alloc, port),
    );
    assert_eq!(rt; wrong, 0);
    assert!(rt; has_printed(served, b""));
}

/// Whether two desks see one another's edits and undo only their own, no third is given, and both end.
fn two_desks<R: Abort + Net<Listener = TcpListener, Stream = TcpStream>>(
    rt: &R,
    alloc: Global,
    port: u16,
) -> bool {
    let mut first = take_desk(rt, alloc, port);
    let mut second = take_desk(rt, alloc, port);
    let cut = answers(
        rt,
        alloc,
        &mut first,
        b"cut 0x1 e0",
        b"ok 1\nevent 0 fell 1 back 0\n",
    );
    let seen = answers(
        rt,
        alloc,
        &mut second,
        b"strength 0x2",
        b"ok 1\nUNREACHABLE\n",
    );
    let kept = answers(rt, alloc, &mut second, b"undo 0", b"no NotYours\n");
    let third = ask_desk(rt, alloc, port).is_none();
    let ended = quits(rt, alloc, &mut first);
    let fourth = ask_desk(rt, alloc, port).is_none();
    cut && seen && kept && third && ended && fourth && quits(rt, alloc, &mut second)
}

#[test]
fn two_desks_of_one_board(rt: HostRuntime) {
    let (listener, port) = listen(&rt);
    let alloc = rt.alloc();
    let (served, right) = thread::join(
        &rt,
        || serve_desks(&rt, alloc, listener, port, 2),
        || two_desks(&rt, alloc, port),
    );
    assert!(rt; right);
    assert!(rt; has_printed(served, b"0 0 cut 0x1 e0 live\n"));
}

/// Opens 100 silent connections to a server of two desks. Answers how many are refused at once, of the last 20.
fn refused_of_many<R: Abort + Net<Listener = TcpListener, Stream = TcpStream>>(
    rt: &R,
    alloc: Global,
    port: u16,
    silent: &mut Vec<TcpStream>,
) -> usize {
    for _ in 0..80 {
        silent.push(connect(rt, port)).expect(rt, "there is room");
    }
    let mut refused: usize = 0;
    for _ in 0..20 {
        let mut stream = connect(rt, port);
        let mut answer = Vec::new(alloc);
        if stream.read_to_end(&mut answer).is_ok()
            && answer
                .as_slice()
                .starts_with(b"HTTP/1.1 503 Service Unavailable\r\n")
        {
            refused = refused.saturating_add(1);
        }
    }
    refused
}

/// Whether desks are served while a hundred connections are silent, and one desk sends half a frame.
fn silent_and_half<R: Abort + Net<Listener = TcpListener, Stream = TcpStream>>(
    rt: &R,
    alloc: Global,
    port: u16,
) -> bool {
    let mut first = take_desk(rt, alloc, port);
    let mut second = take_desk(rt, alloc, port);
    let half = second.write_all(&[0x81, 0x84, 1, 2]);
    half.expect(rt, "half a frame is sent");
    let mut silent = Vec::new(alloc);
    let refused = refused_of_many(rt, alloc, port, &mut silent);
    let served = answers(rt, alloc, &mut first, b"strength 0x2", b"ok 1\nSTRONG\n");
    let rest = second.write_all(&[3, 4, b'm' ^ 1, b'a' ^ 2, b'r' ^ 3, b'k' ^ 4]);
    rest.expect(rt, "the other half is sent");
    let (kind, reply) = crate::clients::receive(rt, alloc, &mut second);
    let whole = kind == 0x81 && reply.as_slice() == b"ok 1\nmark 1\n".as_slice();
    send(rt, alloc, &mut first, 9, b"hi");
    let (pong, echo) = crate::clients::receive(rt, alloc, &mut first);
    let ponged = pong == 0x8a && echo.as_slice() == b"hi".as_slice();
    drop(silent);
    let ended = quits(rt, alloc, &mut first) && quits(rt, alloc, &mut second);
    refused == 20 && served && whole && ponged && ended
}

#[test]
fn silent_connections_and_half_a_frame(rt: HostRuntime) {
    let (listener, port) = listen(&rt);
    let alloc = rt.alloc();
    let (served, right) = thread::join(
        &rt,
        || serve_desks(&rt, alloc, listener, port, 2),
        || silent_and_half(&rt, alloc, port),
    );
    assert!(rt; right);
    assert!(rt; has_printed(served, b""));
}
