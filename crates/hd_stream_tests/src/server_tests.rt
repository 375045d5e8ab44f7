//! Two analysts' connections over one log, and one that breaks off.
use crate::clients::{ask, connect, listen, serve_first};
use hd_server::ServeOnFault;
use std::alloc::Global;
use std::net::{Net, SocketAddr, TcpListener, TcpStream};
use std::process::Abort;
use std::thread;

/// The first client cuts; then the second connects and asks. What both hear is answered, in the order in which they ask.
fn cut_and_look<R: Abort + Net<Listener = TcpListener, Stream = TcpStream>>(
    rt: &R,
    alloc: Global,
    address: SocketAddr,
) -> String {
    let mut heard = String::new(alloc);
    let mut first = connect(rt, alloc, address);
    ask(rt, &mut first, "cut 0x1 e0\n", 2, &mut heard);
    let mut second = connect(rt, alloc, address);
    ask(rt, &mut second, "strength 0x2\n", 2, &mut heard);
    ask(rt, &mut first, "quit\n", 1, &mut heard);
    ask(rt, &mut second, "quit\n", 1, &mut heard);
    heard
}

#[test]
fn server_on_loopback(rt: HostRuntime) {
    let (listener, address) = listen(&rt);
    let alloc = rt.alloc();
    let (served, heard) = thread::join(
        &rt,
        || serve_first(&rt, alloc, listener, 2),
        || cut_and_look(&rt, alloc, address),
    );
    assert_eq!(rt;
        heard.as_str(),
        "ok 1\nevent 0 fell 1 back 0\nok 1\nUNREACHABLE\nok 0\nok 0\n"
    );
    let printed = served.ok();
    assert!(rt; printed.is_some_and(|text| text.as_slice() == b"0 0 cut 0x1 e0 live\n".as_slice()));
}

/// Two clients connect. The first cuts, and then closes its connection in the middle of a line; the second asks.
fn break_off_and_look<R: Abort + Net<Listener = TcpListener, Stream = TcpStream>>(
    rt: &R,
    alloc: Global,
    address: SocketAddr,
) -> String {
    let mut heard = String::new(alloc);
    let mut first = connect(rt, alloc, address);
    let mut second = connect(rt, alloc, address);
    ask(rt, &mut first, "cut 0x1 e0\nstre", 2, &mut heard);
    drop(first);
    ask(rt, &mut second, "strength 0x2\nquit\n", 3, &mut heard);
    heard
}

#[test]
fn client_breaks_off(rt: HostRuntime) {
    let (listener, address) = listen(&rt);
    let alloc = rt.alloc();
    let (served, heard) = thread::join(
        &rt,
        || serve_first(&rt, alloc, listener, 2),
        || break_off_and_look(&rt, alloc, address),
    );
    assert_eq!(rt;
        heard.as_str(),
        "ok 1\nevent 0 fell 1 back 0\nok 1\nUNREACHABLE\nok 0\n"
    );
    let printed = served.ok();
    assert!(rt; printed.is_some_and(|text| text.as_slice() == b"0 0 cut 0x1 e0 live\n".as_slice()));
}

/// A board can't be closed without one of its desks. No connection is accepted.
#[test]
fn board_without_its_desks(rt: HostRuntime) {
    let (listener, _address) = listen(&rt);
    let ended = serve_first(&rt, rt.alloc(), listener, 0).err();
    assert!(rt; ended == Some(ServeOnFault::Close));
}

#[test]
fn texts_of_server_faults(rt: HostRuntime) {
    let rows = [
        (ServeOnFault::Accept, "cannot accept"),
        (ServeOnFault::OutOfMemory, "OutOfMemory"),
        (ServeOnFault::Write, "cannot write"),
        (ServeOnFault::Close, "cannot close"),
    ];
    for (fault, text) in rows {
        let said = fault
            .to_string(rt.alloc())
            .expect(&rt, "the fault has a text");
        assert_eq!(rt; said.as_str(), text);
    }
}
