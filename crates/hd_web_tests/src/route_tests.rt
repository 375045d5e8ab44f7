//! Each row of the table of routes, as a client sees it.
use crate::clients::{exchange, quits, take_desk, with_port};
use crate::servers::{PAGE, has_printed, listen, serve_desks};
use std::alloc::Global;
use std::net::{Net, TcpListener, TcpStream};
use std::process::Abort;
use std::thread;

/// Requests, as pieces with the port between them, and the first line of each answer.
const ROWS: [(&[&str], &str); 18] = [
    (
        &["GET / HTTP/1.1\r\nHost: 127.0.0.1:", "\r\n\r\n"],
        "200 OK",
    ),
    (
        &["GET / HTTP/1.1\r\nhost: localhost:", "\r\n\r\n"],
        "200 OK",
    ),
    (
        &["HEAD / HTTP/1.1\r\nHost: 127.0.0.1:", "\r\n\r\n"],
        "200 OK",
    ),
    (&["GET / HTTP/1.1\r\n\r\n"], "403 Forbidden"),
    (
        &["GET / HTTP/1.1\r\nHost: 127.0.0.1\r\n\r\n"],
        "403 Forbidden",
    ),
    (
        &["GET / HTTP/1.1\r\nHost: 127.0.0.2:", "\r\n\r\n"],
        "403 Forbidden",
    ),
    (
        &[
            "GET / HTTP/1.1\r\nHost: 127.0.0.1:",
            "\r\nHost: 127.0.0.1:",
            "\r\n\r\n",
        ],
        "403 Forbidden",
    ),
    (
        &["GET /x HTTP/1.1\r\nHost: evil.example:", "\r\n\r\n"],
        "403 Forbidden",
    ),
    (
        &["GET /desk.html HTTP/1.1\r\nHost: 127.0.0.1:", "\r\n\r\n"],
        "404 Not Found",
    ),
    (
        &["POST /x HTTP/1.1\r\nHost: 127.0.0.1:", "\r\n\r\n"],
        "404 Not Found",
    ),
    (
        &["POST / HTTP/1.1\r\nHost: 127.0.0.1:", "\r\n\r\n"],
        "405 Method Not Allowed",
    ),
    (
        &["GET /desk HTTP/1.1\r\nHost: 127.0.0.1:", "\r\n\r\n"],
        "404 Not Found",
    ),
    (
        &[
            "GET /desk HTTP/1.1\r\nHost: 127.0.0.1:",
            "\r\nConnection: Upgrade\r\nUpgrade: websocket\r\nSec-WebSocket-Version: 13\r\nSec-WebSocket-Key: dGhlIHNhbXBsZSBub25jZQ==\r\n\r\n",
        ],
        "403 Forbidden",
    ),
    (
        &[
            "GET /desk HTTP/1.1\r\nHost: 127.0.0.1:",
            "\r\nConnection: Upgrade\r\nUpgrade: websocket\r\nSec-WebSocket-Version: 13\r\nSec-WebSocket-Key: dGhlIHNhbXBsZSBub25jZQ==\r\nOrigin: http://127.0.0.1:",
            "0\r\n\r\n",
        ],
        "403 Forbidden",
    ),
    (
        &[
            "GET /desk HTTP/1.1\r\nHost: 127.0.0.1:",
            "\r\nConnection: Upgrade\r\nUpgrade: websocket\r\nSec-WebSocket-Version: 13\r\nSec-WebSocket-Key: dGhlIHNhbXBsZSBub25jZQ==\r\nOrigin: http://localhost:",
            "\r\n\r\n",
        ],
        "403 Forbidden",
    ),
    (
        &[
            "GET /desk HTTP/1.1\r\nHost: 127.0.0.1:",
            "\r\nConnection: Upgrade\r\nUpgrade: websocket\r\nSec-WebSocket-Version: 12\r\nSec-WebSocket-Key: dGhlIHNhbXBsZSBub25jZQ==\r\nOrigin: http://127.0.0.1:",
            "\r\n\r\n",
        ],
        "400 Bad Request",
    ),
    (
        &[
            "GET /desk HTTP/1.1\r\nHost: 127.0.0.1:",
            "\r\nConnection: Upgrade\r\nUpgrade: websocket\r\nSec-WebSocket-Version: 13\r\nSec-WebSocket-Key: dGhl\r\nOrigin: http://127.0.0.1:",
            "\r\n\r\n",
        ],
        "400 Bad Request",
    ),
    (&["no head\r\n\r\n"], "400 Bad Request"),
];

/// Whether an answer begins with this status.
fn has_status(answer: &[u8], status: &str) -> bool {
    match answer.strip_prefix(b"HTTP/1.1 ") {
        Some(rest) => rest.starts_with(status.as_bytes()),
        None => false,
    }
}

/// How many rows are answered otherwise. At the end the only desk ends.
fn wrong_rows<R: Abort + Net<Listener = TcpListener, Stream = TcpStream>>(
    rt: &R,
    alloc: Global,
    port: u16,
) -> usize {
    let mut wrong: usize = 0;
    for (pieces, status) in ROWS {
        let request = with_port(rt, alloc, pieces, port);
        if !has_status(
            exchange(rt, alloc, port, request.as_str()).as_slice(),
            status,
        ) {
            wrong = wrong.saturating_add(1);
        }
    }
    let mut desk = take_desk(rt, alloc, port);
    if !quits(rt, alloc, &mut desk) {
        wrong = wrong.saturating_add(1);
    }
    wrong
}

#[test]
fn rows_of_the_table(rt: HostRuntime) {
    let (listener, port) = listen(&rt);
    let alloc = rt.alloc();
    let (served, wrong) = thread::join(
        &rt,
        || serve_desks(&rt, alloc, listener, port, 1),
        || wrong_rows(&rt, alloc, port),
    );
    assert_eq!(rt; wrong, 0);
    assert!(rt; has_printed(served, b""));
}

/// The head of the answer with the page of the tests, which has 15 bytes.
const PAGE_HEAD: &[u8] = b"HTTP/1.1 200 OK\r\nContent-Type: text/html; charset=utf-8\r\n\
Content-Security-Policy: default-src 'none'; script-src 'unsafe-inline'; style-src 'unsafe-inline'; img-src data:; connect-src 'self'\r\n\
X-Content-Type-Options: nosniff\r\nCache-Control: no-store\r\nContent-Length: 15\r\nConnection: close\r\n\r\n";

/// What a GET of the page and a HEAD of it are answered, one behind the other. At the end the only desk ends.
fn page_twice<R: Abort + Net<Listener = TcpListener, Stream = TcpStream>>(
    rt: &R,
    alloc: Global,
    port: u16,
) -> (Vec<u8>, Vec<u8>) {
    let get = with_port(
        rt,
        alloc,
        &["GET / HTTP/1.1\r\nHost: 127.0.0.1:", "\r\n\r\n"],
        port,
    );
    let head = with_port(
        rt,
        alloc,
        &["HEAD / HTTP/1.1\r\nHost: 127.0.0.1:", "\r\n\r\n"],
        port,
    );
    let page = exchange(rt, alloc, port, get.as_str());
    let alone = exchange(rt, alloc, port, head.as_str());
    let mut desk = take_desk(rt, alloc, port);
    let _ended = quits(rt, alloc, &mut desk);
    (page, alone)
}

#[test]
fn page_and_its_head(rt: HostRuntime) {
    let (listener, port) = listen(&rt);
    let alloc = rt.alloc();
    let (served, (page, alone)) = thread::join(
        &rt,
        || serve_desks(&rt, alloc, listener, port, 1),
        || page_twice(&rt, alloc, port),
    );
    assert_eq!(rt; alone.as_slice(), PAGE_HEAD);
    assert!(rt; page.as_slice().strip_prefix(PAGE_HEAD) == Some(PAGE));
    assert!(rt; has_printed(served, b""));
}
