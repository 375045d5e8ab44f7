//! A client of the loopback, for the tests: request heads, and the frames of a WebSocket.
use std::alloc::Global;
use std::fmt::Write as _;
use std::io::{Read, Write};
use std::net::{Ipv4Addr, Net, SocketAddr, TcpListener, TcpStream};
use std::process::Abort;

/// What comes before the port in the request for a desk, three times.
const DESK: [&str; 3] = [
    "GET /desk HTTP/1.1\r\nHost: 127.0.0.1:",
    "\r\nConnection: Upgrade\r\nUpgrade: websocket\r\nSec-WebSocket-Version: 13\r\n\
     Sec-WebSocket-Key: dGhlIHNhbXBsZSBub25jZQ==\r\nOrigin: http://127.0.0.1:",
    "\r\n\r\n",
];

/// The head of the answer to it. The accept key is that of RFC 6455, section 1.3.
pub const SWITCHED: &[u8] = b"HTTP/1.1 101 Switching Protocols\r\nconnection: Upgrade\r\n\
upgrade: websocket\r\nsec-websocket-accept: s3pPLMBiTxaQ9kYGzzhZRbK+xOo=\r\n\r\n";

/// How many bytes the first line has, as that of a 503.
const STATUS_LEN: usize = 34;

/// The key by which the frames of the tests are masked.
const MASK: [u8; 4] = [1, 2, 3, 4];

/// Pieces with the port between them.
pub fn with_port<R: Abort>(rt: &R, alloc: Global, pieces: &[&str], port: u16) -> String {
    let mut text = String::new(alloc);
    for (i, piece) in pieces.iter().enumerate() {
        if i > 0 {
            write!(text, "{port}").expect(rt, "the port is put");
        }
        text.push_str(piece).expect(rt, "the piece is put");
    }
    text
}

/// A connection to a port of the loopback.
pub fn connect<R: Abort + Net<Listener = TcpListener, Stream = TcpStream>>(
    rt: &R,
    port: u16,
) -> TcpStream {
    let address = SocketAddr::from((Ipv4Addr::LOCALHOST, port));
    TcpStream::connect(rt, address).expect(rt, "the client connects")
}

/// Sends a text, and answers all that comes until the end.
pub fn exchange<R: Abort + Net<Listener = TcpListener, Stream = TcpStream>>(
    rt: &R,
    alloc: Global,
    port: u16,
    text: &str,
) -> Vec<u8> {
    let mut stream = connect(rt, port);
    let sent = stream.write_all(text.as_bytes());
    sent.expect(rt, "the text is sent");
    let mut answer = Vec::new(alloc);
    let read = stream.read_to_end(&mut answer);
    read.expect(rt, "the answer comes");
    answer
}

/// Reads `count` bytes.
fn take<R: Abort>(rt: &R, alloc: Global, stream: &mut TcpStream, count: usize) -> Vec<u8> {
    let mut bytes = vec![in alloc; 0; count].expect(rt, "there is room");
    let read = stream.read_exact(bytes.as_mut_slice());
    read.expect(rt, "the bytes come");
    bytes
}

/// Asks for a desk, and whether it is given.
pub fn ask_desk<R: Abort + Net<Listener = TcpListener, Stream = TcpStream>>(
    rt: &R,
    alloc: Global,
    port: u16,
) -> Option<TcpStream> {
    let mut stream = connect(rt, port);
    let head = with_port(rt, alloc, &DESK, port);
    let sent = stream.write_all(head.as_bytes());
    sent.expect(rt, "the head is sent");
    let status = take(rt, alloc, &mut stream, STATUS_LEN);
    if !SWITCHED.starts_with(status.as_slice()) {
        return None;
    }
    let rest = take(rt, alloc, &mut stream, SWITCHED.len() - STATUS_LEN);
    if SWITCHED[STATUS_LEN..].starts_with(rest.as_slice()) {
        Some(stream)
    } else {
        None
    }
}

/// A desk that is given.
pub fn take_desk<R: Abort + Net<Listener = TcpListener, Stream = TcpStream>>(
    rt: &R,
    alloc: Global,
    port: u16,
) -> TcpStream {
    ask_desk(rt, alloc, port).expect(rt, "a desk is free")
}

/// The head of a frame of this kind and length, masked.
fn frame_head<R: Abort>(rt: &R, alloc: Global, kind: u8, len: usize) -> Vec<u8> {
    let mut head = Vec::new(alloc);
    let first = [0x80 | (kind & 0x0f)];
    head.extend_from_slice(&first).expect(rt, "there is room");
    let size = u64::try_from(len).unwrap_or(0).to_be_bytes();
    if len < 126 {
        let short = [0x80 | size[7]];
        head.extend_from_slice(&short).expect(rt, "there is room");
    } else if len < 65_536 {
        let middle = [0xfe, size[6], size[7]];
        head.extend_from_slice(&middle).expect(rt, "there is room");
    } else {
        head.push(0xff).expect(rt, "there is room");
        head.extend_from_slice(&size).expect(rt, "there is room");
    }
    head.extend_from_slice(&MASK).expect(rt, "there is room");
    head
}

/// Sends a frame of this kind.
pub fn send<R: Abort>(rt: &R, alloc: Global, stream: &mut TcpStream, kind: u8, data: &[u8]) {
    let mut frame = frame_head(rt, alloc, kind, data.len());
    for (i, byte) in data.iter().enumerate() {
        frame.push(byte ^ MASK[i % 4]).expect(rt, "there is room");
    }
    let sent = stream.write_all(frame.as_slice());
    sent.expect(rt, "the frame is sent");
}

/// Reads a frame: its first byte, and its data.
pub fn receive<R: Abort>(rt: &R, alloc: Global, stream: &mut TcpStream) -> (u8, Vec<u8>) {
    let head = take(rt, alloc, stream, 2);
    let kind = head.get(0).copied().unwrap_or(0);
    let short = head.get(1).copied().unwrap_or(0);
    let len = if short == 126 {
        let size = take(rt, alloc, stream, 2);
        let high = size.get(0).copied().unwrap_or(0);
        let low = size.get(1).copied().unwrap_or(0);
        usize::from(high) * 256 + usize::from(low)
    } else {
        usize::from(short)
    };
    (kind, take(rt, alloc, stream, len))
}

/// Whether a text message is answered so.
pub fn answers<R: Abort>(
    rt: &R,
    alloc: Global,
    stream: &mut TcpStream,
    message: &[u8],
    wanted: &[u8],
) -> bool {
    send(rt, alloc, stream, 1, message);
    let (kind, reply) = receive(rt, alloc, stream);
    kind == 0x81 && reply.as_slice() == wanted
}

/// Whether the WebSocket is closed with this code: its first byte, and its second.
pub fn is_closed<R: Abort>(rt: &R, alloc: Global, stream: &mut TcpStream, code: &[u8]) -> bool {
    let (kind, data) = receive(rt, alloc, stream);
    kind == 0x88 && data.as_slice() == code
}

/// Whether the desk ends well.
pub fn quits<R: Abort>(rt: &R, alloc: Global, stream: &mut TcpStream) -> bool {
    answers(rt, alloc, stream, b"quit", b"ok 0\n") && is_closed(rt, alloc, stream, &[0x03, 0xe8])
}
