//! One connection.
use crate::hall::Hall;
use crate::hurried::Hurried;
use crate::seat::Seat;
use crate::talking::{End, LONGEST_MESSAGE, close, talk};
use hd_analyst::{FixedBuffer, LONGEST_REPLY};
use hd_routes::{Answer, Guest, Refusal, greet, write_answer};
use std::io::Read;
use std::net::{Ipv4Addr, Net, Shutdown, SocketAddr, TcpListener, TcpStream};
use std::sync::Wait;
use std::thread;
use std::thread::Threads;
use std::time::{Clock, Duration};
use tungstenite::{CloseCode, NoMask, Role, WebSocket, WebSocketConfig};

/// How many seconds a request head may take.
const HEAD_SECONDS: u64 = 10;

/// How many seconds a write of an answer may wait.
const WRITE_SECONDS: u64 = 10;

/// How many seconds the end of a closed connection is awaited.
const END_SECONDS: u64 = 1;

/// The most reads in which what came behind a head is let go.
const MOST_READS: u32 = 64;

/// How many bytes one read of a WebSocket asks for.
const READ_SIZE: usize = 16_384;

/// Serves one connection to its end.
pub(crate) fn attend<'a, R>(rt: &R, hall: &Hall<'a>, stream: &TcpStream)
where
    R: AllocGlobal
        + Clock
        + Net<Listener = TcpListener, Stream = TcpStream>
        + Threads
        + Wait
        + Sync,
{
    let _at_once = stream.set_nodelay(true);
    if stream
        .set_write_timeout(Some(Duration::from_secs(WRITE_SECONDS)))
        .is_err()
    {
        return;
    }
    let Ok(mut source) = Hurried::new(
        rt,
        stream,
        Duration::from_secs(HEAD_SECONDS),
        hall.over_flag(),
    ) else {
        return;
    };
    let site = hall.site();
    let mut output = stream;
    match greet(rt.alloc(), &mut source, site.port, site.page, &mut output) {
        Ok(Some(guest)) => seat_guest(rt, hall, stream, guest),
        Ok(None) => linger(stream),
        Err(_) => {}
    }
}

/// Ends a connection that was answered. What the peer still sends is let go for a while, so that the answer isn't lost by a reset.
fn linger(stream: &TcpStream) {
    let is_set = stream.shutdown(Shutdown::Write).is_ok()
        && stream
            .set_read_timeout(Some(Duration::from_secs(END_SECONDS)))
            .is_ok();
    if !is_set {
        return;
    }
    let mut input = stream;
    let mut rest = [0; 1024];
    for _ in 0..MOST_READS {
        match input.read(&mut rest) {
            Ok(0) => return,
            Ok(_) => {}
            Err(_) => return,
        }
    }
}

/// Refuses a connection for which no desk is free.
fn refuse<R: AllocGlobal>(rt: &R, stream: &TcpStream) {
    let mut output = stream;
    let answer = Answer::Refused(Refusal::Unavailable);
    if write_answer(rt.alloc(), answer, &[], &mut output).is_ok() {
        linger(stream);
    }
}

/// Refuses a connection that is one too many, without a wait.
pub(crate) fn turn_away<R: AllocGlobal>(rt: &R, stream: &TcpStream) {
    if stream.set_nonblocking(true).is_err() {
        return;
    }
    let mut output = stream;
    let _told = write_answer(
        rt.alloc(),
        Answer::Refused(Refusal::Unavailable),
        &[],
        &mut output,
    );
    let mut rest = [0; 1024];
    let _let_go = output.read(&mut rest);
}

/// Gives a connection a desk, or refuses it where none is free.
fn seat_guest<'a, R>(rt: &R, hall: &Hall<'a>, stream: &TcpStream, guest: Guest)
where
    R: AllocGlobal
        + Clock
        + Net<Listener = TcpListener, Stream = TcpStream>
        + Threads
        + Wait
        + Sync,
{
    match hall.take(rt, &guest.pass) {
        Some((number, seat)) => sit(rt, hall, stream, guest, number, seat),
        None => refuse(rt, stream),
    }
}

/// Serves a seat over a connection, and then gives it back or ends it.
fn sit<'a, R>(
    rt: &R,
    hall: &Hall<'a>,
    stream: &TcpStream,
    guest: Guest,
    number: usize,
    mut seat: Seat<'a>,
)
where
    R: AllocGlobal
        + Clock
        + Net<Listener = TcpListener, Stream = TcpStream>
        + Threads
        + Wait
        + Sync,
{
    let Some(mut socket) = upgrade(rt, stream, guest) else {
        return hall.give_back(rt, number, seat);
    };
    let Ok(mut out) = FixedBuffer::<LONGEST_REPLY>::new(rt.alloc()) else {
        return hall.give_back(rt, number, seat);
    };
    let end = talk(rt, rt.alloc(), &mut socket, &mut seat, &mut out);
    match end {
        End::Frees(_) => hall.give_back(rt, number, seat),
        End::Quits | End::QuitsUnheard => {
            if hall.end(rt, number, seat.leave()) {
                wake(rt, hall.site().port);
            }
        }
    }
    bid_farewell(stream, &mut socket, end);
}

/// Closes a WebSocket by how its messages ended.
fn bid_farewell(stream: &TcpStream, socket: &mut WebSocket<&TcpStream, NoMask>, end: End) {
    let code = match end {
        End::Quits => CloseCode::Normal,
        End::Frees(Some(code)) => code,
        End::QuitsUnheard | End::Frees(None) => return,
    };
    let is_set = stream
        .set_read_timeout(Some(Duration::from_secs(END_SECONDS)))
        .is_ok()
        && stream
            .set_write_timeout(Some(Duration::from_secs(END_SECONDS)))
            .is_ok();
    if is_set {
        close(socket, code);
    }
}

/// Answers an upgrade, and makes the WebSocket of the connection, which begins with what came behind the request head.
fn upgrade<'s, R: AllocGlobal>(
    rt: &R,
    stream: &'s TcpStream,
    guest: Guest,
) -> Option<WebSocket<&'s TcpStream, NoMask>> {
    let Guest { pass, left } = guest;
    let mut output = stream;
    if write_answer(rt.alloc(), Answer::Desk(pass), &[], &mut output).is_err() {
        return None;
    }
    if stream.set_read_timeout(None).is_err() || stream.set_write_timeout(None).is_err() {
        return None;
    }
    let config = WebSocketConfig::default()
        .read_buffer_size(READ_SIZE)
        .max_message_size(Some(LONGEST_MESSAGE))
        .max_frame_size(Some(LONGEST_MESSAGE));
    Some(WebSocket::from_partially_read(
        rt.alloc(),
        stream,
        NoMask,
        left,
        Role::Server,
        Some(config),
    ))
}

/// How often a connection is tried that wakes the acceptor.
const MOST_CALLS: u32 = 100;

/// How many milliseconds it is waited before the next try.
const CALL_PAUSE: u64 = 10;

/// Wakes the acceptor of a port by a connection.
fn wake<R>(rt: &R, port: u16)
where
    R: Clock + Net<Listener = TcpListener, Stream = TcpStream>,
{
    for _ in 0..MOST_CALLS {
        let address = SocketAddr::from((Ipv4Addr::LOCALHOST, port));
        match TcpStream::connect(rt, address) {
            Ok(_stream) => return,
            Err(_) => thread::sleep(rt, Duration::from_millis(CALL_PAUSE)),
        }
    }
}
