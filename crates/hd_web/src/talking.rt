//! The messages of a WebSocket are served to a seat.
ghost use Rattle.std.specs.Prelude.{◌≡◌, Ok, MatchOption, IfOk, string_bytes};
ghost use Rattle.websocket.specs.Content.{text as text_content};
ghost use Rattle.tungstenite.specs.Socket.{content_of};
ghost use Rattle.hd_lines.specs.Lines.{is_quit};
ghost use Rattle.hd_web.specs.Talks.{AnswersLine, AnswersText, Serves, ServesNext, Talks};

use crate::message::line_of;
use crate::seat::Seat;
use hd_analyst::{FixedBuffer, LONGEST_REPLY};
use hd_lines::Command;
use hd_words::read_command;
use std::alloc::Global;
use std::io::{Read, Write};
use std::str;
use std::sync::Wait;
use std::thread::Threads;
use tungstenite::{CloseCode, CloseFrame, Error, Message, NoMask, Utf8Bytes, WebSocket};

/// The most bytes of a message: 1 MiB. Lines are far shorter; a longer message closes the connection.
pub(crate) const LONGEST_MESSAGE: usize = 1_048_576;

/// How the messages of a connection end.
#[derive(Clone, Copy, Debug, PartialEq, Eq)]
pub(crate) enum End {
    /// The line was `quit`, and its reply was sent.
    Quits,
    /// The line was `quit`, and its reply couldn't be sent.
    QuitsUnheard,
    /// Otherwise, with what the WebSocket is closed, if it can be.
    Frees(Option<CloseCode>),
}

/// Whether a line is `quit`.
fn is_quit(line: &[u8]) -> bool
    ensures { result ≡ is_quit line.now }
{
    matches!(read_command(line), Ok(Command::Quit))
}

/// With what a WebSocket is closed that can't be read (RFC 6455, section 7.4.1).
fn close_code(error: &Error) -> Option<CloseCode> {
    match error {
        Error::Capacity(_) => Some(CloseCode::Size),
        Error::Protocol(_) => Some(CloseCode::Protocol),
        Error::Utf8 => Some(CloseCode::Invalid),
        _ => None,
    }
}

/// The message of a reply: the long one, or else the short one.
///
/// # Errors
///
/// Memory ran out, or a short reply isn't UTF-8, which no reply is.
fn reply_message(alloc: Global, long: Option<String>, short: &[u8]) -> Result<Message, Error>
    ensures { MatchOption long (IfOk result (λ message. content_of message ≡ text_content short.now))
        (λ text. IfOk result (λ message. content_of message ≡ text_content (string_bytes text))) }
{
    match long {
        Some(text) => Ok(Message::text(alloc, text.as_str())?),
        None => match str::from_utf8(short) {
            Ok(text) => Ok(Message::text(alloc, text)?),
            Err(_) => Err(Error::Utf8),
        },
    }
}

/// Runs the line of a text message, and sends its reply.
///
/// # Errors
///
/// The reply can't be sent.
fn answer_line<S: Read + Write + Drop>(
    rt: &(impl Wait + Threads + Sync),
    alloc: Global,
    socket: &mut WebSocket<S, NoMask>,
    seat: &mut Seat<'_>,
    out: &mut FixedBuffer<LONGEST_REPLY>,
    line: &[u8],
) -> Result<(), Error>
    ensures { AnswersLine S.contents seat.old.analyst seat.new.analyst socket.old socket.new line.now result }
{
    let long = seat.answer(rt, alloc, line, out);
    let message = reply_message(alloc, long, out.as_slice())?;
    socket.send(message)
}

/// Serves one text message.
fn answer_text<S: Read + Write + Drop>(
    rt: &(impl Wait + Threads + Sync),
    alloc: Global,
    socket: &mut WebSocket<S, NoMask>,
    seat: &mut Seat<'_>,
    out: &mut FixedBuffer<LONGEST_REPLY>,
    text: &str,
) -> Option<End>
    ensures { AnswersText S.contents seat.old.analyst seat.new.analyst socket.old socket.new text.now result }
{
    let line = line_of(text.as_bytes());
    let quits = is_quit(line);
    match answer_line(rt, alloc, socket, seat, out, line) {
        Ok(()) => { if quits { Some(End::Quits) } else { None } }
        Err(_) => {
            if quits {
                Some(End::QuitsUnheard)
            } else {
                Some(End::Frees(None))
            }
        }
    }
}

/// Serves a message that was read. `None`: the next one is to be read.
fn serve_message<S: Read + Write + Drop>(
    rt: &(impl Wait + Threads + Sync),
    alloc: Global,
    socket: &mut WebSocket<S, NoMask>,
    seat: &mut Seat<'_>,
    out: &mut FixedBuffer<LONGEST_REPLY>,
    message: &Message,
) -> Option<End>
    ensures { Serves S.contents seat.old.analyst seat.new.analyst socket.old socket.new (Ok message.now) result }
{
    match message {
        Message::Text(text) => answer_text(rt, alloc, socket, seat, out, text.as_str()),
        Message::Binary(_) => Some(End::Frees(Some(CloseCode::Unsupported))),
        Message::Ping(_) | Message::Pong(_) | Message::Close(_) => None,
    }
}

/// Reads the next message, and serves it. `None`: the next one is to be read.
fn serve_next<S: Read + Write + Drop>(
    rt: &(impl Wait + Threads + Sync),
    alloc: Global,
    socket: &mut WebSocket<S, NoMask>,
    seat: &mut Seat<'_>,
    out: &mut FixedBuffer<LONGEST_REPLY>,
) -> Option<End>
    ensures { ServesNext S.remaining S.contents seat.old.analyst seat.new.analyst socket.old socket.new result }
{
    match socket.read() {
        Ok(message) => serve_message(rt, alloc, socket, seat, out, &message),
        Err(error) => Some(End::Frees(close_code(&error))),
    }
}

/// Serves the messages of a WebSocket in their order, until one is `quit`, one is binary, or the connection ends.
pub(crate) fn talk<S: Read + Write + Drop>(
    rt: &(impl Wait + Threads + Sync),
    alloc: Global,
    socket: &mut WebSocket<S, NoMask>,
    seat: &mut Seat<'_>,
    out: &mut FixedBuffer<LONGEST_REPLY>,
) -> End
    ensures { Talks S.remaining S.contents seat.old.analyst seat.new.analyst socket.old socket.new result }
{
    for _ in rt.forever() {
        match serve_next(rt, alloc, socket, seat, out) {
            Some(end) => return end,
            None => {}
        }
    }
    unreachable!()
}

/// The most messages that are read while the peer's close is awaited.
const MOST_AWAITED: u32 = 8;

/// Closes a WebSocket, and awaits the peer's close.
pub(crate) fn close<S: Read + Write + Drop>(socket: &mut WebSocket<S, NoMask>, code: CloseCode) {
    let frame = CloseFrame {
        code,
        reason: Utf8Bytes::default(),
    };
    if socket.close(Some(frame)).is_err() {
        return;
    }
    for _ in 0..MOST_AWAITED {
        if socket.read().is_err() {
            return;
        }
    }
}
