//! The request head of a connection is read from its stream.
ghost use Rattle.std.specs.Prelude.{◌≡◌, [], IfOk, OnOk};
ghost use Rattle.hd_routes.specs.Hearings.{Grows, IsSettled, Hears, Greets};

use crate::answer::{Answer, Refusal, write_answer};
use crate::head::{MOST_BYTES, Reading, read_head};
use crate::pass::Pass;
use std::alloc::Global;
use std::io::{self, ErrorKind, Read, Write};

/// The most bytes that are read at once.
const CHUNK: usize = 4096;

/// What a connection asked for: the answer, and the bytes that came behind the head.
#[derive(Debug, Drop)]
pub struct Heard {
    pub answer: Answer,
    pub left: Vec<u8>,
}

/// A refusal of a connection with no head. What came is let go.
fn refused(alloc: Global, refusal: Refusal) -> Heard
    ensures answer { result.answer ≡ Answer.Refused refusal }
    ensures left { result.left.items ≡ [] }
{
    Heard {
        answer: Answer::Refused(refusal),
        left: Vec::new(alloc),
    }
}

/// What the bytes that came are answered, if they are a whole head or no head; at the end of the input the beginning of a head is
/// none.
///
/// # Errors
///
/// Memory ran out.
fn settle(alloc: Global, bytes: &[u8], port: u16, is_end: bool) -> io::Result<Option<Heard>>
    ensures { IfOk result (IsSettled port bytes.now is_end) }
{
    match read_head(bytes, port) {
        Reading::Unfinished => {
            if is_end {
                Ok(Some(refused(alloc, Refusal::BadRequest)))
            } else {
                Ok(None)
            }
        }
        Reading::NoHead(refusal) => Ok(Some(refused(alloc, refusal))),
        Reading::Whole(answer, len) => {
            let left = Vec::from_slice(alloc, &bytes[len..])?;
            Ok(Some(Heard { answer, left }))
        }
    }
}

/// Reads some bytes of a stream, and puts them behind others. Answers whether the stream is at its end.
///
/// # Errors
///
/// The stream failed, or memory ran out.
fn read_more<S: Read>(stream: &mut S, bytes: &mut Vec<u8>) -> io::Result<bool>
    ensures { OnOk result (Grows (S.remaining stream.old) (S.remaining stream.new) bytes.old.items bytes.new.items) }
{
    let mut chunk = [0; CHUNK];
    let count = stream.read(&mut chunk)?;
    bytes.extend_from_slice(&chunk[..count])?;
    Ok(count == 0)
}

/// Reads the request head of a connection to a port, and answers what it is answered.
///
/// # Errors
///
/// The stream failed before the head was whole, or memory ran out.
pub fn hear<S: Read>(alloc: Global, stream: &mut S, port: u16) -> io::Result<Heard>
    ensures { IfOk result (Hears port (S.remaining stream.old) (S.remaining stream.new)) }
{
    let mut bytes = Vec::with_capacity(alloc, MOST_BYTES)?;
    for _ in 0..MOST_BYTES {
        let is_end = read_more(stream, &mut bytes)?;
        if let Some(heard) = settle(alloc, bytes.as_slice(), port, is_end)? {
            return Ok(heard);
        }
    }
    Err(io::Error::from(ErrorKind::InvalidData))
}

/// A connection that asks for a desk: leave to take one, and the bytes that came behind the request head.
#[derive(Debug, Drop)]
pub struct Guest {
    pub pass: Pass,
    pub left: Vec<u8>,
}

/// Reads the request head of a connection to a port, and answers it on `output`; a GET of the page is answered with `page`. `Some`
/// where the answer is a desk: then nothing is written yet.
///
/// # Errors
///
/// The stream failed before the head was whole, the answer can't be written, or memory ran out.
pub fn greet<S: Read, W: Write>(
    alloc: Global,
    source: &mut S,
    port: u16,
    page: &[u8],
    output: &mut W,
) -> io::Result<Option<Guest>>
    ensures { IfOk result (Greets port page.now (S.remaining source.old) (S.remaining source.new) (W.contents output.old) (W.contents output.new)) }
{
    let heard = hear(alloc, source, port)?;
    match heard.answer {
        Answer::Desk(pass) => Ok(Some(Guest {
            pass,
            left: heard.left,
        })),
        answer => {
            write_answer(alloc, answer, page, output)?;
            Ok(None)
        }
    }
}
