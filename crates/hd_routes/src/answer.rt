//! Answers to request heads, and their bytes.
ghost use Rattle.std.specs.Prelude.{◌≡◌, [], length, IfOk, OnOk};
ghost use Rattle.std.specs.Io.KnownBytes.{Appends};
ghost use Rattle.hd_routes.specs.Answers.{status_text, refusal_fields, closing_head, answer_head, answer_body, answer_bytes};
ghost use Rattle.websocket.specs.Handshake.{response_bytes};

use crate::pass::Pass;
use itoa::Buffer;
use std::alloc::{AllocError, Global};
use std::io::{self, Write};
use websocket::handshake::server::write_response;

/// Why a request isn't answered by what it asks for (RFC 9110, section 15; RFC 6585, section 5).
#[derive(Clone, Copy, Debug, PartialEq, Eq)]
pub enum Refusal {
    /// 400: no head, a malformed one, or an upgrade with a bad key or version.
    BadRequest,
    /// 403: the Host isn't this server, or the Origin of an upgrade isn't that of its page.
    Forbidden,
    /// 404: there is nothing at this path.
    NotFound,
    /// 405: neither GET nor HEAD.
    MethodNotAllowed,
    /// 431: the head is too long.
    HeadTooLarge,
    /// 503: there are too many connections, or no desk is free.
    Unavailable,
}

/// What a request is answered.
#[derive(Clone, Copy, Debug, PartialEq, Eq)]
pub enum Answer {
    /// 200: the page.
    Page,
    /// 200: the head alone of the answer with the page.
    HeadOfPage,
    /// 101: a desk, by this leave; or 503 where none is free.
    Desk(Pass),
    /// An answer without a body, of this status.
    Refused(Refusal),
}

/// The fields of the page.
const PAGE_FIELDS: &[u8] = b"Content-Type: text/html; charset=utf-8\r\n\
Content-Security-Policy: default-src 'none'; script-src 'unsafe-inline'; style-src 'unsafe-inline'; img-src data:; connect-src 'self'\r\n\
X-Content-Type-Options: nosniff\r\n\
Cache-Control: no-store\r\n";

/// The status of a refusal.
fn status_of(refusal: Refusal) -> &'static [u8]
    ensures { result.now ≡ status_text refusal }
{
    match refusal {
        Refusal::BadRequest => b"400 Bad Request",
        Refusal::Forbidden => b"403 Forbidden",
        Refusal::NotFound => b"404 Not Found",
        Refusal::MethodNotAllowed => b"405 Method Not Allowed",
        Refusal::HeadTooLarge => b"431 Request Header Fields Too Large",
        Refusal::Unavailable => b"503 Service Unavailable",
    }
}

/// The fields of a refusal that others don't have.
fn fields_of(refusal: Refusal) -> &'static [u8]
    ensures { result.now ≡ refusal_fields refusal }
{
    match refusal {
        Refusal::MethodNotAllowed => b"Allow: GET, HEAD\r\n",
        _ => b"",
    }
}

/// The head of an answer after which the connection closes, before a body of `len` bytes.
///
/// # Errors
///
/// Memory ran out.
fn closing_head(
    alloc: Global,
    status: &[u8],
    fields: &[u8],
    len: usize,
) -> Result<Vec<u8>, AllocError>
    ensures { IfOk result (λ head. head.items ≡ closing_head status.now fields.now len) }
{
    let mut buffer = Buffer::new();
    let mut head = Vec::from_slice(alloc, b"HTTP/1.1 ")?;
    head.extend_from_slice(status)?;
    head.extend_from_slice(b"\r\n")?;
    head.extend_from_slice(fields)?;
    head.extend_from_slice(b"Content-Length: ")?;
    head.extend_from_slice(buffer.format(len).as_bytes())?;
    head.extend_from_slice(b"\r\nConnection: close\r\n\r\n")?;
    Ok(head)
}

/// The head of an answer that turns the connection into a WebSocket.
///
/// # Errors
///
/// Memory ran out.
fn switching_head(alloc: Global, accept_key: &[u8; 28]) -> Result<Vec<u8>, AllocError>
    ensures { IfOk result (λ head. head.items ≡ response_bytes accept_key.now []) }
{
    let mut head = Vec::new(alloc);
    match write_response(accept_key, &[], &mut head) {
        Ok(()) => Ok(head),
        Err(_) => Err(AllocError),
    }
}

/// The head of an answer, where the page has `len` bytes.
///
/// # Errors
///
/// Memory ran out.
fn answer_head(alloc: Global, answer: Answer, len: usize) -> Result<Vec<u8>, AllocError>
    ensures { IfOk result (λ head. head.items ≡ answer_head len answer) }
{
    match answer {
        Answer::Page | Answer::HeadOfPage => closing_head(alloc, b"200 OK", PAGE_FIELDS, len),
        Answer::Desk(pass) => switching_head(alloc, pass.accept_key()),
        Answer::Refused(refusal) => {
            closing_head(alloc, status_of(refusal), fields_of(refusal), 0)
        }
    }
}

/// The body of an answer.
fn answer_body(answer: Answer, page: &[u8]) -> &[u8]
    ensures { result.now ≡ answer_body page.now answer }
{
    match answer {
        Answer::Page => page,
        Answer::HeadOfPage | Answer::Desk(_) | Answer::Refused(_) => &[],
    }
}

/// Writes an answer, and hands it on. A GET of the page is answered with `page` behind the head.
///
/// # Errors
///
/// The writer fails or takes no byte, or memory ran out: a beginning of the answer may have been written.
pub fn write_answer<W: Write>(
    alloc: Global,
    answer: Answer,
    page: &[u8],
    output: &mut W,
) -> io::Result<()>
    ensures { OnOk result (Appends (W.contents output.old) (W.contents output.new) (answer_bytes page.now answer)) }
{
    let head = answer_head(alloc, answer, page.len())?;
    output.write_all(head.as_slice())?;
    output.write_all(answer_body(answer, page))?;
    output.flush()?;
    Ok(())
}
