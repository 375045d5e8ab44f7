//! The table of routes.
ghost use Rattle.std.specs.Prelude.{◌≡◌, ◌++◌, length, All, option_map, bytes_eq, Some};
ghost use Rattle.httparse.specs.Spans.{IsHeaderWithin, IsRequestWithin};
ghost use Rattle.websocket.specs.Headers.{fields_of};
ghost use Rattle.hd_routes.specs.Requests.{is_own_host, own_host, has_origin, spanned};
ghost use Rattle.hd_routes.specs.Routes.{IsAnswer, IsRowAnswer, desk_row};

use crate::answer::{Answer, Refusal};
use crate::fields::only_value;
use crate::pass::Pass;
use httparse::spans::{HeaderSpan, RequestSpans};
use itoa::Buffer;
use websocket::handshake::HandshakeError;
use websocket::handshake::server::check_request;

/// Whether a text is `front` and then `back`.
fn is_joined(text: &[u8], front: &[u8], back: &[u8]) -> bool
    ensures { result ≡ bytes_eq text.now (front.now ++ back.now) }
{
    match text.strip_prefix(front) {
        Some(rest) => rest == back,
        None => false,
    }
}

/// Whether a Host names a server on this port of the loopback.
fn is_own_host(host: &[u8], port: u16) -> bool
    ensures { result ≡ is_own_host port host.now }
{
    let mut buffer = Buffer::new();
    let digits = buffer.format(port).as_bytes();
    is_joined(host, b"127.0.0.1:", digits) || is_joined(host, b"localhost:", digits)
}

/// The value of the only Host, if it names this server.
fn own_host<'b>(buf: &'b [u8], spans: &[HeaderSpan], port: u16) -> Option<&'b [u8]>
    requires { All (IsHeaderWithin (length buf.now)) spans.now }
    ensures { option_map (λ v. v.now) result ≡ own_host port (fields_of buf.now spans.now) }
{
    let host = only_value(buf, spans, b"Host")?;
    if is_own_host(host, port) {
        Some(host)
    } else {
        None
    }
}

/// Whether the only Origin is that of a page that came from this host.
fn has_origin(buf: &[u8], spans: &[HeaderSpan], host: &[u8]) -> bool
    requires { All (IsHeaderWithin (length buf.now)) spans.now }
    ensures { result ≡ has_origin host.now (fields_of buf.now spans.now) }
{
    match only_value(buf, spans, b"Origin") {
        Some(origin) => is_joined(origin, b"http://", host),
        None => false,
    }
}

/// What a request for the desk is answered, from this host.
fn desk_answer(
    buf: &[u8],
    request: &RequestSpans,
    spans: &[HeaderSpan],
    host: &[u8],
    port: u16,
) -> Answer
    requires within { IsRequestWithin buf.now spans.now request.now }
    requires to_server { own_host port (spanned buf.now spans.now request.now).fields ≡ Some host.now }
    ensures { let r = spanned buf.now spans.now request.now in IsRowAnswer (desk_row host.now r) r.fields result }
{
    let checked = check_request(buf, request, spans);
    if let Err(
        HandshakeError::WrongHttpMethod
        | HandshakeError::WrongHttpVersion
        | HandshakeError::MissingConnectionUpgradeHeader
        | HandshakeError::MissingUpgradeWebSocketHeader,
    ) = checked
    {
        return Answer::Refused(Refusal::NotFound);
    }
    if !has_origin(buf, &spans[..request.headers], host) {
        return Answer::Refused(Refusal::Forbidden);
    }
    match checked {
        Ok(accept_key) => Answer::Desk(Pass::new(port, accept_key)),
        Err(_) => Answer::Refused(Refusal::BadRequest),
    }
}

/// What a request to this port is answered: by the first row of the table that fits.
pub(crate) fn route(buf: &[u8], request: &RequestSpans, spans: &[HeaderSpan], port: u16) -> Answer
    requires { IsRequestWithin buf.now spans.now request.now }
    ensures { IsAnswer port (spanned buf.now spans.now request.now) result }
{
    let Some(host) = own_host(buf, &spans[..request.headers], port) else {
        return Answer::Refused(Refusal::Forbidden);
    };
    let target = request.path.of(buf);
    let is_page = target == b"/".as_slice();
    if !is_page && target != b"/desk".as_slice() {
        return Answer::Refused(Refusal::NotFound);
    }
    let method = request.method.of(buf);
    let is_head = method == b"HEAD".as_slice();
    if !is_head && method != b"GET".as_slice() {
        return Answer::Refused(Refusal::MethodNotAllowed);
    }
    if !is_page {
        return desk_answer(buf, request, spans, host, port);
    }
    if is_head {
        Answer::HeadOfPage
    } else {
        Answer::Page
    }
}
