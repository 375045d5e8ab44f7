//! The first bytes of a connection are read as a request head.
ghost use Rattle.std.specs.Prelude.{◌≡◌};
ghost use Rattle.hd_routes.specs.Heads.{front_of, fault_refusal, IsReading, IsWithin};

use crate::answer::{Answer, Refusal};
use crate::route::route;
use httparse::spans::{EMPTY_HEADER_SPAN, parse_request};
use httparse::{Error, Status};

/// The most bytes of a head: 16 KiB.
pub const MOST_BYTES: usize = 16_384;

/// The most fields of a head.
const MOST_FIELDS: usize = 128;

/// What the first bytes of a connection are.
#[derive(Clone, Copy, Debug, PartialEq, Eq)]
pub enum Reading {
    /// The beginning of a head: more bytes are awaited.
    Unfinished,
    /// No head, answered so.
    NoHead(Refusal),
    /// A whole head: what it is answered, and how many bytes it has.
    Whole(Answer, usize),
}

/// As much of the bytes as may be a head.
fn front_of(bytes: &[u8]) -> &[u8]
    ensures { result.now ≡ front_of bytes.now }
{
    if bytes.len() < MOST_BYTES {
        bytes
    } else {
        &bytes[..MOST_BYTES]
    }
}

/// What bytes are answered that are no head, by why they are none.
fn fault_refusal(error: Error) -> Refusal
    ensures { result ≡ fault_refusal error }
{
    match error {
        Error::TooManyHeaders => Refusal::HeadTooLarge,
        _ => Refusal::BadRequest,
    }
}

/// What the first bytes of a connection to a port are answered. A head has at most 16,384 bytes and 128 fields (RFC 6585,
/// section 5, for one that has more).
pub fn read_head(bytes: &[u8], port: u16) -> Reading
    ensures reading { IsReading port bytes.now result }
    ensures within { IsWithin bytes.now result }
{
    let front = front_of(bytes);
    let mut spans = [EMPTY_HEADER_SPAN; MOST_FIELDS];
    match parse_request(front, &mut spans) {
        Ok(Status::Complete(request)) => {
            Reading::Whole(route(front, &request, &spans, port), request.len)
        }
        Ok(Status::Partial) => {
            if bytes.len() < MOST_BYTES {
                Reading::Unfinished
            } else {
                Reading::NoHead(Refusal::HeadTooLarge)
            }
        }
        Err(error) => Reading::NoHead(fault_refusal(error)),
    }
}
