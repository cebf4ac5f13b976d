//! What is due after a text.
ghost use Rattle.std.specs.Prelude.{◌≡◌, true};
ghost use Rattle.asgi_request.specs.Places as spec;
ghost use Rattle.asgi_request.specs.Places.{JudgesText};
ghost use Rattle.asgi_request.specs.private.Searches.{is_silent, passing};

use crate::parts::parse_size;
use crate::place::Place;
use crate::refusal::Refusal;
use asgi_types::{Framing, Limits};

const CRLF: &[u8] = b"\r\n";

/// Why bytes with no text within its limit are refused: 431 for a head (RFC 6585, section 5), else
/// 400.
pub fn why_too_long(place: Place) -> Refusal
    ensures { spec.bad result ≡ spec.after_too_long place }
{
    match place {
        Place::Start => Refusal::HeaderFieldsTooLarge,
        _ => Refusal::BadRequest,
    }
}

/// The place after the head: the body, or the end of an opening handshake.
pub fn body_place(framing: Framing) -> Place
    ensures { result ≡ spec.body_place framing }
{
    match framing {
        Framing::Length(n) => Place::Counted(n),
        Framing::Chunked => Place::SizeLine(0),
        Framing::Upgrade => Place::HandshakeEnd,
    }
}

/// The place after a whole text that gives no result: a size line, or CR LF after the data of a
/// chunk (RFC 9112, section 7.1). `Stopped` with 400 if the text is neither, and with 413 if the
/// data of all chunks has more bytes than `max_body`.
pub fn after_silent(limits: &Limits, place: Place, text: &[u8]) -> Place
    requires { is_silent place ≡ true }
    ensures { JudgesText limits.now place text.now (passing result) }
{
    match place {
        Place::SizeLine(sum) => after_size(limits.max_body, sum, parse_size(text)),
        Place::ChunkEnd(sum) => after_chunk_end(sum, text),
        _ => unreachable!(),
    }
}

fn after_size(max_body: u64, sum: u64, found: Option<u64>) -> Place
    ensures { passing result ≡ spec.after_size max_body sum found }
{
    let Some(n) = found else {
        return Place::Stopped(Refusal::BadRequest);
    };
    let Some(total) = sum.checked_add(n) else {
        return Place::Stopped(Refusal::ContentTooLarge);
    };
    if total > max_body {
        return Place::Stopped(Refusal::ContentTooLarge);
    }
    if n == 0 {
        return Place::Trailers;
    }
    Place::Chunk {
        left: n,
        sum: total,
    }
}

fn after_chunk_end(sum: u64, pair: &[u8]) -> Place
    ensures { passing result ≡ spec.after_chunk_end sum pair.now }
{
    if pair == CRLF {
        return Place::SizeLine(sum);
    }
    Place::Stopped(Refusal::BadRequest)
}
