//! The record of a head.
ghost use Rattle.std.specs.Prelude.{◌≡◌, ◌<◌, ◌≤◌, length, map, take, All, IfOk, IsUtf8};
ghost use Rattle.std.specs.Char.{to_ascii_uppercase};
ghost use Rattle.httparse.specs.Grammar.{RequestHead};
ghost use Rattle.httparse.specs.Spans.{span_bytes, IsHeaderWithin, IsRequestWithin, IsRequestAt};
ghost use Rattle.asgi_request.specs.Head.{record_of as record_of_head};
ghost use Rattle.asgi_request.specs.Head.{ParsesHead};
ghost use Rattle.asgi_request.specs.private.Steps.{IsKeepable, field_at};

use asgi_types::{Chars, Headers, HttpVersion, Octets};
use httparse::Status;
use httparse::spans::{EMPTY_HEADER_SPAN, HeaderSpan, RequestSpans, parse_request};
use std::alloc::{AllocError, Global};

/// The parts of a request's head (RFC 9112, sections 3 and 5).
#[derive(Drop)]
pub struct HeadRecord {
    /// HTTP/1.0 or HTTP/1.1 (RFC 9112, section 2.3).
    pub version: HttpVersion,
    /// In upper case, as in a scope.
    pub method: Chars,
    /// As received, in any form (RFC 9112, section 3.2).
    pub target: Octets,
    /// In the order received, with names in lower case and values without the blanks around them.
    pub headers: Headers,
}

/// Most heads have at most this many fields. To clear room for more would cost more than to read
/// such a head.
const FEW: usize = 32;

/// The record of a head text, from the empty lines before it to the one after it (RFC 9112,
/// sections 2.1 and 2.2), or `None` if the text is no head of at most `max_headers` fields. A text
/// that has more than 32 fields, or that is no head, is parsed twice if more than 32 are allowed.
/// `AllocError` if memory is refused.
#[tactic(auto, using(crate::proofs::RecordLemmas::more_room))]
pub fn parse_head(
    alloc: Global,
    max_headers: usize,
    text: &[u8],
) -> Result<Option<HeadRecord>, AllocError>
    requires room { max_headers ≤ 128 }
    requires short { length text.now ≤ 65535 }
    ensures { IfOk result (λ found. ParsesHead max_headers text.now found) }
{
    if FEW < max_headers {
        let mut spans = [EMPTY_HEADER_SPAN; FEW];
        let found = parse_into(alloc, text, &mut spans)?;
        if found.is_some() {
            return Ok(found);
        }
    }
    parse_full(alloc, max_headers, text)
}

/// The same, with room for as many fields as a head may have.
fn parse_full(
    alloc: Global,
    max_headers: usize,
    text: &[u8],
) -> Result<Option<HeadRecord>, AllocError>
    requires room { max_headers ≤ 128 }
    requires short { length text.now ≤ 65535 }
    ensures { IfOk result (λ found. ParsesHead max_headers text.now found) }
{
    let mut spans = [EMPTY_HEADER_SPAN; 128];
    parse_into(alloc, text, &mut spans[..max_headers])
}

/// The same, with room for as many fields as there are spans.
fn parse_into(
    alloc: Global,
    text: &[u8],
    spans: &mut [HeaderSpan],
) -> Result<Option<HeadRecord>, AllocError>
    requires { length text.now ≤ 65535 }
    ensures { IfOk result (λ found. ParsesHead (length spans.old) text.now found) }
{
    match parse_request(text, spans) {
        Ok(Status::Complete(request)) if request.len == text.len() => {
            let record = record_of(alloc, text, spans, &request)?;
            Ok(Some(record))
        }
        _ => Ok(None),
    }
}

fn record_of(
    alloc: Global,
    text: &[u8],
    spans: &[HeaderSpan],
    request: &RequestSpans,
) -> Result<HeadRecord, AllocError>
    requires within { IsRequestWithin text.now spans.now request.now }
    requires fields { All (IsKeepable text.now) (take request.now.headers spans.now) }
    requires ascii { All (λ b. b < 128) (span_bytes text.now request.now.method) }
    ensures { (head : RequestHead) → IsRequestAt text.now spans.now request.now head → IfOk result (λ r. r ≡ record_of_head head) }
{
    let method = upper_case(alloc, request.method.of(text))?;
    let target = Vec::from_slice(alloc, request.path.of(text))?;
    let headers = headers_of(alloc, text, &spans[..request.headers])?;
    let version = if request.version == 0 {
        HttpVersion::V10
    } else {
        HttpVersion::V11
    };
    Ok(HeadRecord {
        version,
        method,
        target: Octets::new(target),
        headers,
    })
}

/// The text in upper case.
fn upper_case(alloc: Global, text: &[u8]) -> Result<Chars, AllocError>
    requires { All (λ b. b < 128) text.now }
    ensures { IfOk result (λ upper. upper ≡ map to_ascii_uppercase text.now) }
{
    let bytes = upper_bytes(alloc, text)?;
    Ok(text_of(bytes))
}

fn upper_bytes(alloc: Global, text: &[u8]) -> Result<Vec<u8>, AllocError>
    ensures { IfOk result (λ bytes. bytes.items ≡ map to_ascii_uppercase text.now) }
{
    text.iter().map(|b| b.to_ascii_uppercase()).collect(alloc)
}

fn text_of(bytes: Vec<u8>) -> Chars
    requires { IsUtf8 bytes.items }
    ensures { result ≡ bytes.items }
{
    match String::from_utf8(bytes) {
        Ok(text) => Chars::new(text),
        Err(_) => unreachable!(),
    }
}

/// The fields that the spans cover.
fn headers_of(alloc: Global, text: &[u8], spans: &[HeaderSpan]) -> Result<Headers, AllocError>
    requires within { All (IsHeaderWithin (length text.now)) spans.now }
    requires fields { All (IsKeepable text.now) spans.now }
    ensures { IfOk result (λ headers. headers ≡ map (field_at text.now) spans.now) }
{
    let Some(first) = spans.first() else {
        return Ok(Headers::new(alloc));
    };
    // All fields stand after the first one's start, so none of them takes more memory.
    let room = text.len() - first.name.start;
    let mut headers = Headers::with_room(alloc, spans.len(), room)?;
    for span in spans {
        headers.push_valid(span.name.of(text), span.value.of(text))?;
    }
    Ok(headers)
}
