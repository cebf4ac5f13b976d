//! How the body of a request is delimited.
ghost use Rattle.std.specs.Prelude.{◌≡◌, ◌≢◌, ◌&&◌, not, codes, Ok};
ghost use Rattle.asgi_types.specs.declared.facts.Framing.{Framing};
ghost use Rattle.asgi_request.specs.BodyLength as spec;
ghost use Rattle.asgi_request.specs.Framings as framings;
ghost use Rattle.asgi_request.specs.FieldValues.{count_named};
ghost use Rattle.asgi_request.specs.private.Steps.{is_delimiter as is_delimiter_name};
ghost use Rattle.std.specs.List.{list_any};

use crate::fields::{count_named, value_named};
use crate::head::HeadRecord;
use crate::refusal::Refusal;
use crate::target::is_target;
use asgi_types::{Framing, Headers, HttpVersion, Limits, parse_length};

const CONNECT: &[u8] = b"CONNECT";

const HOST: &[u8] = b"host";

const CONTENT_LENGTH: &[u8] = b"content-length";

const TRANSFER_ENCODING: &[u8] = b"transfer-encoding";

const CHUNKED: &[u8] = b"chunked";

/// How the body of a request is delimited, or the status with which its head is refused (RFC 9112,
/// section 6.3).
#[derive(Clone, Copy, Debug, PartialEq, Eq)]
pub enum HeadFraming {
    /// This many bytes; 0 if there is no body.
    Length(u64),
    /// The chunked transfer coding (RFC 9112, section 7.1).
    Chunked,
    /// The head is refused with this status: 400, 413 or 501.
    Bad(u16),
}

/// How the body of the request is delimited, or with which status its head is refused: 501 for
/// CONNECT and for a coding other than `chunked` alone, 413 if `content-length` is above
/// `max_body`, 400 for a target, a Host field or a framing that is faulty (RFC 9112, sections 3.2,
/// 6.1 and 6.3). It takes no memory.
pub fn framing_of(head: &HeadRecord, limits: &Limits) -> HeadFraming
    ensures { result ≡ framings.framing_of head.now limits.now }
{
    match framing_or_refusal(head, limits) {
        Ok(Framing::Length(n)) => HeadFraming::Length(n),
        Ok(Framing::Chunked) => HeadFraming::Chunked,
        Ok(Framing::Upgrade) => HeadFraming::Length(0),
        Err(refusal) => HeadFraming::Bad(refusal.status()),
    }
}

/// The same, with the reason of a refusal: the first case that holds. The framing is never
/// `Upgrade`.
pub fn framing_or_refusal(head: &HeadRecord, limits: &Limits) -> Result<Framing, Refusal>
    ensures first { result ≡ spec.framing_or_refusal head.now limits.now }
    ensures body { result ≢ Ok Framing.Upgrade }
{
    if head.method.as_str().as_bytes() == CONNECT {
        return Err(Refusal::NotImplemented);
    }
    if !is_target(head.method.as_str().as_bytes(), head.target.bytes()) {
        return Err(Refusal::BadRequest);
    }
    if lacks_host(head) {
        return Err(Refusal::BadRequest);
    }
    body_length(head.version, &head.headers, limits.max_body)
}

/// Whether HTTP/1.1 requires a Host field that isn't there, or is there more than once.
fn lacks_host(head: &HeadRecord) -> bool
    ensures { result ≡ spec.lacks_host head.now }
{
    head.version == HttpVersion::V11 && count_named(&head.headers, HOST) != 1
}

/// Message body length, by the fields (RFC 9112, section 6.3): the first case that holds.
fn body_length(version: HttpVersion, headers: &Headers, max_body: u64) -> Result<Framing, Refusal>
    ensures first { result ≡ spec.body_length version headers.now max_body }
    ensures body { result ≢ Ok Framing.Upgrade }
{
    // Most requests have no body.
    if !delimits_body(headers) {
        return Ok(Framing::Length(0));
    }
    let lengths = count_named(headers, CONTENT_LENGTH);
    let codings = count_named(headers, TRANSFER_ENCODING);
    if lengths > 0 && codings > 0 {
        return Err(Refusal::BadRequest);
    }
    if lengths > 1 {
        return Err(Refusal::BadRequest);
    }
    let length = parse_length(value_named(headers, CONTENT_LENGTH));
    if lengths > 0 && is_missing(length) {
        return Err(Refusal::BadRequest);
    }
    if codings > 0 && version == HttpVersion::V10 {
        return Err(Refusal::BadRequest);
    }
    if codings > 0 && !is_chunked(headers, codings) {
        return Err(Refusal::NotImplemented);
    }
    if exceeds(length, max_body) {
        return Err(Refusal::ContentTooLarge);
    }
    if codings > 0 {
        return Ok(Framing::Chunked);
    }
    Ok(Framing::Length(length.unwrap_or(0)))
}

/// Whether a field says how the body is delimited.
fn delimits_body(headers: &Headers) -> bool
    ensures { result ≡ list_any (λ field. is_delimiter_name field.name) headers.now }
{
    headers.iter().any(|field| is_delimiter(field.0))
}

fn is_delimiter(name: &[u8]) -> bool
    ensures { result ≡ is_delimiter_name name.now }
{
    name == CONTENT_LENGTH || name == TRANSFER_ENCODING
}

fn is_missing(length: Option<u64>) -> bool
    ensures { result ≡ spec.is_missing length }
{
    match length {
        None => true,
        Some(_) => false,
    }
}

fn exceeds(length: Option<u64>, most: u64) -> bool
    ensures { result ≡ spec.exceeds length most }
{
    match length {
        None => false,
        Some(n) => n > most,
    }
}

/// Whether the coding is `chunked` and nothing else.
fn is_chunked(headers: &Headers, codings: usize) -> bool
    requires { codings ≡ count_named headers.now (codes "transfer-encoding") }
    ensures { result ≡ spec.is_chunked headers.now }
{
    codings == 1 && value_named(headers, TRANSFER_ENCODING).eq_ignore_ascii_case(CHUNKED)
}
