//! The rules that an event must meet at its place, apart from its order.
ghost use Rattle.std.specs.Prelude.{◌≡◌, ◌∷◌, [], IfSome, codes};
ghost use Rattle.std.specs.List.{list_any};
ghost use Rattle.asgi_protocol.specs.Rules.{is_status as is_status_code, is_close_code as is_code, is_offered as is_one_of, is_handshake_name as is_name, is_framing_name as is_framing, has_bad_status as bad_status, has_bad_header as bad_header, has_bad_code as bad_code, has_bad_reason as bad_reason, has_bad_subprotocol as bad_subprotocol, promised_length as promised_length_of, has_no_content as is_bare};
ghost use Rattle.asgi_protocol.specs.private.Steps.{length_in};

use crate::content_length::{CONTENT_LENGTH, ContentLength};
use asgi_types::{Chars, Facts, Headers, Names, Outgoing};

const PROTOCOL: &[u8] = b"sec-websocket-protocol";

const ACCEPT: &[u8] = b"sec-websocket-accept";

const EXTENSIONS: &[u8] = b"sec-websocket-extensions";

const UPGRADE: &[u8] = b"upgrade";

const CONNECTION: &[u8] = b"connection";

const CODING: &[u8] = b"transfer-encoding";

/// Whether the event is a start with a status outside 200 to 599.
pub(crate) fn has_bad_status(event: &Outgoing) -> bool
    ensures { result ≡ bad_status event.now }
{
    match event {
        Outgoing::ResponseStart { status, .. } => !is_status(*status),
        Outgoing::DenialStart { status, .. } => !is_status(*status),
        _ => false,
    }
}

/// What the content-length fields of a start give. Any other event has none.
pub(crate) fn length_of(event: &Outgoing) -> ContentLength
    ensures { result ≡ length_in event.now }
{
    match event {
        Outgoing::ResponseStart { headers, .. } => ContentLength::of(headers),
        Outgoing::DenialStart { headers, .. } => ContentLength::of(headers),
        _ => ContentLength::Absent,
    }
}

/// Whether the event is a start with a faulty content-length, trailers with a field that delimits
/// content, or an accept with a field of the handshake.
pub(crate) fn has_bad_header(event: &Outgoing, length: ContentLength) -> bool
    requires { length ≡ length_in event.now }
    ensures { result ≡ bad_header event.now }
{
    match event {
        Outgoing::ResponseStart { .. } | Outgoing::DenialStart { .. } => length.is_faulty(),
        Outgoing::ResponseTrailers { headers, .. } => has_framing_field(headers),
        Outgoing::WsAccept { headers, .. } => has_handshake_field(headers),
        _ => false,
    }
}

/// Whether the event is a close with a code that an application may not send.
pub(crate) fn has_bad_code(event: &Outgoing) -> bool
    ensures { result ≡ bad_code event.now }
{
    match event {
        Outgoing::WsClose { code, .. } => !is_close_code(*code),
        _ => false,
    }
}

/// Whether the event is a close with a reason of more than 123 bytes.
pub(crate) fn has_bad_reason(event: &Outgoing) -> bool
    ensures { result ≡ bad_reason event.now }
{
    match event {
        Outgoing::WsClose { reason, .. } => reason.as_str().len() > 123,
        _ => false,
    }
}

/// Whether the event is an accept with a subprotocol that the client does not offer.
pub(crate) fn has_bad_subprotocol(facts: &Facts, event: &Outgoing) -> bool
    ensures { result ≡ bad_subprotocol facts.now event.now }
{
    match event {
        Outgoing::WsAccept { subprotocol, .. } => !is_offered(&facts.subprotocols, subprotocol),
        _ => false,
    }
}

/// How many bytes the bodies after this start must have, by what its content-length fields give; any
/// number in a response to HEAD, for 204, for 304 and if no length is given.
pub(crate) fn promised_length(facts: &Facts, start: &Outgoing, length: ContentLength) -> Option<u64>
    requires { length ≡ length_in start.now }
    ensures { result ≡ promised_length_of facts.now (start.now ∷ []) }
{
    if facts.head_only {
        return None;
    }
    match start {
        Outgoing::ResponseStart { status, .. } => length.promised_at(*status),
        Outgoing::DenialStart { status, .. } => length.promised_at(*status),
        _ => None,
    }
}

/// Whether the status is 204 or 304, whose responses have no content (RFC 9110, sections 15.3.5 and
/// 15.4.5).
pub fn has_no_content(status: u16) -> bool
    ensures { result ≡ is_bare status }
{
    status == 204 || status == 304
}

fn is_status(status: u16) -> bool
    ensures { result ≡ is_status_code status }
{
    200 <= status && status <= 599
}

fn is_close_code(code: u16) -> bool
    ensures { result ≡ is_code code }
{
    (1000 <= code && code <= 1003)
        || (1007 <= code && code <= 1011)
        || (3000 <= code && code <= 4999)
}

/// Whether one of the fields delimits content, or is the connection's own: no trailer section may
/// have it (RFC 9110, section 6.5.1).
pub fn has_framing_field(headers: &Headers) -> bool
    ensures { result ≡ list_any (λ field. is_framing field.name) headers.now }
{
    headers.iter().any(|field| is_framing_name(field.0))
}

fn is_framing_name(name: &[u8]) -> bool
    ensures { result ≡ is_framing name.now }
{
    name == CONTENT_LENGTH || name == CODING || name == CONNECTION
}

fn has_handshake_field(headers: &Headers) -> bool
    ensures { result ≡ list_any (λ field. is_name field.name) headers.now }
{
    for (name, _) in headers.iter() {
        if is_handshake_name(name) {
            return true;
        }
    }
    false
}

fn is_handshake_name(name: &[u8]) -> bool
    ensures { result ≡ is_name name.now }
{
    name == PROTOCOL
        || name == ACCEPT
        || name == EXTENSIONS
        || name == UPGRADE
        || name == CONNECTION
        || name == CONTENT_LENGTH
        || name == CODING
}

/// Whether the subprotocol, if there is one, is among the offers, byte for byte.
fn is_offered(offers: &Names, subprotocol: &Option<Chars>) -> bool
    ensures { result ≡ is_one_of offers.now subprotocol.now }
{
    let Some(name) = subprotocol else {
        return true;
    };
    for index in 0..offers.len() {
        let Some(offer) = offers.at(index) else {
            return false;
        };
        if offer.as_str() == name.as_str() {
            return true;
        }
    }
    false
}
