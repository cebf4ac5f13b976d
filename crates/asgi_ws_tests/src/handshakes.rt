//! The responses of a server, from RFC 6455 and with the standard's fields.

use super::calls::of;
use asgi_types::{
    Chars, Facts, Framing, HeaderError, Headers, HttpVersion, Names, Octets, Outgoing,
};
use asgi_ws::{accept_text, accept_value, denied_text};
use std::alloc::{AllocError, Global};
use std::process::Abort;
use std::test::Fail;

/// The key of RFC 6455, section 1.3, and its accept value.
const KEY: &[u8; 24] = b"dGhlIHNhbXBsZSBub25jZQ==";

const ANSWER: &[u8] = b"s3pPLMBiTxaQ9kYGzzhZRbK+xOo=";

/// The facts of a handshake with this key.
fn facts(alloc: Global) -> Facts {
    Facts {
        version: HttpVersion::V11,
        head_only: false,
        close: false,
        expect: false,
        trailers_ok: false,
        framing: Framing::Upgrade,
        key: *KEY,
        subprotocols: Names::new(alloc),
    }
}

fn headers_of(alloc: Global, fields: &[(&str, &str)]) -> Result<Headers, HeaderError> {
    let mut headers = Headers::new(alloc);
    match push_all(&mut headers, fields) {
        Ok(()) => Ok(headers),
        Err(e) => Err(e),
    }
}

fn push_all(headers: &mut Headers, fields: &[(&str, &str)]) -> Result<(), HeaderError> {
    for (name, value) in fields {
        push(headers, name.as_bytes(), value.as_bytes())?;
    }
    Ok(())
}

// What a test proves needs none of the clauses of this call.
fn push(headers: &mut Headers, name: &[u8], value: &[u8]) -> Result<(), HeaderError> {
    headers.push(name, value)
}

fn accept(alloc: Global, name: &str, fields: &[(&str, &str)]) -> Result<Outgoing, HeaderError> {
    let headers = headers_of(alloc, fields)?;
    let subprotocol = named(alloc, name)?;
    Ok(Outgoing::WsAccept {
        subprotocol,
        headers,
    })
}

fn named(alloc: Global, name: &str) -> Result<Option<Chars>, AllocError> {
    if name.is_empty() {
        return Ok(None);
    }
    Ok(Some(Chars::new(String::from_str(alloc, name)?)))
}

// What a test proves needs none of the clauses of this call.
fn text_for(alloc: Global, event: &Outgoing) -> Result<Vec<u8>, AllocError> {
    accept_text(alloc, &facts(alloc), event)
}

/// The status line and the server's own fields.
const HEAD: &str =
    "HTTP/1.1 101 Switching Protocols\r\nupgrade: websocket\r\nconnection: Upgrade\r\nsec-websocket-accept: s3pPLMBiTxaQ9kYGzzhZRbK+xOo=\r\n";

/// Whether the response is 101 with the server's fields, and then these lines.
fn ends_with(alloc: Global, event: &Outgoing, lines: &str) -> Result<bool, AllocError> {
    let text = text_for(alloc, event)?;
    let after = text.as_slice().strip_prefix(HEAD.as_bytes());
    Ok(after == Some(lines.as_bytes()))
}

/// The subprotocol, the application's fields, and the lines that they produce.
const ACCEPTED: &[(&str, &[(&str, &str)], &str)] = &[
    ("", &[], "\r\n"),
    (
        "chat",
        &[("x-a", "q")],
        "sec-websocket-protocol: chat\r\nx-a: q\r\n\r\n",
    ),
    ("v1.Bar", &[], "sec-websocket-protocol: v1.Bar\r\n\r\n"),
    (
        "",
        &[("Set-Cookie", "a=b"), ("X", ""), ("set-cookie", "c=d")],
        "set-cookie: a=b\r\nx: \r\nset-cookie: c=d\r\n\r\n",
    ),
];

/// Whether the response to an "Accept" with these has these lines.
fn is_accepted(
    alloc: Global,
    name: &str,
    fields: &[(&str, &str)],
    lines: &str,
) -> Result<bool, HeaderError> {
    let event = accept(alloc, name, fields)?;
    let found = of(event, |event| ends_with(alloc, event, lines));
    Ok(found?)
}

#[test]
fn a_handshake_is_accepted(rt: HostRuntime) -> Result<(), Fail> {
    for (name, fields, lines) in ACCEPTED {
        let accepted = is_accepted(rt.alloc(), name, fields, lines)?;
        assert!(rt; accepted, "{lines}");
    }
    Ok(())
}

/// The length of the text for the event.
fn text_len(alloc: Global, event: &Outgoing) -> Result<usize, AllocError> {
    Ok(text_for(alloc, event)?.len())
}

#[test]
fn another_event_has_no_text(rt: HostRuntime) -> Result<(), Fail> {
    let event = Outgoing::DenialBody {
        body: Octets::new(Vec::new(rt.alloc())),
        more_body: false,
    };
    let len = of(event, |event| text_len(rt.alloc(), event))?;
    assert!(rt; len == 0);
    Ok(())
}

const REFUSAL: &[u8] = b"HTTP/1.1 403 Forbidden\r\ncontent-length: 0\r\nconnection: close\r\n\r\n";

#[test]
fn a_handshake_is_refused(rt: HostRuntime) -> Result<(), Fail> {
    assert!(rt; denied_text() == REFUSAL);
    Ok(())
}

#[test]
fn a_key_is_answered(rt: HostRuntime) -> Result<(), Fail> {
    let value = accept_value(KEY);
    assert!(rt; value.as_slice() == ANSWER);
    Ok(())
}

/// An "Accept" with a subprotocol and a field.
fn chosen(alloc: Global) -> Result<Outgoing, HeaderError> {
    accept(alloc, "chat", &[("x-a", "q")])
}

const CHOSEN: &str = "sec-websocket-protocol: chat\r\nx-a: q\r\n\r\n";

/// Whether the response to `chosen` has both. If memory was refused, it is made once more.
fn has_chosen(alloc: Global, event: &Outgoing) -> Result<bool, AllocError> {
    ends_with(alloc, event, CHOSEN).or_else(|_| ends_with(alloc, event, CHOSEN))
}

#[test]
fn memory_for_an_answer(rt: HostRuntime) -> Result<(), Fail> {
    let alloc = rt.alloc();
    let event = chosen(alloc).or_else(|_| chosen(alloc))?;
    let given = of(event, |event| has_chosen(alloc, event))?;
    assert!(rt; given);
    Ok(())
}
