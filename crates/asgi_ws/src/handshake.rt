//! The response to an opening handshake.
ghost use Rattle.std.specs.Prelude.{◌≡◌, ◌++◌, [], IfOk, OnOk, OnErr, flat_map, Some};
ghost use Rattle.asgi_response.specs.Exchange.{refusal_text as text_of_refusal};
ghost use Rattle.asgi_response.specs.Fields.{field_line};
ghost use Rattle.asgi_ws.specs.Handshake as spec;

use crate::accept::accept_value;
use asgi_response::{append_all, refusal_text, write_field};
use asgi_types::{Chars, Facts, Headers, Outgoing};
use std::alloc::{AllocError, Global};

const SWITCHING: &[u8] =
    b"HTTP/1.1 101 Switching Protocols\r\nupgrade: websocket\r\nconnection: Upgrade\r\nsec-websocket-accept: ";

const SEC_WEBSOCKET_PROTOCOL: &[u8] = b"sec-websocket-protocol";

const CRLF: &[u8] = b"\r\n";

/// The response that accepts the handshake of the facts, for an "Accept" that a judge passed: the
/// whole 101, to its empty line (RFC 6455, section 4.2.2; ASGI HTTP and WebSocket message format
/// 2.4, "Accept"). Any other event has no text. `AllocError` if memory is refused.
pub fn accept_text(alloc: Global, facts: &Facts, event: &Outgoing) -> Result<Vec<u8>, AllocError>
    ensures text { IfOk result (λ text. text.items ≡ spec.accept_text facts.now event.now) }
    ensures memory { OnErr result (¬ (spec.accept_text facts.now event.now ≡ [])) }
{
    match event {
        Outgoing::WsAccept {
            subprotocol,
            headers,
        } => handshake_text(alloc, &facts.key, subprotocol, headers),
        _ => Ok(Vec::new(alloc)),
    }
}

/// The response that refuses a handshake: a whole 403 without content, after which the connection
/// closes (ASGI HTTP and WebSocket message format 2.4, "Close").
pub fn denied_text() -> &'static [u8]
    ensures { result.now ≡ text_of_refusal 403 }
{
    refusal_text(403)
}

/// The response that accepts a handshake with this key.
fn handshake_text(
    alloc: Global,
    key: &[u8; 24],
    subprotocol: &Option<Chars>,
    headers: &Headers,
) -> Result<Vec<u8>, AllocError>
    ensures { IfOk result (λ text. text.items ≡ spec.handshake_text key.now subprotocol.now headers.now) }
{
    let mut out = Vec::new(alloc);
    append_all(&mut out, &[SWITCHING, &accept_value(key), CRLF])?;
    append_subprotocol(&mut out, subprotocol)?;
    append_fields(&mut out, headers)?;
    out.extend_from_slice(CRLF)?;
    Ok(out)
}

/// Appends the line of the chosen subprotocol, if there is one.
fn append_subprotocol(out: &mut Vec<u8>, subprotocol: &Option<Chars>) -> Result<(), AllocError>
    ensures { OnOk result (out.new.items ≡ out.old.items ++ flat_map field_line (spec.protocol_field subprotocol.now)) }
{
    match subprotocol {
        Some(name) => append_protocol(out, name.as_str().as_bytes()),
        None => Ok(()),
    }
}

/// Appends the line of this subprotocol.
fn append_protocol(out: &mut Vec<u8>, name: &[u8]) -> Result<(), AllocError>
    ensures { OnOk result (out.new.items ≡ out.old.items ++ flat_map field_line (spec.protocol_field (Some name.now))) }
{
    write_field(out, SEC_WEBSOCKET_PROTOCOL, name)?;
    Ok(())
}

/// Appends the lines of the fields.
fn append_fields(out: &mut Vec<u8>, headers: &Headers) -> Result<(), AllocError>
    ensures { OnOk result (out.new.items ≡ out.old.items ++ flat_map field_line headers.now) }
{
    for (name, value) in headers.iter() {
        write_field(out, name, value)?;
    }
    Ok(())
}
