//! What a reader gives for an opening handshake, and which bytes come after it (RFC 6455, section 4.2.1).
use crate::calls::{Setting, holds, is_need, is_whole, new_reader, of_given, put, take};
use asgi_request::{Next, RequestReader};
use asgi_types::{Facts, Framing, Scope};
use std::alloc::{AllocError, Global};
use std::test::Fail;

const HANDSHAKE: &[u8] =
    b"GET /c?d HTTP/1.1\r\nHost: a\r\nUpgrade: websocket\r\nConnection: Upgrade\r\nSec-WebSocket-Key: dGhlIHNhbXBsZSBub25jZQ==\r\nSec-WebSocket-Version: 13\r\nSec-WebSocket-Protocol: chat, superchat\r\n\r\n";

/// A frame of a client (RFC 6455, section 5.7).
const FRAME: &[u8] = b"\x81\x85\x37\xfa\x21\x3d\x7f\x9f\x4d\x51\x58";

/// Whether the result is the head of the handshake.
fn is_head(next: &Next) -> bool {
    match next {
        Next::Head(Scope::WebSocket(scope), facts) => {
            scope.scheme.as_str() == "ws"
                && scope.raw_path.bytes() == b"/c".as_slice()
                && scope.query_string.bytes() == b"d".as_slice()
                && scope.subprotocols.len() == 2
                && scope.extensions.websocket_http_response
                && are_facts(facts)
        }
        _ => false,
    }
}

fn are_facts(facts: &Facts) -> bool {
    facts.framing == Framing::Upgrade
        && facts.key == *b"dGhlIHNhbXBsZSBub25jZQ=="
        && facts.subprotocols.len() == 2
        && !facts.expect
}

/// Whether the frame comes after the handshake, once that was given.
fn keeps(reader: RequestReader) -> bool {
    let is_held = holds(&reader, FRAME);
    let rest = rest_of(reader);
    is_held && rest.as_slice() == FRAME
}

// What a test proves needs none of the clauses of this call.
fn rest_of(reader: RequestReader) -> Vec<u8> {
    reader.rest()
}

/// Fed in two pieces, the handshake is given with nothing after it.
fn gives_handshake(
    reader: &mut RequestReader,
    front: &[u8],
    after: &[u8],
) -> Result<bool, AllocError> {
    put(reader, front)?;
    let waits = of_given(take(reader), is_need)?;
    put(reader, after)?;
    let head = of_given(take(reader), is_head)?;
    let whole = of_given(take(reader), is_whole)?;
    put(reader, FRAME)?;
    let need = of_given(take(reader), is_need)?;
    Ok(waits && head && whole && need)
}

/// The handshake is given, and the frame after it stays.
fn is_given(alloc: Global, cut: usize) -> Result<bool, AllocError> {
    let (front, after) = HANDSHAKE.split_at(cut.min(HANDSHAKE.len()));
    let mut reader = new_reader(alloc, Setting::Usual);
    let is_given = gives_handshake(&mut reader, front, after);
    let is_kept = keeps(reader);
    Ok(is_given? && is_kept)
}

/// Where the handshake is cut.
const CUTS: &[usize] = &[0, 1, 60, 150];

#[test]
fn the_bytes_after_a_handshake_are_kept(rt: HostRuntime) -> Result<(), Fail> {
    for cut in CUTS {
        let given = is_given(rt.alloc(), *cut)?;
        assert!(rt; given, "{cut}");
    }
    Ok(())
}
