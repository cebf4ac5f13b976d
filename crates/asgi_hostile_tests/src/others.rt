//! What is no HTTP/1.1 at all.
use crate::rows::{BAD, EVIL, OPEN, Row, check};
use asgi_fakes::App;
use std::test::Fail;

const OTHERS: &[Row] = &[
    // RFC 9112, 2.3: only HTTP/1.0 and HTTP/1.1 are served. With no empty line there is no head, and nothing is answered.
    ("a request of HTTP/0.9", &[b"GET /\r\n"], OPEN),
    (
        "a request of HTTP/0.9 with an empty line",
        &[b"GET /\r\n\r\n"],
        BAD,
    ),
    ("a request of HTTP/0.9 with LF alone", &[b"GET /\n\n"], BAD),
    // RFC 9113, 3.4.
    (
        "the preface of HTTP/2",
        &[b"PRI * HTTP/2.0\r\n\r\nSM\r\n\r\n\x00\x00\x00\x04\x00\x00\x00\x00\x00"],
        BAD,
    ),
    // RFC 9112, 3.2.4: the target `*` is of OPTIONS alone.
    (
        "the preface of HTTP/2 with a host",
        &[b"PRI * HTTP/1.1\r\nHost: a\r\n\r\nSM\r\n\r\n"],
        BAD,
    ),
    (
        "a frame of HTTP/2",
        &[b"\x00\x00\x00\x04\x00\x00\x00\x00\x00"],
        OPEN,
    ),
    // RFC 8446, 4.1.2: it has no empty line.
    (
        "a TLS hello",
        &[
            b"\x16\x03\x01\x00/\x01\x00\x00+\x03\x03 !\"#$%&'()*+,-./0123456789:;<=>?\x00\x00\x02\x13\x01\x01\x00\x00\x00",
        ],
        OPEN,
    ),
    (
        "a TLS hello with an empty line in it",
        &[b"\x16\x03\x01\x00/\x01\n\n"],
        BAD,
    ),
    (
        "a TLS hello and a request",
        &[b"\x16\x03\x01\x00/", EVIL],
        BAD,
    ),
    // RFC 9112, 2.1: a client sends requests.
    (
        "a response",
        &[b"HTTP/1.1 200 OK\r\nContent-Length: 0\r\n\r\n"],
        BAD,
    ),
    // RFC 9112, 3: none of these is a request line.
    (
        "the header of a proxy",
        &[b"PROXY TCP4 127.0.0.1 127.0.0.1 1 2\r\n", EVIL],
        BAD,
    ),
    (
        "the binary header of a proxy",
        &[b"\r\n\r\n\x00\r\nQUIT\n!\x11\x00\x0c", EVIL],
        BAD,
    ),
    ("the greeting of SSH", &[b"SSH-2.0-x\r\n"], OPEN),
    ("a command of SMTP", &[b"EHLO a\r\n\r\n"], BAD),
    (
        "an empty line and NUL bytes",
        &[b"\r\n\x00\x00\x00\x00"],
        OPEN,
    ),
];

#[test]
fn another_protocol_is_refused_or_not_answered(rt: HostRuntime) -> Result<(), Fail> {
    check(&rt, App::Targets, OTHERS)
}
