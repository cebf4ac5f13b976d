//! The same session however its input is cut in two: the bytes after the handshake are not lost.
use crate::apps::Heard;
use crate::rows::{Row, Written, check_halves};
use crate::serving::App;
use crate::texts::{ACCEPTED, GET, HANDSHAKE, HELLO, HELLO_BACK, NOT_FOUND};
use asgi_conn::Outcome;
use std::io::ErrorKind;
use std::test::Fail;

const ROWS: &[Row] = &[
    (
        App::Listens(&[
            Heard::Connect,
            Heard::Text("Hello"),
            Heard::Disconnect(1006, ""),
        ]),
        &[HANDSHAKE, HELLO],
        Written::Just(&[ACCEPTED, HELLO_BACK]),
        (Outcome::InputBroke, 1, 0),
    ),
    // Fragments with a ping between them, and a close with a reason.
    (
        App::Listens(&[
            Heard::Connect,
            Heard::Text("Hello"),
            Heard::Disconnect(1001, "by"),
        ]),
        &[
            HANDSHAKE,
            b"\x01\x83\0\0\0\0Hel",
            b"\x89\x80\0\0\0\0",
            b"\x80\x82\0\0\0\0lo",
            b"\x88\x84\0\0\0\0\x03\xe9by",
        ],
        Written::Around(&[ACCEPTED], b""),
        (Outcome::Finished, 1, 0),
    ),
    (
        App::WsEcho,
        &[GET, GET, HANDSHAKE, HELLO],
        Written::Just(&[NOT_FOUND, NOT_FOUND, ACCEPTED, HELLO_BACK]),
        (Outcome::InputBroke, 3, 0),
    ),
];

#[test]
fn cuts_change_nothing(rt: HostRuntime) -> Result<(), Fail> {
    check_halves(&rt, ROWS, None)
}

#[test]
fn cuts_with_waits_change_nothing(rt: HostRuntime) -> Result<(), Fail> {
    check_halves(&rt, ROWS, Some(ErrorKind::WouldBlock))
}
