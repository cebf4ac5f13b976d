//! Frames of a client, over a stream: those of RFC 6455, section 5.7, and those that its rules refuse.
use crate::apps::Heard;
use crate::rows::{BOTH, Session, Written, check_sessions, is_served, joined};
use crate::serving::App;
use crate::texts::{ACCEPTED, HANDSHAKE, HELLO, HELLO_BACK};
use asgi_conn::{Host, Outcome};
use asgi_fakes::Pieces;
use std::alloc::{AllocError, Global};
use std::io;
use std::test::Fail;

const LOST: Heard = Heard::Disconnect(1006, "");

const HEARS_HELLO: &[Heard] = &[Heard::Connect, Heard::Text("Hello"), LOST];

const HEARS_NOTHING: &[Heard] = &[Heard::Connect, LOST];

const SAYS_HELLO: Written = Written::Just(&[ACCEPTED, HELLO_BACK]);

/// Texts and bytes, whole and in fragments, by the key of 5.7 and by the key 0.
const MESSAGES: &[Session] = &[
    (&[HELLO], HEARS_HELLO, SAYS_HELLO, Outcome::InputBroke),
    (
        &[b"\x81\x85\0\0\0\0Hello"],
        HEARS_HELLO,
        SAYS_HELLO,
        Outcome::InputBroke,
    ),
    // "A fragmented unmasked text message", masked.
    (
        &[b"\x01\x83\0\0\0\0Hel", b"\x80\x82\0\0\0\0lo"],
        HEARS_HELLO,
        SAYS_HELLO,
        Outcome::InputBroke,
    ),
    (
        &[
            b"\x01\x83\x37\xfa\x21\x3d\x7f\x9f\x4d",
            b"\x80\x82\x37\xfa\x21\x3d\x5b\x95",
        ],
        HEARS_HELLO,
        SAYS_HELLO,
        Outcome::InputBroke,
    ),
    (
        &[
            b"\x01\x80\0\0\0\0",
            b"\x00\x85\0\0\0\0Hello",
            b"\x80\x80\0\0\0\0",
        ],
        HEARS_HELLO,
        SAYS_HELLO,
        Outcome::InputBroke,
    ),
    // A fragment may end inside a character (5.6).
    (
        &[b"\x01\x81\0\0\0\0\xc3", b"\x80\x81\0\0\0\0\xa9"],
        &[Heard::Connect, Heard::Text("\u{e9}"), LOST],
        Written::Just(&[ACCEPTED, b"\x81\x02\xc3\xa9"]),
        Outcome::InputBroke,
    ),
    (
        &[b"\x82\x82\0\0\0\0\xff\x00"],
        &[Heard::Connect, Heard::Bytes(b"\xff\x00"), LOST],
        Written::Just(&[ACCEPTED, b"\x82\x02\xff\x00"]),
        Outcome::InputBroke,
    ),
    (
        &[b"\x02\x81\0\0\0\0\xff", b"\x80\x81\0\0\0\0\x00"],
        &[Heard::Connect, Heard::Bytes(b"\xff\x00"), LOST],
        Written::Just(&[ACCEPTED, b"\x82\x02\xff\x00"]),
        Outcome::InputBroke,
    ),
    (
        &[b"\x81\x80\0\0\0\0", b"\x82\x80\0\0\0\0", HELLO],
        &[
            Heard::Connect,
            Heard::Text(""),
            Heard::Bytes(b""),
            Heard::Text("Hello"),
            LOST,
        ],
        Written::Just(&[ACCEPTED, b"\x81\x00", b"\x82\x00", HELLO_BACK]),
        Outcome::InputBroke,
    ),
];

#[test]
fn messages_are_heard_and_echoed(rt: HostRuntime) -> Result<(), Fail> {
    check_sessions(&rt, MESSAGES)
}

/// A ping may come inside a message (5.4), and is answered by the message layer; a pong may be unsolicited.
const CONTROLS: &[Session] = &[
    (
        &[
            b"\x01\x83\0\0\0\0Hel",
            b"\x89\x80\0\0\0\0",
            b"\x80\x82\0\0\0\0lo",
        ],
        HEARS_HELLO,
        Written::Around(&[ACCEPTED], HELLO_BACK),
        Outcome::InputBroke,
    ),
    (
        &[b"\x89\x85\x37\xfa\x21\x3d\x7f\x9f\x4d\x51\x58", HELLO],
        HEARS_HELLO,
        Written::Around(&[ACCEPTED], HELLO_BACK),
        Outcome::InputBroke,
    ),
    (
        &[b"\x8a\x85\x37\xfa\x21\x3d\x7f\x9f\x4d\x51\x58", HELLO],
        HEARS_HELLO,
        SAYS_HELLO,
        Outcome::InputBroke,
    ),
    (
        &[HELLO, b"\x8a\x80\0\0\0\0"],
        HEARS_HELLO,
        SAYS_HELLO,
        Outcome::InputBroke,
    ),
];

#[test]
fn pings_and_pongs_are_not_heard(rt: HostRuntime) -> Result<(), Fail> {
    check_sessions(&rt, CONTROLS)
}

const FAILS: Written = Written::Around(&[ACCEPTED], b"");

/// Frames that the rules refuse, with a lawful one after: neither is received.
const FAULTY: &[Session] = &[
    // No mask (5.1).
    (
        &[b"\x81\x05Hello", HELLO],
        HEARS_NOTHING,
        FAILS,
        Outcome::InputBroke,
    ),
    // A length that is not in its shortest form, or has its top bit set (5.2).
    (
        &[b"\x81\xfe\x00\x05\0\0\0\0Hello", HELLO],
        HEARS_NOTHING,
        FAILS,
        Outcome::InputBroke,
    ),
    (
        &[b"\x81\xff\0\0\0\0\0\0\x00\x05\0\0\0\0Hello", HELLO],
        HEARS_NOTHING,
        FAILS,
        Outcome::InputBroke,
    ),
    (
        &[b"\x81\xff\x80\0\0\0\0\0\0\0\0\0\0\0", HELLO],
        HEARS_NOTHING,
        FAILS,
        Outcome::InputBroke,
    ),
    // Reserved bits (5.2).
    (
        &[b"\xc1\x81\0\0\0\0x", HELLO],
        HEARS_NOTHING,
        FAILS,
        Outcome::InputBroke,
    ),
    (
        &[b"\xa1\x81\0\0\0\0x", HELLO],
        HEARS_NOTHING,
        FAILS,
        Outcome::InputBroke,
    ),
    (
        &[b"\x91\x81\0\0\0\0x", HELLO],
        HEARS_NOTHING,
        FAILS,
        Outcome::InputBroke,
    ),
    // Reserved opcodes (5.2).
    (
        &[b"\x83\x80\0\0\0\0", HELLO],
        HEARS_NOTHING,
        FAILS,
        Outcome::InputBroke,
    ),
    (
        &[b"\x8b\x80\0\0\0\0", HELLO],
        HEARS_NOTHING,
        FAILS,
        Outcome::InputBroke,
    ),
    // A control frame in fragments, and one of 126 bytes (5.5).
    (
        &[b"\x09\x80\0\0\0\0", HELLO],
        HEARS_NOTHING,
        FAILS,
        Outcome::InputBroke,
    ),
    (
        &[b"\x89\xfe\x00\x7e\0\0\0\0", HELLO],
        HEARS_NOTHING,
        FAILS,
        Outcome::InputBroke,
    ),
    // A continuation of nothing, and a message inside another (5.4).
    (
        &[b"\x80\x85\0\0\0\0Hello", HELLO],
        HEARS_NOTHING,
        FAILS,
        Outcome::InputBroke,
    ),
    (
        &[b"\x01\x83\0\0\0\0Hel", HELLO],
        HEARS_NOTHING,
        FAILS,
        Outcome::InputBroke,
    ),
    // Text that is not UTF-8 (5.6, 8.1), also in its first fragment, or if the last one leaves a character open.
    (
        &[b"\x81\x81\0\0\0\0\xff", HELLO],
        HEARS_NOTHING,
        FAILS,
        Outcome::InputBroke,
    ),
    (
        &[b"\x01\x81\0\0\0\0\xff", HELLO],
        HEARS_NOTHING,
        FAILS,
        Outcome::InputBroke,
    ),
    (
        &[b"\x01\x81\0\0\0\0\xc3", b"\x80\x80\0\0\0\0", HELLO],
        HEARS_NOTHING,
        FAILS,
        Outcome::InputBroke,
    ),
    // A frame of 16 MiB and a byte, over the limit of the message layer.
    (
        &[b"\x82\xff\0\0\0\0\x01\0\0\x01\0\0\0\0", HELLO],
        HEARS_NOTHING,
        FAILS,
        Outcome::InputBroke,
    ),
    // A frame that does not come whole, and no frame at all.
    (
        &[b"\x81\x85\0\0\0\0Hell"],
        HEARS_NOTHING,
        FAILS,
        Outcome::InputBroke,
    ),
    (
        &[b"GET / HTTP/1.1\r\nHost: a\r\n\r\n"],
        HEARS_NOTHING,
        FAILS,
        Outcome::InputBroke,
    ),
    (
        &[],
        HEARS_NOTHING,
        Written::Just(&[ACCEPTED]),
        Outcome::InputBroke,
    ),
    // What came before is received.
    (
        &[HELLO, b"\x81\x05Hello"],
        HEARS_HELLO,
        Written::Around(&[ACCEPTED, HELLO_BACK], b""),
        Outcome::InputBroke,
    ),
];

#[test]
fn faulty_frames_are_not_heard(rt: HostRuntime) -> Result<(), Fail> {
    check_sessions(&rt, FAULTY)
}

/// Adds this many bytes.
fn add_bytes(text: &mut Vec<u8>, count: usize) -> Result<(), AllocError> {
    for at in 0..count {
        text.push((at % 251) as u8)?;
    }
    Ok(())
}

/// How many bytes a message has, and the head of its frame: that of the client, with the key 0, and that of the server.
type Head = (usize, &'static [u8], &'static [u8]);

/// On both sides of each form of a length (5.2).
const LONG: &[Head] = &[
    (125, b"\x82\xfd\0\0\0\0", b"\x82\x7d"),
    (126, b"\x82\xfe\x00\x7e\0\0\0\0", b"\x82\x7e\x00\x7e"),
    (256, b"\x82\xfe\x01\x00\0\0\0\0", b"\x82\x7e\x01\x00"),
    (65_535, b"\x82\xfe\xff\xff\0\0\0\0", b"\x82\x7e\xff\xff"),
    (
        65_536,
        b"\x82\xff\0\0\0\0\0\x01\0\0\0\0\0\0",
        b"\x82\x7f\0\0\0\0\0\x01\0\0",
    ),
];

fn frame(alloc: Global, front: &[u8], head: &[u8], count: usize) -> Result<Vec<u8>, AllocError> {
    let mut text = joined(alloc, front, &[head])?;
    add_bytes(&mut text, count)?;
    Ok(text)
}

const PIECES: &[usize] = &[100_000, 4_096, 1_000];

/// The first piece size with which the message is not echoed, if any.
fn wrong_piece<H: Host>(rt: &H, input: &[u8], wanted: &[u8]) -> io::Result<Option<usize>> {
    for piece in PIECES {
        let pieces = Pieces::new(input, *piece, *piece);
        let end = (Outcome::InputBroke, 1, 0);
        if !is_served(rt, BOTH, App::WsEcho, pieces, Written::Just(&[wanted]), end)? {
            return Ok(Some(*piece));
        }
    }
    Ok(None)
}

fn fails_at<H: Host>(rt: &H, row: &Head) -> io::Result<Option<usize>> {
    let input = frame(rt.alloc(), HANDSHAKE, row.1, row.0)?;
    let wanted = frame(rt.alloc(), ACCEPTED, row.2, row.0)?;
    wrong_piece(rt, &input, &wanted)
}

#[test]
fn a_message_of_each_length_is_echoed(rt: HostRuntime) -> Result<(), Fail> {
    for row in LONG {
        let piece = fails_at(&rt, row)?;
        assert!(rt;
            piece.is_none(),
            "{} bytes, pieces of {}",
            row.0,
            piece.unwrap_or(0)
        );
    }
    Ok(())
}
