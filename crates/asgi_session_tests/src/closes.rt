//! Closes of the client and of the application, over a stream (RFC 6455, sections 5.5.1 and 7).
use crate::apps::{Heard, Said, Step};
use crate::rows::{Crossed, Row, Session, Written, check_crossing, check_sessions};
use crate::serving::App;
use crate::texts::{ACCEPTED, CLOSE, HANDSHAKE, HELLO, HELLO_BACK};
use asgi_conn::Outcome;
use std::test::Fail;

/// The response to the client's close is a close (5.5.1), which is the message layer's own.
const ANSWERED: Written = Written::Around(&[ACCEPTED, b"\x88"], b"");

/// Closes with a code, with none and with a reason, and what is received.
const CLOSES: &[Session] = &[
    (
        &[CLOSE],
        &[Heard::Connect, Heard::Disconnect(1000, "")],
        ANSWERED,
        Outcome::Finished,
    ),
    (
        &[b"\x88\x80\0\0\0\0"],
        &[Heard::Connect, Heard::Disconnect(1005, "")],
        ANSWERED,
        Outcome::Finished,
    ),
    (
        &[b"\x88\x84\0\0\0\0\x03\xe9by"],
        &[Heard::Connect, Heard::Disconnect(1001, "by")],
        ANSWERED,
        Outcome::Finished,
    ),
    (
        &[b"\x88\x84\x37\xfa\x21\x3d\x34\x13\x43\x44"],
        &[Heard::Connect, Heard::Disconnect(1001, "by")],
        ANSWERED,
        Outcome::Finished,
    ),
    // The edges of 7.4.2: codes of libraries, and of applications.
    (
        &[b"\x88\x82\0\0\0\0\x0b\xb8"],
        &[Heard::Connect, Heard::Disconnect(3000, "")],
        ANSWERED,
        Outcome::Finished,
    ),
    (
        &[b"\x88\x82\0\0\0\0\x13\x87"],
        &[Heard::Connect, Heard::Disconnect(4999, "")],
        ANSWERED,
        Outcome::Finished,
    ),
    // After a message, and with a message, a ping and another close after it: no data follows a close.
    (
        &[HELLO, CLOSE],
        &[
            Heard::Connect,
            Heard::Text("Hello"),
            Heard::Disconnect(1000, ""),
        ],
        Written::Around(&[ACCEPTED, HELLO_BACK, b"\x88"], b""),
        Outcome::Finished,
    ),
    (
        &[
            CLOSE,
            HELLO,
            b"\x89\x80\0\0\0\0",
            b"\x88\x82\0\0\0\0\x03\xe9",
        ],
        &[Heard::Connect, Heard::Disconnect(1000, "")],
        ANSWERED,
        Outcome::Finished,
    ),
    // Inside a message, whose first part is not received.
    (
        &[b"\x01\x83\0\0\0\0Hel", CLOSE],
        &[Heard::Connect, Heard::Disconnect(1000, "")],
        ANSWERED,
        Outcome::Finished,
    ),
];

#[test]
fn a_close_is_heard_with_its_code(rt: HostRuntime) -> Result<(), Fail> {
    check_sessions(&rt, CLOSES)
}

/// A code that a close frame must not have (7.4): the message layer treats it as a protocol error of the client, 1002.
const RESERVED: &[Session] = &[
    (
        &[b"\x88\x82\0\0\0\0\x03\xed"],
        &[Heard::Connect, Heard::Disconnect(1002, "")],
        ANSWERED,
        Outcome::Finished,
    ),
    (
        &[b"\x88\x82\0\0\0\0\x03\xee"],
        &[Heard::Connect, Heard::Disconnect(1002, "")],
        ANSWERED,
        Outcome::Finished,
    ),
    (
        &[b"\x88\x84\0\0\0\0\x03\xf7by"],
        &[Heard::Connect, Heard::Disconnect(1002, "")],
        ANSWERED,
        Outcome::Finished,
    ),
    (
        &[b"\x88\x82\0\0\0\0\x03\xe7"],
        &[Heard::Connect, Heard::Disconnect(1002, "")],
        ANSWERED,
        Outcome::Finished,
    ),
];

#[test]
fn a_reserved_code_is_heard_as_1002(rt: HostRuntime) -> Result<(), Fail> {
    check_sessions(&rt, RESERVED)
}

const LOST: &[Heard] = &[Heard::Connect, Heard::Disconnect(1006, "")];

/// Closes that are faulty frames: half of a code, a reason that is no UTF-8, one that is too long, and no mask.
const FAULTY: &[Session] = &[
    (
        &[b"\x88\x81\0\0\0\0\x03"],
        LOST,
        Written::Around(&[ACCEPTED], b""),
        Outcome::InputBroke,
    ),
    (
        &[b"\x88\x83\0\0\0\0\x03\xe8\xff"],
        LOST,
        Written::Around(&[ACCEPTED], b""),
        Outcome::InputBroke,
    ),
    (
        &[b"\x88\xfe\x00\x7e\0\0\0\0\x03\xe8"],
        LOST,
        Written::Around(&[ACCEPTED], b""),
        Outcome::InputBroke,
    ),
    (
        &[b"\x88\x02\x03\xe8"],
        LOST,
        Written::Around(&[ACCEPTED], b""),
        Outcome::InputBroke,
    ),
];

#[test]
fn a_faulty_close_is_a_lost_client(rt: HostRuntime) -> Result<(), Fail> {
    check_sessions(&rt, FAULTY)
}

const CONNECTS: Step = Step::Hears(Heard::Connect);

const ACCEPTS: Step = Step::Says(Said::Accept("", &[]));

const SAYS_BYE: Step = Step::Says(Said::Close(1000, "bye"));

const OWN: Step = Step::Hears(Heard::Disconnect(1000, ""));

const BYE: &[u8] = b"\x88\x05\x03\xe8bye";

/// The application closes, and the client answers, sends more, breaks the protocol or is gone: none of it is received.
const OWN_CLOSES: &[Row] = &[
    (
        App::Scripted(&[CONNECTS, ACCEPTS, SAYS_BYE, OWN, OWN]),
        &[HANDSHAKE, CLOSE],
        Written::Just(&[ACCEPTED, BYE]),
        (Outcome::Finished, 1, 0),
    ),
    (
        App::Scripted(&[
            CONNECTS,
            ACCEPTS,
            SAYS_BYE,
            OWN,
            Step::IsRefused(Said::Text("x"), 1),
        ]),
        &[HANDSHAKE, HELLO],
        Written::Just(&[ACCEPTED, BYE]),
        (Outcome::Finished, 1, 0),
    ),
    (
        App::Scripted(&[CONNECTS, ACCEPTS, SAYS_BYE, Step::Rests(9), OWN]),
        &[HANDSHAKE, b"\x81\x05Hello"],
        Written::Just(&[ACCEPTED, BYE]),
        (Outcome::Finished, 1, 0),
    ),
    (
        App::Scripted(&[CONNECTS, ACCEPTS, SAYS_BYE]),
        &[HANDSHAKE],
        Written::Just(&[ACCEPTED, BYE]),
        (Outcome::Finished, 1, 0),
    ),
    (
        App::Scripted(&[CONNECTS, ACCEPTS, SAYS_BYE, OWN, Step::Faults]),
        &[HANDSHAKE, HELLO, CLOSE],
        Written::Just(&[ACCEPTED, BYE]),
        (Outcome::Finished, 1, 1),
    ),
];

/// The end of the client's input is read before the application's close is sent, which is then refused.
const REFUSED: (Written<'static>, Outcome) = (
    Written::Around(&[ACCEPTED], b""),
    Outcome::WriteFailed(0),
);

/// The client's close is read before that, and answered by one with its code (section 5.5.1).
const ANSWERED_FIRST: (Written<'static>, Outcome) = (
    Written::Just(&[ACCEPTED, b"\x88\x02\x03\xe8"]),
    Outcome::Finished,
);

/// The client's faulty frame is read before that, and answered by a close with the code of a protocol error (7.1.7).
const CLOSED_FIRST: (Written<'static>, Outcome) = (
    Written::Just(&[ACCEPTED, b"\x88\x02\x03\xea"]),
    Outcome::Finished,
);

const OWN_CLOSES_CROSSED: &[Crossed] = &[
    &[REFUSED, ANSWERED_FIRST],
    &[REFUSED],
    &[REFUSED, CLOSED_FIRST],
    &[REFUSED],
    &[REFUSED, ANSWERED_FIRST],
];

#[test]
fn an_application_closes(rt: HostRuntime) -> Result<(), Fail> {
    check_crossing(&rt, OWN_CLOSES, OWN_CLOSES_CROSSED)
}
