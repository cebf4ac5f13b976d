//! The responses to an opening handshake, over a stream.
use crate::apps::{Heard, Said, Step};
use crate::rows::{Crossed, Row, Written, check, check_crossing};
use crate::serving::App;
use crate::texts::{
    ACCEPTED, CHAT_ACCEPTED, DENIED, FORBIDDEN, GET, HANDSHAKE, HELLO, HELLO_BACK, LAST_CHUNK,
    NOT_FOUND, OFFERING, SERVER_ERROR,
};
use asgi_conn::Outcome;
use std::test::Fail;

const CONNECTS: Step = Step::Hears(Heard::Connect);

/// The client is gone, or was refused.
const LOSES: Step = Step::Hears(Heard::Disconnect(1006, ""));

const REFUSED: (Outcome, u64, u64) = (Outcome::Refused(500), 1, 0);

const FAULTED: (Outcome, u64, u64) = (Outcome::Refused(500), 1, 1);

const FINISHED: (Outcome, u64, u64) = (Outcome::Finished, 1, 0);

/// An application that closes before it accepts refuses the handshake, whatever follows it.
const CLOSED_BEFORE: &[Row] = &[
    (
        App::Hello,
        &[HANDSHAKE],
        Written::Just(&[FORBIDDEN]),
        FINISHED,
    ),
    (
        App::Hello,
        &[HANDSHAKE, GET],
        Written::Just(&[FORBIDDEN]),
        FINISHED,
    ),
    (
        App::Hello,
        &[HANDSHAKE, HELLO],
        Written::Just(&[FORBIDDEN]),
        FINISHED,
    ),
    (
        App::Scripted(&[CONNECTS, Step::Says(Said::Close(1008, "no")), LOSES, LOSES]),
        &[HANDSHAKE],
        Written::Just(&[FORBIDDEN]),
        FINISHED,
    ),
    (
        App::Scripted(&[
            Step::Says(Said::Close(1000, "")),
            Step::IsRefused(Said::Accept("", &[]), 1),
            Step::Faults,
        ]),
        &[HANDSHAKE],
        Written::Just(&[FORBIDDEN]),
        (Outcome::Finished, 1, 1),
    ),
];

#[test]
fn a_close_before_the_accept_is_403(rt: HostRuntime) -> Result<(), Fail> {
    check(&rt, CLOSED_BEFORE)
}

/// An application denies the handshake by a response of its own, which closes the connection.
const DENIALS: &[Row] = &[
    (
        App::Scripted(&[
            Step::Says(Said::Denial(401, &[])),
            Step::Says(Said::Last("no")),
        ]),
        &[HANDSHAKE],
        Written::Just(&[DENIED, LAST_CHUNK]),
        FINISHED,
    ),
    (
        App::Scripted(&[
            CONNECTS,
            Step::Says(Said::Denial(401, &[])),
            Step::Says(Said::Part("no")),
            Step::Says(Said::Last("")),
            LOSES,
            LOSES,
        ]),
        &[HANDSHAKE, HELLO],
        Written::Just(&[DENIED, LAST_CHUNK]),
        FINISHED,
    ),
    (
        App::Scripted(&[
            CONNECTS,
            Step::Says(Said::Denial(401, &[("Content-Length", "2"), ("x-a", "q")])),
            Step::Says(Said::Last("no")),
        ]),
        &[HANDSHAKE, GET],
        Written::Just(&[
            b"HTTP/1.1 401 Unauthorized\r\ncontent-length: 2\r\nx-a: q\r\nconnection: close\r\n\r\nno",
        ]),
        FINISHED,
    ),
    // The body has begun, so the end of the task adds nothing.
    (
        App::Scripted(&[
            Step::Says(Said::Denial(401, &[])),
            Step::Says(Said::Part("no")),
            Step::Faults,
        ]),
        &[HANDSHAKE],
        Written::Just(&[DENIED]),
        (Outcome::Finished, 1, 1),
    ),
    (
        App::Scripted(&[
            Step::Says(Said::Denial(401, &[])),
            Step::Says(Said::Part("no")),
        ]),
        &[HANDSHAKE],
        Written::Just(&[DENIED]),
        FINISHED,
    ),
];

#[test]
fn a_denial_is_a_response_that_closes(rt: HostRuntime) -> Result<(), Fail> {
    check(&rt, DENIALS)
}

/// A task that ended before it accepted, closed or began the body of a denial.
const UNANSWERED: &[Row] = &[
    (
        App::Scripted(&[]),
        &[HANDSHAKE],
        Written::Just(&[SERVER_ERROR]),
        REFUSED,
    ),
    (
        App::Scripted(&[CONNECTS]),
        &[HANDSHAKE, HELLO],
        Written::Just(&[SERVER_ERROR]),
        REFUSED,
    ),
    (
        App::Scripted(&[Step::Faults]),
        &[HANDSHAKE],
        Written::Just(&[SERVER_ERROR]),
        FAULTED,
    ),
    (
        App::Refuses,
        &[HANDSHAKE],
        Written::Just(&[SERVER_ERROR]),
        FAULTED,
    ),
    (
        App::Scripted(&[Step::Says(Said::Denial(401, &[]))]),
        &[HANDSHAKE],
        Written::Just(&[SERVER_ERROR]),
        REFUSED,
    ),
    (
        App::Scripted(&[Step::Says(Said::Denial(401, &[])), Step::Faults]),
        &[HANDSHAKE],
        Written::Just(&[SERVER_ERROR]),
        FAULTED,
    ),
    // What is refused is not sent (ASGI WebSocket 2.4): a message before the accept, a response, and a subprotocol that
    // was not offered.
    (
        App::Scripted(&[
            Step::IsRefused(Said::Text("x"), 4),
            Step::IsRefused(Said::Start(200, &[]), 3),
            Step::IsRefused(Said::Accept("chat", &[]), 9),
        ]),
        &[HANDSHAKE],
        Written::Just(&[SERVER_ERROR]),
        REFUSED,
    ),
];

#[test]
fn a_task_that_does_not_answer_is_500(rt: HostRuntime) -> Result<(), Fail> {
    check(&rt, UNANSWERED)
}

/// Trailers are of a response to a request: neither a session nor a denial has any. After the end of either they are
/// refused as all else.
const TRAILERS: &[Row] = &[
    (
        App::Scripted(&[
            CONNECTS,
            Step::IsRefused(Said::Trailers, 3),
            Step::Says(Said::Denial(401, &[])),
            Step::IsRefused(Said::Trailers, 3),
            Step::Says(Said::Last("no")),
            Step::IsRefused(Said::Trailers, 1),
        ]),
        &[HANDSHAKE],
        Written::Just(&[DENIED, LAST_CHUNK]),
        FINISHED,
    ),
    (
        App::Scripted(&[
            CONNECTS,
            Step::Says(Said::Accept("", &[])),
            Step::IsRefused(Said::Trailers, 3),
            LOSES,
            Step::IsRefused(Said::Trailers, 2),
        ]),
        &[HANDSHAKE],
        Written::Just(&[ACCEPTED]),
        (Outcome::InputBroke, 1, 0),
    ),
    (
        App::Scripted(&[
            Step::Says(Said::Close(1000, "")),
            Step::IsRefused(Said::Trailers, 1),
        ]),
        &[HANDSHAKE],
        Written::Just(&[FORBIDDEN]),
        FINISHED,
    ),
];

#[test]
fn a_session_has_no_trailers(rt: HostRuntime) -> Result<(), Fail> {
    check(&rt, TRAILERS)
}

/// The application accepts, and the server closes once its task has ended.
const ACCEPTS: &[Row] = &[
    (
        App::Scripted(&[CONNECTS, Step::Says(Said::Accept("chat", &[("X-A", "q")]))]),
        &[OFFERING],
        Written::Just(&[CHAT_ACCEPTED, b"\x88\x02\x03\xe8"]),
        FINISHED,
    ),
    // The application need not receive the connect event, nor choose one of the subprotocols.
    (
        App::Scripted(&[Step::Says(Said::Accept("", &[]))]),
        &[OFFERING],
        Written::Just(&[ACCEPTED, b"\x88\x02\x03\xe8"]),
        FINISHED,
    ),
    (
        App::Scripted(&[CONNECTS, Step::Says(Said::Accept("", &[])), Step::Faults]),
        &[HANDSHAKE],
        Written::Just(&[ACCEPTED, b"\x88\x02\x03\xf3"]),
        (Outcome::Finished, 1, 1),
    ),
];

/// The end of the input is read before the task has ended: the server does not close then.
const ACCEPTS_CROSSED: &[Crossed] = &[
    &[(Written::Just(&[CHAT_ACCEPTED]), Outcome::InputBroke)],
    &[(Written::Just(&[ACCEPTED]), Outcome::InputBroke)],
    &[(Written::Just(&[ACCEPTED]), Outcome::InputBroke)],
];

#[test]
fn a_handshake_is_accepted(rt: HostRuntime) -> Result<(), Fail> {
    check_crossing(&rt, ACCEPTS, ACCEPTS_CROSSED)
}

/// A field whose line has 32 bytes.
const FIELD: (&str, &str) = ("x-a", "0123456789abcdefghijklmno");

/// Eight of its lines.
const EIGHT: &[u8] =
    b"x-a: 0123456789abcdefghijklmno\r\nx-a: 0123456789abcdefghijklmno\r\nx-a: 0123456789abcdefghijklmno\r\nx-a: 0123456789abcdefghijklmno\r\nx-a: 0123456789abcdefghijklmno\r\nx-a: 0123456789abcdefghijklmno\r\nx-a: 0123456789abcdefghijklmno\r\nx-a: 0123456789abcdefghijklmno\r\n";

/// The front of the response that accepts the handshake, which its own fields follow.
const ACCEPTED_FRONT: &[u8] =
    b"HTTP/1.1 101 Switching Protocols\r\nupgrade: websocket\r\nconnection: Upgrade\r\nsec-websocket-accept: s3pPLMBiTxaQ9kYGzzhZRbK+xOo=\r\n";

/// The application adds 64 fields, of 2,048 bytes, and receives that the client is gone.
const MANY_FIELDS: &[Row] = &[(
    App::Scripted(&[CONNECTS, Step::Says(Said::Accept("", &[FIELD; 64])), LOSES]),
    &[HANDSHAKE],
    Written::Just(&[
        ACCEPTED_FRONT,
        EIGHT,
        EIGHT,
        EIGHT,
        EIGHT,
        EIGHT,
        EIGHT,
        EIGHT,
        EIGHT,
        b"\r\n",
    ]),
    (Outcome::InputBroke, 1, 0),
)];

#[test]
fn an_accept_has_2_kib_of_fields(rt: HostRuntime) -> Result<(), Fail> {
    check(&rt, MANY_FIELDS)
}

/// Requests before the handshake, and all of it in one read.
const AFTER_REQUESTS: &[Row] = &[
    (
        App::WsEcho,
        &[GET, GET, HANDSHAKE, HELLO],
        Written::Just(&[NOT_FOUND, NOT_FOUND, ACCEPTED, HELLO_BACK]),
        (Outcome::InputBroke, 3, 0),
    ),
    (
        App::Scripted(&[
            CONNECTS,
            Step::Says(Said::Accept("", &[])),
            Step::Hears(Heard::Text("Hello")),
            Step::Says(Said::Text("x")),
            LOSES,
        ]),
        &[GET, GET, HANDSHAKE, HELLO],
        Written::Just(&[NOT_FOUND, NOT_FOUND, ACCEPTED, b"\x81\x01x"]),
        (Outcome::InputBroke, 3, 0),
    ),
    (
        App::Scripted(&[]),
        &[GET, HANDSHAKE, GET],
        Written::Just(&[NOT_FOUND, SERVER_ERROR]),
        (Outcome::Refused(500), 2, 0),
    ),
];

#[test]
fn a_handshake_follows_requests(rt: HostRuntime) -> Result<(), Fail> {
    check(&rt, AFTER_REQUESTS)
}
