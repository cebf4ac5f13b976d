//! WebSocket: sessions, rejections and denials.

use super::{Heard, PASS, Part, Step, judges, judges_hearing, judges_one};
use asgi_protocol::Verdict;
use asgi_types::Kind;
use std::process::Abort;
use std::test::Fail;

const A_SESSION: &[(Step, Verdict)] = &[
    (Step::Send, Verdict::Refused(4)),
    (Step::Start(200, ""), Verdict::Refused(3)),
    (Step::Trailers(""), Verdict::Refused(3)),
    (Step::Accept("soap", ""), Verdict::Refused(9)),
    (Step::Accept("Chat", ""), Verdict::Refused(9)),
    (Step::Accept("chat", "upgrade: x"), Verdict::Refused(6)),
    (Step::Accept("chat", ""), PASS),
    (Step::Accept("chat", ""), Verdict::Refused(4)),
    (Step::DenialStart(401, ""), Verdict::Refused(4)),
    (Step::Send, PASS),
    (Step::Send, PASS),
    (Step::Close(1_005, 0), Verdict::Refused(7)),
    (Step::Close(1_000, 124), Verdict::Refused(8)),
    (Step::Close(1_000, 3), PASS),
    (Step::Send, Verdict::Refused(1)),
    (Step::LastBody(1), Verdict::Refused(1)),
];

#[test]
fn a_session_is_accepted_and_closed(rt: HostRuntime) -> Result<(), Fail> {
    judges(&rt, Kind::WebSocket, "a session", A_SESSION)
}

const ACCEPTED_FIELDS: &[(&'static str, Verdict)] = &[
    ("sec-websocket-protocol: chat", Verdict::Refused(6)),
    ("Sec-WebSocket-Accept: x", Verdict::Refused(6)),
    ("sec-websocket-extensions: x", Verdict::Refused(6)),
    ("upgrade: websocket", Verdict::Refused(6)),
    ("x: y, connection: upgrade", Verdict::Refused(6)),
    ("content-length: 0", Verdict::Refused(6)),
    ("transfer-encoding: chunked", Verdict::Refused(6)),
    ("sec-websocket-key: x, set-cookie: a", PASS),
    ("", PASS),
];

#[test]
fn an_accept_has_no_field_of_the_handshake(rt: HostRuntime) -> Result<(), Fail> {
    for (fields, verdict) in ACCEPTED_FIELDS {
        judges_one(
            &rt,
            Kind::WebSocket,
            fields,
            Step::Accept("", fields),
            *verdict,
        )?;
    }
    Ok(())
}

const CODES: &[(u16, Verdict)] = &[
    (0, Verdict::Refused(7)),
    (999, Verdict::Refused(7)),
    (1_000, PASS),
    (1_003, PASS),
    (1_004, Verdict::Refused(7)),
    (1_005, Verdict::Refused(7)),
    (1_006, Verdict::Refused(7)),
    (1_007, PASS),
    (1_011, PASS),
    (1_012, Verdict::Refused(7)),
    (2_999, Verdict::Refused(7)),
    (3_000, PASS),
    (4_999, PASS),
    (5_000, Verdict::Refused(7)),
    (65_535, Verdict::Refused(7)),
];

/// The code of a rejection, and that of the close of a session.
fn code_gives(rt: &(impl Abort + AllocGlobal), code: u16, verdict: Verdict) -> Result<(), Fail> {
    let close = Step::Close(code, 0);
    judges_one(rt, Kind::WebSocket, "rejected", close, verdict)?;
    let session = &[(Step::Accept("", ""), PASS), (close, verdict)];
    judges(rt, Kind::WebSocket, "closed", session)
}

#[test]
fn close_codes_are_those_that_an_application_may_send(rt: HostRuntime) -> Result<(), Fail> {
    for (code, verdict) in CODES {
        code_gives(&rt, *code, *verdict)?;
    }
    Ok(())
}

/// How many bytes a reason has.
const REASONS: &[(usize, Verdict)] = &[
    (0, PASS),
    (122, PASS),
    (123, PASS),
    (124, Verdict::Refused(8)),
];

#[test]
fn a_close_reason_has_at_most_123_bytes(rt: HostRuntime) -> Result<(), Fail> {
    for (size, verdict) in REASONS {
        let close = Step::Close(1_000, *size);
        judges_one(&rt, Kind::WebSocket, "reason", close, *verdict)?;
    }
    Ok(())
}

const REJECTIONS: &[(Step, Verdict)] = &[
    (Step::Denial(1), Verdict::Refused(4)),
    (Step::Close(1_000, 0), PASS),
    (Step::Close(1_000, 0), Verdict::Refused(1)),
    (Step::Accept("", ""), Verdict::Refused(1)),
];

const DENIALS: &[(Step, Verdict)] = &[
    (Step::DenialStart(199, ""), Verdict::Refused(5)),
    (Step::DenialStart(401, "content-length: 2"), PASS),
    (Step::Accept("", ""), Verdict::Refused(4)),
    (Step::Close(1_000, 0), Verdict::Refused(4)),
    (Step::Close(1_005, 124), Verdict::Refused(4)),
    (Step::Send, Verdict::Refused(4)),
    (Step::Body(1), Verdict::Refused(3)),
    (Step::Denial(3), Verdict::Refused(10)),
    (Step::Denial(1), PASS),
    (Step::LastDenial(0), Verdict::Refused(11)),
    (Step::LastDenial(1), PASS),
    (Step::LastDenial(1), Verdict::Refused(1)),
];

const EMPTY_DENIALS: &[(Step, Verdict)] = &[
    (Step::DenialStart(304, "content-length: 2"), PASS),
    (Step::LastDenial(3), PASS),
    (Step::Close(1_000, 0), Verdict::Refused(1)),
];

#[test]
fn a_handshake_is_rejected_or_denied(rt: HostRuntime) -> Result<(), Fail> {
    judges(&rt, Kind::WebSocket, "rejected", REJECTIONS)?;
    judges(&rt, Kind::WebSocket, "denied", DENIALS)?;
    judges(&rt, Kind::WebSocket, "denied with 304", EMPTY_DENIALS)
}

const TWO_REASONS: &[(Step, Verdict)] = &[
    (Step::Body(1), Verdict::Refused(3)),
    (Step::Send, Verdict::Refused(4)),
    (
        Step::DenialStart(600, "content-length: x"),
        Verdict::Refused(5),
    ),
    (Step::Accept("soap", "upgrade: x"), Verdict::Refused(6)),
    (Step::Accept("soap", ""), Verdict::Refused(9)),
    (Step::Close(1_005, 124), Verdict::Refused(7)),
    (Step::Accept("chat", ""), PASS),
    (Step::Accept("soap", "upgrade: x"), Verdict::Refused(4)),
    (Step::Close(1_005, 124), Verdict::Refused(7)),
];

#[test]
fn the_first_reason_counts(rt: HostRuntime) -> Result<(), Fail> {
    judges(&rt, Kind::WebSocket, "two reasons", TWO_REASONS)
}

const DISCONNECTED: &[Part] = &[
    (
        "before",
        &[Heard::Connect],
        &[
            (Step::DenialStart(199, ""), Verdict::Refused(5)),
            (Step::Accept("", ""), PASS),
        ],
    ),
    ("received", &[Heard::Receive], &[(Step::Send, PASS)]),
    (
        "after",
        &[Heard::WsDisconnect],
        &[
            (Step::Send, Verdict::Refused(2)),
            (Step::Body(1), Verdict::Refused(2)),
        ],
    ),
];

#[test]
fn after_a_disconnect_nothing_passes(rt: HostRuntime) -> Result<(), Fail> {
    judges_hearing(&rt, Kind::WebSocket, DISCONNECTED)
}

const REJECTED: &[Part] = &[
    ("rejected", &[], &[(Step::Close(1_000, 0), PASS)]),
    (
        "after",
        &[Heard::WsDisconnect],
        &[(Step::Send, Verdict::Refused(1))],
    ),
];

#[test]
fn a_closed_session_stays_closed_where_a_disconnect_is_heard(rt: HostRuntime) -> Result<(), Fail> {
    judges_hearing(&rt, Kind::WebSocket, REJECTED)
}
