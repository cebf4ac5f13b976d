//! HTTP: responses.

use super::{Heard, IGNORED, PASS, Part, Step, facts, judges, judges_hearing, judges_one, says};
use asgi_protocol::{Judge, Verdict};
use asgi_types::Kind;
use std::process::Abort;
use std::test::Fail;

const IN_ORDER: &[(Step, Verdict)] = &[
    (Step::LastBody(1), Verdict::Refused(4)),
    (Step::Body(0), Verdict::Refused(4)),
    (Step::Start(200, ""), PASS),
    (Step::Start(200, ""), Verdict::Refused(4)),
    (Step::Body(1), PASS),
    (Step::Body(0), PASS),
    (Step::Start(200, ""), Verdict::Refused(4)),
    (Step::LastBody(1), PASS),
    (Step::LastBody(1), IGNORED),
    (Step::Start(600, ""), IGNORED),
    (Step::Send, IGNORED),
];

#[test]
fn a_response_is_a_start_bodies_and_a_last_body(rt: HostRuntime) -> Result<(), Fail> {
    judges(&rt, Kind::Http, "in order", IN_ORDER)
}

const TRAILERS: &[(Step, Verdict)] = &[
    (Step::Trailers(""), Verdict::Refused(4)),
    (Step::Announce(200, ""), PASS),
    (Step::LastTrailers(""), Verdict::Refused(4)),
    (Step::Body(1), PASS),
    (Step::Trailers("x-sum: 7"), Verdict::Refused(4)),
    (Step::LastBody(1), PASS),
    (Step::LastBody(1), Verdict::Refused(4)),
    (Step::Body(0), Verdict::Refused(4)),
    (Step::Start(200, ""), Verdict::Refused(4)),
    (Step::LastTrailers("content-length: 1"), Verdict::Refused(6)),
    (
        Step::Trailers("x-sum: 7, Transfer-Encoding: chunked"),
        Verdict::Refused(6),
    ),
    (Step::Trailers("connection: close"), Verdict::Refused(6)),
    (Step::Trailers("x-sum: 7"), PASS),
    (Step::Trailers(""), PASS),
    (Step::Send, Verdict::Refused(3)),
    (
        Step::LastTrailers("host: a, authorization: b, content-type: c"),
        PASS,
    ),
    (Step::LastTrailers(""), IGNORED),
    (Step::LastTrailers("content-length: 1"), IGNORED),
];

const NO_TRAILERS: &[(Step, Verdict)] = &[
    (Step::Start(200, ""), PASS),
    (Step::Trailers(""), Verdict::Refused(4)),
    (Step::LastBody(1), PASS),
    (Step::LastTrailers(""), IGNORED),
];

const TRAILERS_AFTER_A_LENGTH: &[(Step, Verdict)] = &[
    (Step::Announce(200, "content-length: 3"), PASS),
    (Step::LastBody(2), Verdict::Refused(11)),
    (Step::LastBody(4), Verdict::Refused(10)),
    (Step::LastBody(3), PASS),
    (Step::Body(0), Verdict::Refused(4)),
    (Step::LastTrailers(""), PASS),
    (Step::Body(0), IGNORED),
];

#[test]
fn trailers_follow_the_content_that_announced_them(rt: HostRuntime) -> Result<(), Fail> {
    judges(&rt, Kind::Http, "trailers", TRAILERS)?;
    judges(&rt, Kind::Http, "no trailers", NO_TRAILERS)?;
    judges(&rt, Kind::Http, "a length", TRAILERS_AFTER_A_LENGTH)
}

const TRAILERS_LEFT: &[Part] = &[
    (
        "before",
        &[],
        &[(Step::Announce(200, ""), PASS), (Step::LastBody(1), PASS)],
    ),
    (
        "after",
        &[Heard::HttpDisconnect],
        &[(Step::LastTrailers(""), Verdict::Refused(2))],
    ),
];

#[test]
fn trailers_are_refused_after_a_disconnect(rt: HostRuntime) -> Result<(), Fail> {
    judges_hearing(&rt, Kind::Http, TRAILERS_LEFT)
}

const LENGTH_5: &[(Step, Verdict)] = &[
    (Step::Start(200, "content-length: 5"), PASS),
    (Step::LastBody(6), Verdict::Refused(10)),
    (Step::Body(6), Verdict::Refused(10)),
    (Step::LastBody(4), Verdict::Refused(11)),
    (Step::Body(4), PASS),
    (Step::Body(2), Verdict::Refused(10)),
    (Step::LastBody(0), Verdict::Refused(11)),
    (Step::Body(0), PASS),
    (Step::LastBody(1), PASS),
    (Step::LastBody(1), IGNORED),
];

#[test]
fn bodies_have_as_many_bytes_as_content_length_says(rt: HostRuntime) -> Result<(), Fail> {
    judges(&rt, Kind::Http, "length 5", LENGTH_5)
}

const LENGTH_0: &[(Step, Verdict)] = &[
    (Step::Start(200, "content-length: 0"), PASS),
    (Step::Body(1), Verdict::Refused(10)),
    (Step::Body(0), PASS),
    (Step::LastBody(0), PASS),
];

const A_LENGTH_OF_19_DIGITS: &[(Step, Verdict)] = &[
    (
        Step::Start(200, "Content-Length: 9999999999999999999"),
        PASS,
    ),
    (Step::Body(100), PASS),
    (Step::LastBody(100), Verdict::Refused(11)),
];

#[test]
fn content_length_is_0_or_has_19_digits(rt: HostRuntime) -> Result<(), Fail> {
    judges(&rt, Kind::Http, "length 0", LENGTH_0)?;
    judges(
        &rt,
        Kind::Http,
        "a length of 19 digits",
        A_LENGTH_OF_19_DIGITS,
    )
}

const HEAD: &[(Step, Verdict)] = &[
    (
        Step::Start(200, "content-length: 5, content-length: 5"),
        Verdict::Refused(6),
    ),
    (Step::Start(200, "content-length: 5"), PASS),
    (Step::Body(6), PASS),
    (Step::LastBody(0), PASS),
    (Step::LastBody(0), IGNORED),
];

/// Statuses of responses without content.
const NO_CONTENT: &[u16] = &[204, 304];

fn has_any_bodies(rt: &(impl Abort + AllocGlobal), status: u16) -> Result<(), Fail> {
    judges(
        rt,
        Kind::Http,
        "no content",
        &[
            (Step::Start(status, "content-length: 3"), PASS),
            (Step::Body(4), PASS),
            (Step::LastBody(0), PASS),
        ],
    )
}

#[test]
fn a_response_without_content_has_any_bodies(rt: HostRuntime) -> Result<(), Fail> {
    for status in NO_CONTENT {
        has_any_bodies(&rt, *status)?;
    }
    let head = facts(rt.alloc(), true)?;
    says(&rt, &mut Judge::new(Kind::Http), &head, "HEAD", HEAD)
}

const STATUSES: &[(u16, Verdict)] = &[
    (0, Verdict::Refused(5)),
    (100, Verdict::Refused(5)),
    (199, Verdict::Refused(5)),
    (200, PASS),
    (299, PASS),
    (599, PASS),
    (600, Verdict::Refused(5)),
    (65_535, Verdict::Refused(5)),
];

/// The status of a response, and that of a denial.
fn status_gives(
    rt: &(impl Abort + AllocGlobal),
    status: u16,
    verdict: Verdict,
) -> Result<(), Fail> {
    judges_one(rt, Kind::Http, "status", Step::Start(status, ""), verdict)?;
    let denial = Step::DenialStart(status, "");
    judges_one(rt, Kind::WebSocket, "status of a denial", denial, verdict)
}

#[test]
fn a_status_is_200_to_599(rt: HostRuntime) -> Result<(), Fail> {
    for (status, verdict) in STATUSES {
        status_gives(&rt, *status, *verdict)?;
    }
    Ok(())
}

const CONTENT_LENGTHS: &[(&'static str, Verdict)] = &[
    ("", PASS),
    ("content-length: 0", PASS),
    ("content-length: 0000000000000000005", PASS),
    ("content-length: 9999999999999999999", PASS),
    ("content-length: 10000000000000000000", Verdict::Refused(6)),
    ("content-length: ", Verdict::Refused(6)),
    ("content-length: +5", Verdict::Refused(6)),
    ("content-length: -5", Verdict::Refused(6)),
    ("content-length:  5", Verdict::Refused(6)),
    ("content-length: 5a", Verdict::Refused(6)),
    ("content-length: 5, content-length: 5", Verdict::Refused(6)),
    (
        "content-length: 5, x: y, Content-Length: 6",
        Verdict::Refused(6),
    ),
    ("content-lengths: a, upgrade: b", PASS),
];

/// The fields of a response, and those of a denial.
fn fields_give(
    rt: &(impl Abort + AllocGlobal),
    fields: &'static str,
    verdict: Verdict,
) -> Result<(), Fail> {
    judges_one(rt, Kind::Http, fields, Step::Start(200, fields), verdict)?;
    let denial = Step::DenialStart(401, fields);
    judges_one(rt, Kind::WebSocket, fields, denial, verdict)
}

#[test]
fn content_length_is_one_field_of_1_to_19_digits(rt: HostRuntime) -> Result<(), Fail> {
    for (fields, verdict) in CONTENT_LENGTHS {
        fields_give(&rt, fields, *verdict)?;
    }
    Ok(())
}

const TWO_REASONS: &[(Step, Verdict)] = &[
    (Step::Close(1_005, 124), Verdict::Refused(3)),
    (Step::Started, Verdict::Refused(3)),
    (Step::LastBody(9), Verdict::Refused(4)),
    (Step::Start(600, "content-length: x"), Verdict::Refused(5)),
    (Step::Start(200, "content-length: x"), Verdict::Refused(6)),
    (Step::Start(200, "content-length: 3"), PASS),
    (Step::Start(600, ""), Verdict::Refused(4)),
    (Step::DenialStart(600, ""), Verdict::Refused(3)),
    (Step::LastBody(4), Verdict::Refused(10)),
    (Step::LastBody(2), Verdict::Refused(11)),
    (Step::LastBody(3), PASS),
];

#[test]
fn the_first_reason_counts(rt: HostRuntime) -> Result<(), Fail> {
    judges(&rt, Kind::Http, "two reasons", TWO_REASONS)
}

const BEGUN: &[Part] = &[
    ("before", &[Heard::Request], &[(Step::Start(200, ""), PASS)]),
    (
        "after",
        &[Heard::HttpDisconnect, Heard::Request],
        &[
            (Step::LastBody(1), Verdict::Refused(2)),
            (Step::Send, Verdict::Refused(2)),
            (Step::Start(600, "content-length: x"), Verdict::Refused(2)),
        ],
    ),
];

const WHOLE: &[Part] = &[
    (
        "whole",
        &[],
        &[(Step::Start(200, ""), PASS), (Step::LastBody(1), PASS)],
    ),
    (
        "whole and disconnected",
        &[Heard::HttpDisconnect],
        &[(Step::LastBody(1), IGNORED)],
    ),
];

#[test]
fn after_a_disconnect_nothing_passes(rt: HostRuntime) -> Result<(), Fail> {
    judges_hearing(&rt, Kind::Http, BEGUN)?;
    judges_hearing(&rt, Kind::Http, WHOLE)
}
