//! Lifespan: start and stop.

use super::{Heard, PASS, Part, Step, judges, judges_hearing};
use asgi_protocol::{Verdict, Violation};
use asgi_types::Kind;
use std::test::Fail;

const COMPLETE: &[(Step, Verdict)] = &[
    (Step::Stopped, Verdict::Refused(4)),
    (Step::NotStopped, Verdict::Refused(4)),
    (Step::Start(200, ""), Verdict::Refused(3)),
    (Step::LastTrailers(""), Verdict::Refused(3)),
    (Step::Started, PASS),
    (Step::Started, Verdict::Refused(4)),
    (Step::NotStarted, Verdict::Refused(4)),
    (Step::Stopped, PASS),
    (Step::NotStopped, Verdict::Refused(1)),
];

const FAILED_START: &[(Step, Verdict)] = &[
    (Step::NotStarted, PASS),
    (Step::Started, Verdict::Refused(1)),
    (Step::Send, Verdict::Refused(1)),
];

const NOT_STOPPED: &[(Step, Verdict)] = &[
    (Step::Started, PASS),
    (Step::NotStopped, PASS),
    (Step::Stopped, Verdict::Refused(1)),
];

#[test]
fn a_start_is_answered_and_then_a_stop(rt: HostRuntime) -> Result<(), Fail> {
    judges(&rt, Kind::Lifespan, "complete", COMPLETE)?;
    judges(&rt, Kind::Lifespan, "failed", FAILED_START)?;
    judges(&rt, Kind::Lifespan, "not stopped", NOT_STOPPED)
}

const STARTED: &[Part] = &[
    ("started", &[Heard::Startup], &[(Step::Started, PASS)]),
    (
        "disconnected",
        &[Heard::HttpDisconnect],
        &[
            (Step::Stopped, Verdict::Refused(2)),
            (Step::Send, Verdict::Refused(2)),
            (Step::Started, Verdict::Refused(2)),
        ],
    ),
];

const FAILED: &[Part] = &[
    ("failed", &[], &[(Step::NotStarted, PASS)]),
    (
        "failed and disconnected",
        &[Heard::HttpDisconnect],
        &[(Step::Stopped, Verdict::Refused(1))],
    ),
];

#[test]
fn what_is_heard_is_no_disconnect(rt: HostRuntime) -> Result<(), Fail> {
    // No server sends a disconnect to a lifespan scope, but a judge takes any event.
    judges_hearing(&rt, Kind::Lifespan, STARTED)?;
    judges_hearing(&rt, Kind::Lifespan, FAILED)
}

const NUMBERS: &[(Violation, u8)] = &[
    (Violation::Closed, 1),
    (Violation::Disconnected, 2),
    (Violation::WrongScope, 3),
    (Violation::OutOfOrder, 4),
    (Violation::BadStatus, 5),
    (Violation::BadHeader, 6),
    (Violation::BadCode, 7),
    (Violation::BadReason, 8),
    (Violation::BadSubprotocol, 9),
    (Violation::TooMuchBody, 10),
    (Violation::TooLittleBody, 11),
];

fn is_numbered((refusal, number): &(Violation, u8)) -> bool {
    (refusal.number(), Verdict::from(*refusal)) == (*number, Verdict::Refused(*number))
}

#[test]
fn refusals_are_numbered_from_1_to_11(rt: HostRuntime) {
    for row in NUMBERS {
        assert!(rt; is_numbered(row), "{}", row.1);
    }
}
