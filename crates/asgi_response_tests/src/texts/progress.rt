//! How far a response is.

use super::{Ask, CLOSING, GET, HANDSHAKE, HEAD, OLD, Say, fresh, take_all};
use asgi_response::{Progress, ResponseText};
use asgi_types::HeaderError;
use std::alloc::Global;
use std::test::Fail;

type Row = (&'static str, Ask, &'static [Say], Progress);

const START: Say = Say::Start(200, &[]);

const CLOSE: Say = Say::Start(200, &[("connection", "close")]);

const KEEP: Say = Say::Start(200, &[("connection", "keep-alive")]);

const DENY: Say = Say::DenialStart(403, &[("connection", "keep-alive")]);

const STAYS: Progress = Progress::Complete { closes: false };

const CLOSES: Progress = Progress::Complete { closes: true };

const ROWS: &[Row] = &[
    ("no event", GET, &[], Progress::Nothing),
    ("a start", CLOSING, &[START], Progress::Nothing),
    ("a body first", GET, &[Say::Last("x")], Progress::Nothing),
    ("a part", GET, &[START, Say::Part("x")], Progress::Begun),
    (
        "an empty part",
        GET,
        &[START, Say::Part("")],
        Progress::Begun,
    ),
    (
        "a part to HEAD",
        HEAD,
        &[START, Say::Part("x")],
        Progress::Begun,
    ),
    ("a last body", GET, &[START, Say::Last("x")], STAYS),
    (
        "an empty last body",
        GET,
        &[START, Say::Part("x"), Say::Last("")],
        STAYS,
    ),
    (
        "the request closes",
        CLOSING,
        &[START, Say::Last("x")],
        CLOSES,
    ),
    (
        "the application closes",
        GET,
        &[CLOSE, Say::Last("x")],
        CLOSES,
    ),
    (
        "the application goes on",
        GET,
        &[KEEP, Say::Last("x")],
        STAYS,
    ),
    ("the request decides", OLD, &[KEEP, Say::Last("x")], CLOSES),
    (
        "a second start",
        GET,
        &[START, CLOSE, Say::Last("x")],
        STAYS,
    ),
    (
        "a start after the last body",
        GET,
        &[START, Say::Last("x"), CLOSE],
        STAYS,
    ),
    (
        "too short a body",
        GET,
        &[Say::Start(200, &[("content-length", "2")]), Say::Last("x")],
        Progress::Nothing,
    ),
    ("a handshake", HANDSHAKE, &[], Progress::Nothing),
    ("a denial's start", HANDSHAKE, &[DENY], Progress::Nothing),
    (
        "a denial's part",
        HANDSHAKE,
        &[DENY, Say::DenialPart("x")],
        Progress::Begun,
    ),
    ("a denial", HANDSHAKE, &[DENY, Say::DenialLast("x")], CLOSES),
    ("an accept", HANDSHAKE, &[Say::Accept], Progress::Begun),
    ("a close", HANDSHAKE, &[Say::Close], Progress::Begun),
];

/// How far the response is once the text took these events.
fn progress_after(
    text: &mut ResponseText,
    alloc: Global,
    said: &[Say],
) -> Result<Progress, HeaderError> {
    take_all(text, alloc, said, &mut Vec::new(alloc))?;
    Ok(text.progress())
}

fn progress_of(alloc: Global, ask: Ask, said: &[Say]) -> Result<Progress, HeaderError> {
    progress_after(&mut fresh(alloc, ask), alloc, said)
}

/// Whether the response is so far once the events were taken.
pub fn is_so_far(
    alloc: Global,
    ask: Ask,
    said: &[Say],
    progress: Progress,
) -> Result<bool, HeaderError> {
    let found = progress_of(alloc, ask, said)?;
    Ok((found, 0) == (progress, 0))
}

#[test]
fn progress_is_that_of_the_events_taken(rt: HostRuntime) -> Result<(), Fail> {
    for (name, ask, said, progress) in ROWS {
        let is_so = is_so_far(rt.alloc(), *ask, *said, *progress)?;
        assert!(rt; is_so, "{name}");
    }
    Ok(())
}
