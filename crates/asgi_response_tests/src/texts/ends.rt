//! What the end of a task adds.

use super::{
    Ask, EXPECTING, GET, HANDSHAKE, REFUSED_400, REFUSED_413, REFUSED_500, Say, is_written,
};
use asgi_response::Input;
use asgi_types::HeaderError;
use std::alloc::Global;
use std::process::Abort;
use std::test::Fail;

const BEGUN: &str = "HTTP/1.1 200 OK\r\ntransfer-encoding: chunked\r\n\r\n1\r\nx\r\n";

const COMPLETE: &str = "HTTP/1.1 200 OK\r\ntransfer-encoding: chunked\r\n\r\n1\r\nx\r\n0\r\n\r\n";

const CLOSED: &str =
    "HTTP/1.1 200 OK\r\ntransfer-encoding: chunked\r\nconnection: close\r\n\r\n1\r\nx\r\n0\r\n\r\n";

const START: Say = Say::Start(200, &[]);

const CLOSE: Say = Say::Start(200, &[("connection", "close")]);

/// The request and the events, and the text with what each end of the task adds.
type Row = (
    &'static str,
    Ask,
    &'static [Say],
    &'static [(Input, &'static str)],
);

const ROWS: &[Row] = &[
    (
        "nothing said",
        GET,
        &[],
        &[
            (Input::Whole, REFUSED_500),
            (Input::Faulty(400), REFUSED_400),
            (Input::Broken, ""),
        ],
    ),
    (
        "a start",
        GET,
        &[START],
        &[
            (Input::Whole, REFUSED_500),
            (Input::Faulty(413), REFUSED_413),
            (Input::Broken, ""),
        ],
    ),
    (
        "begun",
        GET,
        &[START, Say::Part("x")],
        &[
            (Input::Whole, BEGUN),
            (Input::Faulty(413), BEGUN),
            (Input::Broken, BEGUN),
        ],
    ),
    (
        "complete",
        GET,
        &[START, Say::Last("x")],
        &[
            (Input::Whole, COMPLETE),
            (Input::Faulty(400), COMPLETE),
            (Input::Broken, COMPLETE),
        ],
    ),
    (
        "complete and it closes",
        GET,
        &[CLOSE, Say::Last("x")],
        &[
            (Input::Whole, CLOSED),
            (Input::Faulty(413), CLOSED),
            (Input::Broken, CLOSED),
        ],
    ),
    (
        "another status",
        GET,
        &[],
        &[(
            Input::Faulty(777),
            "HTTP/1.1 777 \r\ncontent-length: 0\r\nconnection: close\r\n\r\n",
        )],
    ),
    (
        "nothing said to a handshake",
        HANDSHAKE,
        &[],
        &[(Input::Whole, REFUSED_500)],
    ),
    (
        "a denial's start",
        HANDSHAKE,
        &[Say::DenialStart(401, &[])],
        &[(Input::Whole, REFUSED_500), (Input::Broken, "")],
    ),
    (
        "inside a denial",
        HANDSHAKE,
        &[Say::DenialStart(401, &[]), Say::DenialPart("no")],
        &[(
            Input::Whole,
            "HTTP/1.1 401 Unauthorized\r\ntransfer-encoding: chunked\r\nconnection: close\r\n\r\n2\r\nno\r\n",
        )],
    ),
    (
        "an accept",
        HANDSHAKE,
        &[Say::Accept],
        &[(Input::Whole, ""), (Input::Broken, "")],
    ),
    ("a close", HANDSHAKE, &[Say::Close], &[(Input::Whole, "")]),
];

fn is_ended(alloc: Global, row: &Row, input: Input, text: &str) -> Result<bool, HeaderError> {
    is_written(alloc, row.1, row.2, Some(input), text)
}

fn are_ended(rt: &(impl Abort + AllocGlobal), row: &Row) -> Result<(), Fail> {
    for (input, text) in row.3 {
        let is_so = is_ended(rt.alloc(), row, *input, *text)?;
        assert!(rt; is_so, "{}, {input:?}", row.0);
    }
    Ok(())
}

#[test]
fn the_end_answers_where_no_body_was_taken(rt: HostRuntime) -> Result<(), Fail> {
    for row in ROWS {
        are_ended(&rt, row)?;
    }
    Ok(())
}

const TOLD_AND_REFUSED: &str =
    "HTTP/1.1 100 Continue\r\n\r\nHTTP/1.1 413 Content Too Large\r\ncontent-length: 0\r\nconnection: close\r\n\r\n";

#[test]
fn a_client_that_waits_is_told_to_go_on_before_a_refusal(rt: HostRuntime) -> Result<(), Fail> {
    let end = Some(Input::Faulty(413));
    let is_so = is_written(rt.alloc(), EXPECTING, &[], end, TOLD_AND_REFUSED)?;
    assert!(rt; is_so);
    Ok(())
}
