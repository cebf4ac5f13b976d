//! The text of trailers, and how far a response with trailers is.

use super::progress::is_so_far;
use super::{GET, HEAD, OLD, Row, Say, TAKING, are_written, is_written};
use asgi_response::{Input, Progress};
use std::test::Fail;

const START: Say = Say::Announce(200, &[]);

const SUM: Say = Say::Trailers(&[("X-Sum", "7")]);

const END: Say = Say::LastTrailers(&[("x-end", "y")]);

const ROWS: &[Row] = &[
    (
        "two trailers",
        TAKING,
        &[START, Say::Last("x"), SUM, END],
        "HTTP/1.1 200 OK\r\ntransfer-encoding: chunked\r\n\r\n1\r\nx\r\n0\r\nx-sum: 7\r\nx-end: y\r\n\r\n",
    ),
    (
        "the trailers have no fields",
        TAKING,
        &[
            START,
            Say::Part("x"),
            Say::Last(""),
            Say::Trailers(&[]),
            Say::LastTrailers(&[]),
        ],
        "HTTP/1.1 200 OK\r\ntransfer-encoding: chunked\r\n\r\n1\r\nx\r\n0\r\n\r\n",
    ),
    (
        "fields stay in order, with their doubles",
        TAKING,
        &[
            START,
            Say::Last(""),
            Say::LastTrailers(&[("b", "1"), ("a", "2"), ("b", "1")]),
        ],
        "HTTP/1.1 200 OK\r\ntransfer-encoding: chunked\r\n\r\n0\r\nb: 1\r\na: 2\r\nb: 1\r\n\r\n",
    ),
    (
        "the trailers do not end",
        TAKING,
        &[START, Say::Last("x"), SUM],
        "HTTP/1.1 200 OK\r\ntransfer-encoding: chunked\r\n\r\n1\r\nx\r\n0\r\nx-sum: 7\r\n",
    ),
    (
        "the trailers do not begin",
        TAKING,
        &[START, Say::Last("x")],
        "HTTP/1.1 200 OK\r\ntransfer-encoding: chunked\r\n\r\n1\r\nx\r\n0\r\n",
    ),
    (
        "the client takes none",
        GET,
        &[START, Say::Last("x"), SUM, END],
        "HTTP/1.1 200 OK\r\ntransfer-encoding: chunked\r\n\r\n1\r\nx\r\n0\r\n\r\n",
    ),
    (
        "none were announced",
        TAKING,
        &[Say::Start(200, &[]), Say::Last("x"), SUM, END],
        "HTTP/1.1 200 OK\r\ntransfer-encoding: chunked\r\n\r\n1\r\nx\r\n0\r\n\r\n",
    ),
    (
        "a length",
        TAKING,
        &[
            Say::Announce(200, &[("content-length", "1")]),
            Say::Last("x"),
            SUM,
            END,
        ],
        "HTTP/1.1 200 OK\r\ncontent-length: 1\r\n\r\nx",
    ),
    (
        "no content",
        TAKING,
        &[Say::Announce(204, &[]), Say::Last("x"), SUM, END],
        "HTTP/1.1 204 No Content\r\n\r\n",
    ),
    (
        "HTTP/1.0",
        OLD,
        &[START, Say::Last("x"), SUM, END],
        "HTTP/1.1 200 OK\r\nconnection: close\r\n\r\nx",
    ),
    (
        "HEAD",
        HEAD,
        &[START, Say::Last("x"), SUM, END],
        "HTTP/1.1 200 OK\r\ntransfer-encoding: chunked\r\n\r\n",
    ),
    (
        "a field that delimits content is not sent, nor are those beside it",
        TAKING,
        &[
            START,
            Say::Last("x"),
            Say::LastTrailers(&[("x-sum", "7"), ("content-length", "1")]),
            Say::LastTrailers(&[("transfer-encoding", "chunked")]),
            Say::Trailers(&[("connection", "close")]),
            END,
            SUM,
            Say::Last("y"),
        ],
        "HTTP/1.1 200 OK\r\ntransfer-encoding: chunked\r\n\r\n1\r\nx\r\n0\r\nx-end: y\r\n\r\n",
    ),
    (
        "trailers before the last body have no text",
        TAKING,
        &[SUM, START, SUM, Say::Part("x"), END, Say::Last(""), END],
        "HTTP/1.1 200 OK\r\ntransfer-encoding: chunked\r\n\r\n1\r\nx\r\n0\r\nx-end: y\r\n\r\n",
    ),
];

#[test]
fn trailers_follow_the_last_chunk(rt: HostRuntime) -> Result<(), Fail> {
    are_written(&rt, ROWS)
}

#[test]
fn a_response_without_its_trailers_gets_nothing_more(rt: HostRuntime) -> Result<(), Fail> {
    let is_so = is_written(
        rt.alloc(),
        TAKING,
        &[START, Say::Last("x"), SUM],
        Some(Input::Whole),
        "HTTP/1.1 200 OK\r\ntransfer-encoding: chunked\r\n\r\n1\r\nx\r\n0\r\nx-sum: 7\r\n",
    )?;
    assert!(rt; is_so);
    Ok(())
}

const STEPS: &[(&'static [Say], Progress)] = &[
    (&[START], Progress::Nothing),
    (&[START, Say::Last("x")], Progress::Begun),
    (&[START, Say::Last("x"), SUM], Progress::Begun),
    (
        &[START, Say::Last("x"), SUM, END],
        Progress::Complete { closes: false },
    ),
];

#[test]
fn a_response_is_complete_with_its_last_trailers(rt: HostRuntime) -> Result<(), Fail> {
    for (row, (said, progress)) in STEPS.iter().enumerate() {
        let is_so = is_so_far(rt.alloc(), TAKING, *said, *progress)?;
        assert!(rt; is_so, "row {row}");
    }
    Ok(())
}
