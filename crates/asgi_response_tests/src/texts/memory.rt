//! Each call that allocates, when one allocation is refused: it returns that error, its objects are as before, and the
//! call can be made again. `tests/memory.py` runs these with each allocation refused in turn.

use super::{
    EXPECTING, GET, HANDSHAKE, OLD, REFUSED_413, REFUSED_426, REFUSED_500, Row, Say, TAKING, fresh,
};
use asgi_response::{Input, ResponseText};
use asgi_types::{HeaderError, Outgoing};
use std::alloc::Global;
use std::test::Fail;

const ROWS: &[Row] = &[
    (
        "chunks",
        EXPECTING,
        &[
            Say::Start(200, &[("content-type", "text/plain")]),
            Say::Part("hello "),
            Say::Last("world"),
        ],
        "HTTP/1.1 100 Continue\r\n\r\nHTTP/1.1 200 OK\r\ncontent-type: text/plain\r\ntransfer-encoding: chunked\r\n\r\n6\r\nhello \r\n5\r\nworld\r\n0\r\n\r\n",
    ),
    (
        "a length",
        OLD,
        &[Say::Start(200, &[("content-length", "2")]), Say::Last("ok")],
        "HTTP/1.1 200 OK\r\ncontent-length: 2\r\nconnection: close\r\n\r\nok",
    ),
    (
        "no content",
        GET,
        &[Say::Start(204, &[]), Say::Last("")],
        "HTTP/1.1 204 No Content\r\n\r\n",
    ),
    (
        "trailers",
        TAKING,
        &[
            Say::Announce(200, &[]),
            Say::Last("x"),
            Say::Trailers(&[("x-sum", "7")]),
            Say::LastTrailers(&[("x-end", "y")]),
        ],
        "HTTP/1.1 200 OK\r\ntransfer-encoding: chunked\r\n\r\n1\r\nx\r\n0\r\nx-sum: 7\r\nx-end: y\r\n\r\n",
    ),
    (
        "a denial",
        HANDSHAKE,
        &[
            Say::DenialStart(401, &[]),
            Say::DenialPart("n"),
            Say::DenialLast("o"),
        ],
        "HTTP/1.1 401 Unauthorized\r\ntransfer-encoding: chunked\r\nconnection: close\r\n\r\n1\r\nn\r\n1\r\no\r\n0\r\n\r\n",
    ),
];

fn event(alloc: Global, say: Say) -> Result<Outgoing, HeaderError> {
    match say.event(alloc) {
        Ok(event) => Ok(event),
        Err(_) => say.event(alloc),
    }
}

/// Takes the event, at the second attempt if memory was refused, which changed nothing.
fn is_taken(text: &mut ResponseText, event: &Outgoing, out: &mut Vec<u8>) -> bool {
    let len = out.len();
    let progress = text.progress();
    if text.take(event, out).is_ok() {
        return true;
    }
    (out.len(), text.progress()) == (len, progress) && text.take(event, out).is_ok()
}

/// The same, and the event is dropped.
fn takes(text: &mut ResponseText, event: Outgoing, out: &mut Vec<u8>) -> bool {
    is_taken(text, &event, out)
}

/// Appends what comes first, at the second attempt if memory was refused, which changed nothing.
fn is_begun(text: &ResponseText, out: &mut Vec<u8>) -> bool {
    text.begin(out).is_ok() || (out.is_empty() && text.begin(out).is_ok())
}

/// Appends what the end of the task adds, at the second attempt if memory was refused, which changed nothing.
fn is_ended(text: &ResponseText, input: Input, out: &mut Vec<u8>) -> bool {
    text.end(input, out).is_ok() || (out.is_empty() && text.end(input, out).is_ok())
}

/// Takes all the events in this way.
fn are_taken(
    text: &mut ResponseText,
    alloc: Global,
    said: &[Say],
    out: &mut Vec<u8>,
) -> Result<bool, HeaderError> {
    for say in said {
        if !takes(text, event(alloc, *say)?, out) {
            return Ok(false);
        }
    }
    Ok(true)
}

fn responds(
    text: &mut ResponseText,
    alloc: Global,
    row: &Row,
    out: &mut Vec<u8>,
) -> Result<bool, HeaderError> {
    let is_so = is_begun(text, out) && are_taken(text, alloc, row.2, out)?;
    Ok(is_so && out.as_slice() == row.3.as_bytes())
}

fn is_response(alloc: Global, row: &Row) -> Result<bool, HeaderError> {
    responds(&mut fresh(alloc, row.1), alloc, row, &mut Vec::new(alloc))
}

#[test]
fn memory_for_a_response(rt: HostRuntime) -> Result<(), Fail> {
    for row in ROWS {
        let is_so = is_response(rt.alloc(), row)?;
        assert!(rt; is_so, "{}", row.0);
    }
    Ok(())
}

/// The body of the request, and what replaces a response that has only started.
type End = (Input, &'static str);

const ENDS: &[End] = &[
    (Input::Whole, REFUSED_500),
    (Input::Faulty(413), REFUSED_413),
    (Input::Faulty(426), REFUSED_426),
    (Input::Broken, ""),
];

const STARTS: &[Say] = &[Say::Start(200, &[])];

fn answers(
    text: &mut ResponseText,
    alloc: Global,
    end: &End,
    out: &mut Vec<u8>,
) -> Result<bool, HeaderError> {
    let is_so = are_taken(text, alloc, STARTS, out)? && is_ended(text, end.0, out);
    Ok(is_so && out.as_slice() == end.1.as_bytes())
}

fn is_answer(alloc: Global, end: &End) -> Result<bool, HeaderError> {
    answers(&mut fresh(alloc, GET), alloc, end, &mut Vec::new(alloc))
}

#[test]
fn memory_for_an_end(rt: HostRuntime) -> Result<(), Fail> {
    for end in ENDS {
        let is_so = is_answer(rt.alloc(), end)?;
        assert!(rt; is_so, "{:?}", end.0);
    }
    Ok(())
}
