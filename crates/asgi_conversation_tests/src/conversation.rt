//! Whole conversations: what is written, the outcome, the exchanges and the faults, however the input is cut.
use asgi_conn::{Host, Outcome};
use asgi_fakes::texts::{
    BAD_REQUEST, CONTINUE, ECHO_HEAD, END, GET, GET_AND_CLOSE, HELLO, HELLO_AND_CLOSE, HELLO_HEAD,
    LAST_CHUNK, NOT_IMPLEMENTED, OLD_HELLO, PLAIN_HEAD, POST, SERVER_ERROR, TOO_LARGE,
    TOO_LARGE_CONTENT,
};
use asgi_fakes::{App, End, Heard, Pieces, Said, Step, is_served};
use asgi_types::{BadLimit, Limits};
use std::alloc::{AllocError, Global};
use std::io::ErrorKind;
use std::process::Abort;
use std::test::Fail;

/// The limits of a row.
#[derive(Clone, Copy)]
pub enum Under {
    Usual,
    /// Blocks of this many bytes.
    Blocks(usize),
    /// Heads of at most this many bytes.
    Heads(usize),
    /// Bodies of at most this many bytes.
    Bodies(u64),
}

fn limits_of(under: Under) -> Result<Limits, BadLimit> {
    match under {
        Under::Usual => Ok(Limits::usual()),
        Under::Blocks(block) => Limits::new(16_384, 64, 1_048_576, block, 16, 30_000, 1_000_000),
        Under::Heads(max) => Limits::new(max, 64, 1_048_576, 16_384, 16, 30_000, 1_000_000),
        Under::Bodies(max) => Limits::new(16_384, 64, max, 16_384, 16, 30_000, 1_000_000),
    }
}

pub type Parts = &'static [&'static [u8]];

/// The limits, the application, the input, what is written, and the end.
pub type Row = (Under, App, Parts, Parts, End);

fn joined(alloc: Global, parts: &[&[u8]]) -> Result<Vec<u8>, AllocError> {
    let mut bytes = Vec::new(alloc);
    for part in parts {
        bytes.extend_from_slice(part)?;
    }
    Ok(bytes)
}

/// Serves the input in these pieces, and compares.
fn is_row<H: Host>(rt: &H, row: &Row, pieces: Pieces, wanted: &[u8]) -> Result<bool, Fail> {
    let (under, app, _, _, end) = *row;
    let limits = limits_of(under)?;
    Ok(is_served(rt, &limits, app, pieces, wanted, end)?)
}

/// How many bytes come in a read, and the fault that comes before each, if any.
const SIZES: &[(usize, Option<ErrorKind>)] = &[
    (4_096, None),
    (1, None),
    (7, None),
    (11, None),
    (1, Some(ErrorKind::WouldBlock)),
];

fn pieces_of(input: &[u8], size: usize, before: Option<ErrorKind>) -> Pieces<'_> {
    let mut pieces = Pieces::new(input, size, size);
    pieces.before = before;
    pieces
}

/// The first piece size with which the row fails.
fn wrong_size<H: Host>(
    rt: &H,
    row: &Row,
    input: &[u8],
    wanted: &[u8],
) -> Result<Option<usize>, Fail> {
    for (size, before) in SIZES {
        if !is_row(rt, row, pieces_of(input, *size, *before), wanted)? {
            return Ok(Some(*size));
        }
    }
    Ok(None)
}

fn wrong_size_of<H: Host>(rt: &H, row: &Row) -> Result<Option<usize>, Fail> {
    let input = joined(rt.alloc(), row.2)?;
    let wanted = joined(rt.alloc(), row.3)?;
    wrong_size(rt, row, &input, &wanted)
}

/// Each row, whole and in pieces of three sizes, and byte by byte with a read that would block before each.
pub fn check<H: Abort + Host>(rt: &H, rows: &[Row]) -> Result<(), Fail> {
    for (place, row) in rows.iter().enumerate() {
        let size = wrong_size_of(rt, row)?;
        assert!(rt;
            size.is_none(),
            "row {place}, pieces of {}",
            size.unwrap_or(0)
        );
    }
    Ok(())
}

/// The first place at which the row fails if its input is cut in two there.
fn wrong_cut<H: Host>(
    rt: &H,
    row: &Row,
    input: &[u8],
    wanted: &[u8],
) -> Result<Option<usize>, Fail> {
    for cut in 1..input.len() {
        if !is_row(rt, row, Pieces::new(input, cut, 4_096), wanted)? {
            return Ok(Some(cut));
        }
    }
    Ok(None)
}

fn wrong_cut_of<H: Host>(rt: &H, row: &Row) -> Result<Option<usize>, Fail> {
    let input = joined(rt.alloc(), row.2)?;
    let wanted = joined(rt.alloc(), row.3)?;
    wrong_cut(rt, row, &input, &wanted)
}

/// The same, and each row cut in two at each place.
pub fn check_cut<H: Abort + Host>(rt: &H, rows: &[Row]) -> Result<(), Fail> {
    check(rt, rows)?;
    for (place, row) in rows.iter().enumerate() {
        let cut = wrong_cut_of(rt, row)?;
        assert!(rt; cut.is_none(), "row {place}, cut at {}", cut.unwrap_or(0));
    }
    Ok(())
}

const LENGTH_0: &[u8] = b"Content-Length: 0\r\n";

const LENGTH_3: &[u8] = b"Content-Length: 3\r\n";

const LENGTH_4: &[u8] = b"Content-Length: 4\r\n";

const LENGTH_5: &[u8] = b"Content-Length: 5\r\n";

const LENGTH_8: &[u8] = b"Content-Length: 8\r\n";

const LENGTH_10: &[u8] = b"Content-Length: 10\r\n";

const CHUNKED: &[u8] = b"Transfer-Encoding: chunked\r\n";

const EXPECT: &[u8] = b"Expect: 100-continue\r\n";

const TWO_CHUNKS: &[u8] = b"4\r\nabcd\r\n5\r\nefghi\r\n0\r\nx: y\r\n\r\n";

/// The response `ok` to a request that was received as it should be.
const OK: &[u8] = b"2\r\nok\r\n0\r\n\r\n";

const SAYS_START: Step = Step::Says(Said::Start(200, &[]));

const SAYS_OK: Step = Step::Says(Said::Last("ok"));

/// Requests with no body.
const HEADS: &[Row] = &[
    (
        Under::Usual,
        App::Hello,
        &[GET],
        &[HELLO],
        (Outcome::Finished, 1, 0),
    ),
    (
        Under::Usual,
        App::Hello,
        &[b"GET / HTTP/1.0\r\n\r\n"],
        &[OLD_HELLO],
        (Outcome::Finished, 1, 0),
    ),
    (
        Under::Usual,
        App::Hello,
        &[b"HEAD / HTTP/1.1\r\nHost: a\r\n\r\n"],
        &[HELLO_HEAD],
        (Outcome::Finished, 1, 0),
    ),
    (
        Under::Usual,
        App::NotFound,
        &[GET],
        &[b"HTTP/1.1 404 Not Found\r\ncontent-length: 0\r\n\r\n"],
        (Outcome::Finished, 1, 0),
    ),
    (
        Under::Heads(64),
        App::Hello,
        &[
            b"GET / HTTP/1.1\r\nHost: a\r\nX: ",
            b"aaaaaaaaaaaaaaaaaaaaaaaaaaaaaaaa\r\n\r\n",
        ],
        &[HELLO],
        (Outcome::Finished, 1, 0),
    ),
    (
        Under::Heads(64),
        App::Hello,
        &[
            b"GET / HTTP/1.1\r\nHost: a\r\nX: ",
            b"aaaaaaaaaaaaaaaaaaaaaaaaaaaaaaaaa\r\n\r\n",
        ],
        &[TOO_LARGE],
        (Outcome::Refused(431), 0, 0),
    ),
    (
        Under::Usual,
        App::Hello,
        &[b"GET / HTTP/1.1\r\n\r\n"],
        &[BAD_REQUEST],
        (Outcome::Refused(400), 0, 0),
    ),
    (
        Under::Usual,
        App::Hello,
        &[b"CONNECT a:1 HTTP/1.1\r\nHost: a\r\n\r\n"],
        &[NOT_IMPLEMENTED],
        (Outcome::Refused(501), 0, 0),
    ),
    (
        Under::Usual,
        App::Targets,
        &[b"GET http://a/x?y HTTP/1.1\r\nHost: a\r\n\r\n"],
        &[PLAIN_HEAD, b"b\r\n[/x][/x][y]\r\n", LAST_CHUNK],
        (Outcome::Finished, 1, 0),
    ),
    (
        Under::Usual,
        App::Targets,
        &[b"OPTIONS * HTTP/1.1\r\nHost: a\r\n\r\n"],
        &[PLAIN_HEAD, b"8\r\n[*][*][]\r\n", LAST_CHUNK],
        (Outcome::Finished, 1, 0),
    ),
    (
        Under::Usual,
        App::Hello,
        &[],
        &[],
        (Outcome::Finished, 0, 0),
    ),
    (
        Under::Usual,
        App::Hello,
        &[b"\r\n"],
        &[],
        (Outcome::Finished, 0, 0),
    ),
    (
        Under::Usual,
        App::Hello,
        &[b"GE"],
        &[],
        (Outcome::InputBroke, 0, 0),
    ),
];

#[test]
fn a_request_with_no_body(rt: HostRuntime) -> Result<(), Fail> {
    check_cut(&rt, HEADS)
}

/// Requests with a body, each alone.
const BODIES: &[Row] = &[
    (
        Under::Usual,
        App::Echo,
        &[POST, LENGTH_0, END],
        &[ECHO_HEAD, LAST_CHUNK],
        (Outcome::Finished, 1, 0),
    ),
    (
        Under::Usual,
        App::Scripted(&[Step::Hears(Heard::Last("")), SAYS_START, SAYS_OK]),
        &[POST, LENGTH_0, END],
        &[PLAIN_HEAD, OK],
        (Outcome::Finished, 1, 0),
    ),
    (
        Under::Blocks(4),
        App::Echo,
        &[POST, LENGTH_8, END, b"abcdefgh"],
        &[ECHO_HEAD, b"4\r\nabcd\r\n4\r\nefgh\r\n", LAST_CHUNK],
        (Outcome::Finished, 1, 0),
    ),
    (
        Under::Blocks(4),
        App::Scripted(&[
            Step::Hears(Heard::Part("abcd")),
            Step::Hears(Heard::Last("efgh")),
            SAYS_START,
            SAYS_OK,
        ]),
        &[POST, LENGTH_8, END, b"abcdefgh"],
        &[PLAIN_HEAD, OK],
        (Outcome::Finished, 1, 0),
    ),
    (
        Under::Blocks(4),
        App::Echo,
        &[POST, CHUNKED, END, TWO_CHUNKS],
        &[
            ECHO_HEAD,
            b"4\r\nabcd\r\n4\r\nefgh\r\n1\r\ni\r\n",
            LAST_CHUNK,
        ],
        (Outcome::Finished, 1, 0),
    ),
    (
        Under::Blocks(4),
        App::Scripted(&[
            Step::Hears(Heard::Part("abcd")),
            Step::Hears(Heard::Part("efgh")),
            Step::Hears(Heard::Part("i")),
            Step::Hears(Heard::Last("")),
            SAYS_START,
            SAYS_OK,
        ]),
        &[POST, CHUNKED, END, TWO_CHUNKS],
        &[PLAIN_HEAD, OK],
        (Outcome::Finished, 1, 0),
    ),
    (
        Under::Usual,
        App::Hello,
        &[POST, EXPECT, LENGTH_3, END, b"abc"],
        &[CONTINUE, HELLO],
        (Outcome::Finished, 1, 0),
    ),
    (
        Under::Usual,
        App::Echo,
        &[b"POST / HTTP/1.0\r\nExpect: 100-continue\r\nContent-Length: 3\r\n\r\nabc"],
        &[
            b"HTTP/1.1 200 OK\r\ncontent-type: application/octet-stream\r\nconnection: close\r\n\r\n",
            b"abc",
        ],
        (Outcome::Finished, 1, 0),
    ),
    (
        Under::Bodies(4),
        App::Echo,
        &[POST, LENGTH_4, END, b"abcd"],
        &[ECHO_HEAD, b"4\r\nabcd\r\n", LAST_CHUNK],
        (Outcome::Finished, 1, 0),
    ),
];

#[test]
fn a_request_with_a_body(rt: HostRuntime) -> Result<(), Fail> {
    check_cut(&rt, BODIES)
}

/// Bodies that are refused, or end early.
const BROKEN: &[Row] = &[
    (
        Under::Usual,
        App::Hello,
        &[POST, LENGTH_3, CHUNKED, END, LAST_CHUNK, GET],
        &[BAD_REQUEST],
        (Outcome::Refused(400), 0, 0),
    ),
    (
        Under::Usual,
        App::Echo,
        &[POST, LENGTH_10, END, b"abcd"],
        &[],
        (Outcome::InputBroke, 1, 0),
    ),
    (
        Under::Usual,
        App::Scripted(&[Step::Hears(Heard::Disconnect)]),
        &[POST, LENGTH_10, END, b"abcd"],
        &[],
        (Outcome::InputBroke, 1, 0),
    ),
    (
        Under::Bodies(4),
        App::Echo,
        &[POST, LENGTH_5, END],
        &[TOO_LARGE_CONTENT],
        (Outcome::Refused(413), 0, 0),
    ),
    (
        Under::Bodies(4),
        App::Echo,
        &[POST, CHUNKED, END, b"5\r\nabcde\r\n0\r\n\r\n"],
        &[TOO_LARGE_CONTENT],
        (Outcome::Refused(413), 1, 0),
    ),
    (
        Under::Bodies(4),
        App::Scripted(&[Step::Hears(Heard::Disconnect)]),
        &[POST, CHUNKED, END, b"5\r\nabcde\r\n0\r\n\r\n"],
        &[TOO_LARGE_CONTENT],
        (Outcome::Refused(413), 1, 0),
    ),
    (
        Under::Usual,
        App::Echo,
        &[POST, CHUNKED, END, b"x\r\n"],
        &[BAD_REQUEST],
        (Outcome::Refused(400), 1, 0),
    ),
    // The response was whole before the rest of the body was known: nothing is written after it.
    (
        Under::Usual,
        App::Hello,
        &[POST, LENGTH_10, END, b"abcd"],
        &[HELLO],
        (Outcome::InputBroke, 1, 0),
    ),
    (
        Under::Usual,
        App::Hello,
        &[POST, CHUNKED, END, b"x\r\n", GET],
        &[HELLO],
        (Outcome::InputBroke, 1, 0),
    ),
];

#[test]
fn a_body_that_breaks(rt: HostRuntime) -> Result<(), Fail> {
    check_cut(&rt, BROKEN)
}

/// One request after another.
const PIPELINED: &[Row] = &[
    (
        Under::Usual,
        App::Echo,
        &[POST, EXPECT, LENGTH_3, END, b"abc", GET],
        &[
            CONTINUE,
            ECHO_HEAD,
            b"3\r\nabc\r\n",
            LAST_CHUNK,
            ECHO_HEAD,
            LAST_CHUNK,
        ],
        (Outcome::Finished, 2, 0),
    ),
    (
        Under::Usual,
        App::Hello,
        &[POST, LENGTH_5, END, b"abcde", GET],
        &[HELLO, HELLO],
        (Outcome::Finished, 2, 0),
    ),
    (
        Under::Usual,
        App::Hello,
        &[GET_AND_CLOSE, GET],
        &[HELLO_AND_CLOSE],
        (Outcome::Finished, 1, 0),
    ),
    (
        Under::Usual,
        App::Hello,
        &[b"GET / HTTP/1.0\r\n\r\n", GET],
        &[OLD_HELLO],
        (Outcome::Finished, 1, 0),
    ),
    (
        Under::Usual,
        App::Hello,
        &[GET, b"\r\n", GET, b"\r\n\r\n"],
        &[HELLO, HELLO],
        (Outcome::Finished, 2, 0),
    ),
    (
        Under::Usual,
        App::Hello,
        &[GET, GET, GET, GET],
        &[HELLO, HELLO, HELLO, HELLO],
        (Outcome::Finished, 4, 0),
    ),
    (
        Under::Usual,
        App::Hello,
        &[GET, b"GE"],
        &[HELLO],
        (Outcome::InputBroke, 1, 0),
    ),
    (
        Under::Usual,
        App::Hello,
        &[GET, b"GET / HTTP/1.1\r\n\r\n", GET],
        &[HELLO, BAD_REQUEST],
        (Outcome::Refused(400), 1, 0),
    ),
    (
        Under::Blocks(4),
        App::Echo,
        &[POST, CHUNKED, END, TWO_CHUNKS, POST, LENGTH_4, END, b"abcd"],
        &[
            ECHO_HEAD,
            b"4\r\nabcd\r\n4\r\nefgh\r\n1\r\ni\r\n",
            LAST_CHUNK,
            ECHO_HEAD,
            b"4\r\nabcd\r\n",
            LAST_CHUNK,
        ],
        (Outcome::Finished, 2, 0),
    ),
];

#[test]
fn one_request_after_another(rt: HostRuntime) -> Result<(), Fail> {
    check_cut(&rt, PIPELINED)
}

const PART_AND_FAULT: &[Step] = &[SAYS_START, Step::Says(Said::Part("x")), Step::Faults];

/// Applications that fault, or end before their response is whole.
const FAULTS: &[Row] = &[
    (
        Under::Usual,
        App::Refuses,
        &[GET],
        &[SERVER_ERROR],
        (Outcome::Refused(500), 1, 1),
    ),
    (
        Under::Usual,
        App::Scripted(&[Step::Faults]),
        &[GET],
        &[SERVER_ERROR],
        (Outcome::Refused(500), 1, 1),
    ),
    (
        Under::Usual,
        App::Scripted(&[]),
        &[GET],
        &[SERVER_ERROR],
        (Outcome::Refused(500), 1, 0),
    ),
    (
        Under::Usual,
        App::Scripted(&[SAYS_START, Step::Faults]),
        &[GET],
        &[SERVER_ERROR],
        (Outcome::Refused(500), 1, 1),
    ),
    (
        Under::Usual,
        App::Scripted(PART_AND_FAULT),
        &[GET],
        &[PLAIN_HEAD, b"1\r\nx\r\n"],
        (Outcome::Finished, 1, 1),
    ),
    (
        Under::Usual,
        App::Scripted(&[SAYS_START, SAYS_OK, Step::Faults]),
        &[GET, GET],
        &[PLAIN_HEAD, OK, PLAIN_HEAD, OK],
        (Outcome::Finished, 2, 2),
    ),
    // The rest of the body is read first, and what is after it is not answered.
    (
        Under::Usual,
        App::Refuses,
        &[POST, LENGTH_3, END, b"abc", GET],
        &[SERVER_ERROR],
        (Outcome::Refused(500), 1, 1),
    ),
    (
        Under::Usual,
        App::Refuses,
        &[POST, EXPECT, LENGTH_3, END, b"abc"],
        &[CONTINUE, SERVER_ERROR],
        (Outcome::Refused(500), 1, 1),
    ),
    // A body that breaks off, or is refused, is reported in place of the fault.
    (
        Under::Usual,
        App::Refuses,
        &[POST, LENGTH_10, END, b"abcd"],
        &[],
        (Outcome::InputBroke, 1, 1),
    ),
    (
        Under::Usual,
        App::Refuses,
        &[POST, CHUNKED, END, b"x\r\n", GET],
        &[BAD_REQUEST],
        (Outcome::Refused(400), 1, 1),
    ),
];

#[test]
fn an_application_that_faults(rt: HostRuntime) -> Result<(), Fail> {
    check_cut(&rt, FAULTS)
}

/// The texts of some statuses.
const STATUSES: &[Row] = &[
    (
        Under::Usual,
        App::Scripted(&[
            Step::Says(Said::Start(299, &[("content-length", "0")])),
            Step::Says(Said::Last("")),
        ]),
        &[GET],
        &[b"HTTP/1.1 299 \r\ncontent-length: 0\r\n\r\n"],
        (Outcome::Finished, 1, 0),
    ),
    (
        Under::Usual,
        App::Scripted(&[
            Step::Says(Said::Start(204, &[("content-length", "3")])),
            Step::Says(Said::Last("abc")),
        ]),
        &[GET],
        &[b"HTTP/1.1 204 No Content\r\n\r\n"],
        (Outcome::Finished, 1, 0),
    ),
];

#[test]
fn a_status_of_the_application(rt: HostRuntime) -> Result<(), Fail> {
    check(&rt, STATUSES)
}
